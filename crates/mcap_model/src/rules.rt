//! The rules of a file, as a checker numbers them.
ghost use Rattle.std.specs.Prelude.{◌≡◌};
ghost use Rattle.mcap_model.specs.RuleNumbers.{rule_number, same_rule};

/// A rule of the MCAP specification that a file keeps or breaks, by the name that `docs/FORMAT.md` gives it. Each is told by its
/// number, as in `V9`. Of a Chunk that names a compression V8 asks nothing.
#[derive(Clone, Copy, Debug, PartialEq, Eq)]
pub enum Rule {
    /// The file begins with the magic.
    V1,
    /// It ends with the magic.
    V2,
    /// The first record is a Header, whose content can be read.
    V3,
    /// The records stand in a row, each of them whole, between the two magics.
    V4,
    /// No record has the opcode 0, and each stands in a section that may hold its kind.
    V5,
    /// A content meets the layout of its kind.
    V6,
    /// A Schema or Channel of an id agrees with the first one, and what a Channel or Message names stands before it.
    V7,
    /// A Chunk has the size, the CRC and the times that it states, and holds whole records of the kinds that it may.
    V8,
    /// The Message Indexes behind a Chunk are those of its messages.
    V9,
    /// The CRC of an Attachment is right, or 0.
    V10,
    /// The Footer says where the summary and its Summary Offsets start, and the summary's records stand in order.
    V11,
    /// A Chunk Index states what a Chunk has that no earlier one names, and the Message Indexes behind it.
    V12,
    /// An Attachment Index or a Metadata Index states what a record has that no earlier one names.
    V13,
    /// Statistics states the counts and the times of the data section.
    V14,
    /// A Summary Offset names all records of one kind in the summary, and no other one names these.
    V15,
    /// The CRC of the summary is that of its bytes, or 0.
    V16,
    /// The last record is a Footer, and no other is one.
    V17,
}

impl Rule {
    /// The number by which it is told.
    pub fn number(self) -> u8
        ensures { result ≡ rule_number self }
    {
        match self {
            Rule::V1 => 1,
            Rule::V2 => 2,
            Rule::V3 => 3,
            Rule::V4 => 4,
            Rule::V5 => 5,
            Rule::V6 => 6,
            Rule::V7 => 7,
            Rule::V8 => 8,
            Rule::V9 => 9,
            Rule::V10 => 10,
            Rule::V11 => 11,
            Rule::V12 => 12,
            Rule::V13 => 13,
            Rule::V14 => 14,
            Rule::V15 => 15,
            Rule::V16 => 16,
            Rule::V17 => 17,
        }
    }

    /// Whether this is that rule.
    pub fn is(self, other: Rule) -> bool
        ensures { result ≡ same_rule self other }
    {
        self.number() == other.number()
    }
}
