//! How a command ends, and the number that tells it.
ghost use Rattle.std.specs.Prelude.{◌≡◌};
ghost use Rattle.command_base.specs.Texts.{status_number};

/// How a command ends. Where several hold, the first of want of memory, fault, limit and refusal counts.
#[derive(Clone, Copy)]
pub enum Status {
    /// All was done.
    Done,
    /// A feed or a file was refused: it breaks a rule, names a compression, or isn't indexed.
    Refused,
    /// A file, the disk or standard output failed.
    Fault,
    /// A limit is passed.
    Limit,
    /// Memory lacked.
    Memory,
}

/// The number that the program ends with where the words are no command. It is that of no status.
pub const BAD_WORDS_STATUS: u8 = 2;

impl Status {
    /// The number that the program ends with.
    pub fn number(self) -> u8
        ensures { result ≡ status_number self }
    {
        match self {
            Status::Done => 0,
            Status::Refused => 1,
            Status::Fault => 3,
            Status::Limit => 4,
            Status::Memory => 5,
        }
    }
}
