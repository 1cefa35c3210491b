//! What stands at the ends of a file: the magics, the Header and the Footer.
ghost use Rattle.std.specs.Prelude.{◌≡◌, ◌≢◌, ◌+◌, ◌-◌, ◌≤◌, ◌↔◌, ℕ, List, length, take, drop, IsTrue, IfOk, IfErr};
ghost use Rattle.rec_data.specs.Records.{header_opcode};
ghost use Rattle.mcap_model.specs.Fields.{IsHeader};
ghost use Rattle.mcap_model.specs.Made.{top};
ghost use Rattle.mcap_model.specs.Rules.{V1};
ghost use Rattle.summary_read.specs.Reached.{EndsIn, HasNoSummary};
ghost use Rattle.mcap_model.specs.Whole.{EndsWithMagic};
ghost use Rattle.summary_read.specs.Steps.{IsOfBytes, IsOfEnd, FooterNamesPlace, BeginsWithFooter, EndJudged, EndStops, FooterJudged, FrontJudged};

use mcap_model::{IndexedRefused, NotIndexed, ReadingRefused, Rule};
use mcap_wire::{CONTENT_LIMIT, MAGIC, cut, take_head};
use rec_data::{FOOTER, Footer, HEADER, Header};

/// The length of the Footer and the magic behind it.
pub(crate) const END_LENGTH: u64 = 37;

/// The length of the magic and the head of the Header behind it.
pub(crate) const FRONT_LENGTH: u64 = 17;

/// The longest file that is read.
const FILE_LIMIT: u64 = 1_099_511_627_776;

/// The longest summary that is read.
const SUMMARY_LIMIT: u64 = 268_435_456;

/// Where the Header stands.
const HEADER_OFFSET: u64 = 8;

/// Whether the bytes begin with the magic.
pub(crate) fn begins_with_magic(bytes: &[u8]) -> bool
    ensures { IsTrue result ↔ V1 bytes.now }
{
    bytes.starts_with(&MAGIC)
}

// Whether they end with it.
fn ends_with_magic(bytes: &[u8]) -> bool
    ensures { IsTrue result ↔ EndsWithMagic bytes.now }
{
    bytes.ends_with(&MAGIC)
}

// The Footer at the front of the bytes.
fn footer_in(bytes: &[u8]) -> Option<Footer>
    ensures { BeginsWithFooter bytes.now result }
{
    let cut = match cut(bytes, 0) {
        Ok(cut) => cut,
        Err(_) => return None,
    };
    if cut.op != FOOTER {
        return None;
    }
    match Footer::parse(&bytes[cut.from as usize..cut.to as usize]) {
        Ok(footer) => return Some(footer),
        Err(_) => return None,
    }
}

// Why a file whose end has no Footer isn't loaded.
fn judge_without_footer(end: &[u8], len: u64) -> ReadingRefused
    requires size { length end.now ≡ 37 }
    requires whole { 37 ≤ len }
    ensures judged { (file : List ℕ) → length file ≡ len → drop (len - 37) file ≡ end.now
        → ((f : Footer) → EndsIn file f → ⊥) → EndStops file result }
    ensures of_bytes { IsOfBytes result }
{
    if len > FILE_LIMIT {
        return ReadingRefused::Limit { offset: FILE_LIMIT };
    }
    if !ends_with_magic(end) {
        return ReadingRefused::Grammar {
            offset: len - MAGIC.len() as u64,
            rule: Rule::V2,
        };
    }
    return ReadingRefused::Grammar {
        offset: len - END_LENGTH,
        rule: Rule::V17,
    };
}

// Judges a file whose end has this Footer, which names a summary.
fn judge_footer(end: &[u8], len: u64, footer: Footer) -> Result<Footer, ReadingRefused>
    requires size { length end.now ≡ 37 }
    requires whole { 37 ≤ len }
    requires some { footer.summary_start ≢ 0 }
    ensures judged { (file : List ℕ) → length file ≡ len → drop (len - 37) file ≡ end.now → EndsIn file footer
        → (HasNoSummary file → ⊥) → FooterJudged file result }
    ensures inside { IfOk result (FooterNamesPlace len) }
    ensures of_bytes { IfErr result IsOfBytes }
{
    let start = footer.summary_start;
    let footer_offset = len - END_LENGTH;
    if len > FILE_LIMIT {
        return Err(ReadingRefused::Limit { offset: FILE_LIMIT });
    }
    if !ends_with_magic(end) {
        return Err(ReadingRefused::Grammar {
            offset: len - MAGIC.len() as u64,
            rule: Rule::V2,
        });
    }
    let misplaced = ReadingRefused::Grammar {
        offset: footer_offset,
        rule: Rule::V11,
    };
    if start < HEADER_OFFSET {
        return Err(misplaced);
    }
    if start > footer_offset {
        return Err(misplaced);
    }
    if footer_offset - start > SUMMARY_LIMIT {
        return Err(ReadingRefused::Limit { offset: start });
    }
    return Ok(footer);
}

/// The Footer of a file of that length, judged by its last 37 bytes.
pub(crate) fn judge_end(end: &[u8], len: u64) -> Result<Footer, IndexedRefused>
    requires size { length end.now ≡ 37 }
    requires whole { 37 ≤ len }
    ensures judged { (file : List ℕ) → length file ≡ len → drop (len - 37) file ≡ end.now → EndJudged file result }
    ensures inside { IfOk result (FooterNamesPlace len) }
    ensures of_bytes { IfErr result IsOfEnd }
{
    let footer = match footer_in(end) {
        Some(footer) => footer,
        None => {
            return Err(IndexedRefused::Refused {
                why: judge_without_footer(end, len),
            });
        }
    };
    if footer.summary_start == 0 {
        return Err(IndexedRefused::NotIndexed {
            why: NotIndexed::NoSummary,
        });
    }
    match judge_footer(end, len, footer) {
        Ok(footer) => return Ok(footer),
        Err(why) => return Err(IndexedRefused::Refused { why }),
    }
}

/// The length of the Header's content, judged by the first 17 bytes of a file of that length.
pub(crate) fn judge_front(front: &[u8], len: u64) -> Result<u64, ReadingRefused>
    requires size { length front.now ≡ 17 }
    requires whole { 37 ≤ len }
    ensures judged { (file : List ℕ) → length file ≡ len → take 17 file ≡ front.now → (HasNoSummary file → ⊥)
        → FrontJudged file result }
    ensures inside { IfOk result (λ n. 25 + n ≤ len) }
    ensures of_bytes { IfErr result IsOfBytes }
{
    if !begins_with_magic(front) {
        return Err(ReadingRefused::Grammar {
            offset: 0,
            rule: Rule::V1,
        });
    }
    let offset = HEADER_OFFSET;
    let head = match take_head(front, 8) {
        Ok(head) => head,
        Err(_) => return Err(ReadingRefused::Grammar {
            offset,
            rule: Rule::V3,
        }),
    };
    if head.op != HEADER {
        return Err(ReadingRefused::Grammar {
            offset,
            rule: Rule::V3,
        });
    }
    if head.len > CONTENT_LIMIT {
        return Err(ReadingRefused::Limit { offset });
    }
    if FRONT_LENGTH + head.len + 8 > len {
        return Err(ReadingRefused::Grammar {
            offset,
            rule: Rule::V4,
        });
    }
    return Ok(head.len);
}

/// Whether the content is that of a Header.
pub(crate) fn is_header(content: &[u8]) -> bool
    ensures { IsTrue result ↔ IsHeader (top header_opcode content.now) }
{
    match Header::parse(content) {
        Ok(_) => return true,
        Err(_) => return false,
    }
}
