//! What the program says on standard error, and the status that it ends with.
ghost use Rattle.std.specs.Prelude.{◌≡◌, ◌++◌, codes};
ghost use Rattle.std.specs.List.{flat_map, list_any};
ghost use Rattle.command_base.specs.Texts.{bad_line, compressed, flaw, unindexed_text, about, at_offset, trouble_line, is_status, asked_status, status_is_asked, status_of};
ghost use Rattle.command_base.specs.ComplaintTroubles.{trouble_of, complained};
ghost use Rattle.command_base.specs.Putting.{PutsText};

use crate::statuses::Status;
use crate::waiting::Waiting;
use mcap_io::Sink;
use mcap_model::{NotIndexed, Rule};

/// What standard error is told of words that are no command, before the usage.
pub const BAD_WORDS: &str = "mcaprec: bad words\n";

/// What standard error is told of a want of memory.
pub const NO_MEMORY: &str = "mcaprec: no memory\n";

/// A trouble, with the name of the file that it is about. Offsets count from the file's first byte.
#[derive(Clone, Copy)]
pub enum Complaint<'a> {
    /// The file could not be read or kept.
    Fault {
        name: &'a str,
    },
    /// Standard output failed.
    OutputFault,
    /// The record at the offset breaks a rule of the format.
    Grammar {
        name: &'a str,
        offset: u64,
    },
    /// The Chunk at the offset names that compression, and is not read.
    Compressed {
        name: &'a str,
        compression: &'a str,
        offset: u64,
    },
    /// The record at the offset passes a limit on reading.
    Limit {
        name: &'a str,
        offset: u64,
    },
    /// What was to be written to the file passes a limit on writing, or the file has too many lines.
    OutputLimit {
        name: &'a str,
    },
    /// The file can't be read by its indexes.
    NotIndexed {
        name: &'a str,
        why: NotIndexed,
    },
    /// That rule fails at the offset of the file.
    Flaw {
        name: &'a str,
        rule: Rule,
        offset: u64,
    },
    /// The line of that number, from 1, isn't one of a script.
    BadLine {
        name: &'a str,
        line: u64,
    },
    /// Memory lacked.
    NoMemory,
}

// The words for why a file isn't indexed.
fn words_for(why: NotIndexed) -> &'static str
    ensures { result.now ≡ codes ": not indexed: " ++ unindexed_text why }
{
    match why {
        NotIndexed::NoSummary => ": not indexed: no summary",
        NotIndexed::NoStatistics => ": not indexed: no statistics",
        NotIndexed::ChunkCount { .. } => ": not indexed: chunk count",
        NotIndexed::NoMessageIndex { .. } => ": not indexed: no message index",
        NotIndexed::NoChannel { .. } => ": not indexed: no channel",
    }
}

// Puts a name, and what stands behind it.
fn put_about<E: Sink>(waiting: &mut Waiting, err: &mut E, name: &str, what: &str)
    ensures { PutsText (E.state err.old) waiting.old (E.state err.new) waiting.new (about name.now what.now) }
{
    waiting.put_text(err, "mcaprec: ");
    waiting.put_quoted(err, name);
    waiting.put_text(err, what);
}

// Puts an offset, and the end of the line.
fn put_offset<E: Sink>(waiting: &mut Waiting, err: &mut E, offset: u64)
    ensures { PutsText (E.state err.old) waiting.old (E.state err.new) waiting.new (at_offset offset) }
{
    waiting.put_text(err, " at ");
    waiting.put_number(err, offset);
    waiting.put_text(err, "\n");
}

// Puts the line of what is the matter with a file.
fn put_file<E: Sink>(waiting: &mut Waiting, err: &mut E, name: &str, what: &str)
    ensures { PutsText (E.state err.old) waiting.old (E.state err.new) waiting.new
        (about name.now (what.now ++ codes "\n")) }
{
    put_about(waiting, err, name, what);
    waiting.put_text(err, "\n");
}

// Puts the line of what is the matter at an offset of a file.
fn put_place<E: Sink>(waiting: &mut Waiting, err: &mut E, name: &str, what: &str, offset: u64)
    ensures { PutsText (E.state err.old) waiting.old (E.state err.new) waiting.new
        (about name.now (what.now ++ at_offset offset)) }
{
    put_about(waiting, err, name, what);
    put_offset(waiting, err, offset);
}

// Puts the line of a chunk that is compressed.
#[tactic(auto, unfolding(crate::specs::Texts::trouble_line))]
fn put_compressed<E: Sink>(
    waiting: &mut Waiting,
    err: &mut E,
    name: &str,
    compression: &str,
    offset: u64,
)
    ensures { PutsText (E.state err.old) waiting.old (E.state err.new) waiting.new
        (trouble_line (compressed name.now compression.now offset)) }
{
    put_about(waiting, err, name, ": compressed ");
    waiting.put_quoted(err, compression);
    put_offset(waiting, err, offset);
}

// Puts the line of a rule that fails.
#[tactic(auto, unfolding(crate::specs::Texts::trouble_line))]
fn put_flaw<E: Sink>(waiting: &mut Waiting, err: &mut E, name: &str, rule: Rule, offset: u64)
    ensures { PutsText (E.state err.old) waiting.old (E.state err.new) waiting.new
        (trouble_line (flaw name.now rule offset)) }
{
    put_about(waiting, err, name, ": flaw V");
    waiting.put_number(err, rule.number() as u64);
    put_offset(waiting, err, offset);
}

// Puts the line of a line of a script that isn't one.
#[tactic(auto, unfolding(crate::specs::Texts::trouble_line))]
fn put_bad_line<E: Sink>(waiting: &mut Waiting, err: &mut E, name: &str, line: u64)
    ensures { PutsText (E.state err.old) waiting.old (E.state err.new) waiting.new
        (trouble_line (bad_line name.now line)) }
{
    put_about(waiting, err, name, ": line ");
    waiting.put_number(err, line);
    waiting.put_text(err, "\n");
}

/// Puts the line of a complaint. Names are quoted as JSON strings.
#[tactic(auto, unfolding(crate::specs::Texts::trouble_line))]
pub(crate) fn put_line<E: Sink>(waiting: &mut Waiting, err: &mut E, complaint: &Complaint<'_>)
    ensures { PutsText (E.state err.old) waiting.old (E.state err.new) waiting.new
        (trouble_line (trouble_of complaint.now)) }
{
    match complaint {
        Complaint::Fault { name } => put_file(waiting, err, name, ": fault"),
        Complaint::OutputFault => waiting.put_text(err, "mcaprec: output: fault\n"),
        Complaint::Grammar { name, offset } => put_place(waiting, err, name, ": grammar", *offset),
        Complaint::Compressed {
            name,
            compression,
            offset,
        } => put_compressed(waiting, err, name, compression, *offset),
        Complaint::Limit { name, offset } => put_place(waiting, err, name, ": limit", *offset),
        Complaint::OutputLimit { name } => put_file(waiting, err, name, ": limit"),
        Complaint::NotIndexed { name, why } => put_file(waiting, err, name, words_for(*why)),
        Complaint::Flaw { name, rule, offset } => put_flaw(waiting, err, name, *rule, *offset),
        Complaint::BadLine { name, line } => put_bad_line(waiting, err, name, *line),
        Complaint::NoMemory => waiting.put_text(err, NO_MEMORY),
    }
}

// The status that a complaint asks for by itself.
fn own_status(complaint: &Complaint<'_>) -> Status
    ensures { result ≡ asked_status (trouble_of complaint.now) }
{
    match complaint {
        Complaint::NoMemory => Status::Memory,
        Complaint::Fault { .. } | Complaint::OutputFault => Status::Fault,
        Complaint::Limit { .. } | Complaint::OutputLimit { .. } => Status::Limit,
        Complaint::Grammar { .. } | Complaint::Compressed { .. } => Status::Refused,
        Complaint::NotIndexed { .. } | Complaint::Flaw { .. } => Status::Refused,
        Complaint::BadLine { .. } => Status::Refused,
    }
}

// Whether it is that status.
fn is_that(status: Status, wanted: Status) -> bool
    ensures { result ≡ is_status wanted status }
{
    status.number() == wanted.number()
}

// Whether there is a complaint, and it asks for the status.
fn asks(complaint: &Option<Complaint<'_>>, status: Status) -> bool
    ensures { result ≡ status_is_asked (complained complaint.now) status }
{
    match complaint {
        Some(complaint) => is_that(own_status(complaint), status),
        None => false,
    }
}

// Whether one of the complaints asks for the status.
fn asks_for(complaints: &[Option<Complaint<'_>>], status: Status) -> bool
    ensures { result ≡ list_any (λ c. status_is_asked (complained c) status) complaints.now }
{
    complaints.iter().any(|c| asks(c, status))
}

/// The status of a command: that memory lacked, or else that the outside failed, or else that a limit was passed, or else that
/// a feed or a file was refused; and that all was done where there is no complaint.
#[tactic(auto, using(crate::proofs::Asked::any_in_all))]
pub(crate) fn status(complaints: &[Option<Complaint<'_>>]) -> Status
    ensures { result ≡ status_of (flat_map complained complaints.now) }
{
    if asks_for(complaints, Status::Memory) {
        Status::Memory
    } else if asks_for(complaints, Status::Fault) {
        Status::Fault
    } else if asks_for(complaints, Status::Limit) {
        Status::Limit
    } else if asks_for(complaints, Status::Refused) {
        Status::Refused
    } else {
        Status::Done
    }
}
