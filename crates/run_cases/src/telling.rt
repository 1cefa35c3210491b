//! What a run left beside what is wanted of it.
use crate::building::Pieces;
use crate::halt::{Halt, unread};
use crate::running::Ran;
use io_memory::{Kept, MemoryWorld, Opened};
use mcap_app::{Accepted, FeedReport, Refused, Report};
use mcap_io::ObjectKind;
use std::alloc::{AllocError, Global};
use std::str;

// How an object was taken back.
fn kept_text(kept: &Option<Kept>) -> &'static str {
    match kept {
        Some(kept) if kept.well && kept.faults == 0 => "kept",
        Some(_) => "lost",
        None => "not taken back",
    }
}

fn kind_text(kind: ObjectKind) -> &'static str {
    match kind {
        ObjectKind::Source => "source",
        ObjectKind::Store => "store",
        ObjectKind::Sink => "sink",
        ObjectKind::Live => "live",
    }
}

fn add_opened(alloc: Global, text: &mut String, opened: &Opened) -> Result<(), AllocError> {
    let (kind, kept) = (kind_text(opened.kind), kept_text(&opened.kept));
    let given = if opened.given { "given" } else { "refused" };
    let name = opened.name.as_str();
    let line = format!(in alloc; "{kind} {name} {given}, {kept}\n")?;
    text.push_str(line.as_str())
}

// How many bytes the last object that was taken back was asked for.
fn asked_of(world: &MemoryWorld) -> u128 {
    let mut asked = 0;
    for opened in world.log() {
        if let Some(kept) = &opened.kept {
            asked = kept.asked;
        }
    }
    asked
}

// A line for each message of a feed that was recorded.
fn add_accepted(
    alloc: Global,
    text: &mut String,
    accepted: Option<&[Accepted]>,
) -> Result<(), AllocError> {
    let Some(accepted) = accepted else {
        return text.push_str("its messages aren't listed\n");
    };
    for one in accepted {
        let (index, place) = (one.index, one.place);
        text.push_str(format!(in alloc; "{index} stands at {place}\n")?.as_str())?;
    }
    Ok(())
}

// A line for each that was refused.
fn add_refused(
    alloc: Global,
    text: &mut String,
    refused: Option<&[Refused]>,
) -> Result<(), AllocError> {
    let Some(refused) = refused else {
        return text.push_str("its refusals aren't listed\n");
    };
    for one in refused {
        let (index, cause) = (one.index, one.cause);
        text.push_str(format!(in alloc; "{index} is refused: {cause:?}\n")?.as_str())?;
    }
    Ok(())
}

// A line for each message and each declaration of a feed.
fn add_feed(alloc: Global, text: &mut String, feed: &FeedReport) -> Result<(), AllocError> {
    add_accepted(alloc, text, feed.accepted.as_slice())?;
    for declared in &feed.declared {
        let (index, channel) = (declared.index, declared.channel);
        let (first, count) = (declared.first, declared.count);
        let line = format!(in alloc; "{index} declares {channel}: {count} from {first}\n")?;
        text.push_str(line.as_str())?;
    }
    add_refused(alloc, text, feed.refused.as_slice())
}

// What a run left of a kind of which there is a number.
fn count_of(what: &str, ran: &Ran) -> Result<u128, Halt> {
    match what {
        "status" => Ok(ran.status as u128),
        "reports" => Ok(if ran.report.is_some() { 1 } else { 0 }),
        "openings" => Ok(ran.world.openings() as u128),
        "keepings" => Ok(ran.world.keepings() as u128),
        "asked" => Ok(asked_of(&ran.world)),
        _ => unread("nothing of this name can be wanted"),
    }
}

// Adds what a run left of a kind: its log has a line for each opening.
fn add_found(alloc: Global, text: &mut String, what: &str, ran: &Ran) -> Result<(), Halt> {
    match what {
        "log" => {
            for opened in ran.world.log() {
                add_opened(alloc, text, opened)?;
            }
        }
        "lists" => {
            if let Some(report) = &ran.report {
                for feed in &report.recorded.feeds {
                    add_feed(alloc, text, feed)?;
                }
            }
        }
        _ => {
            let count = count_of(what, ran)?;
            text.push_str(format!(in alloc; "{count}")?.as_str())?;
        }
    }
    Ok(())
}

// The most bytes that are shown.
const SHOWN: usize = 2000;

// The bytes as a text in quotes, or how many there are.
fn shown(alloc: Global, bytes: &[u8]) -> Result<String, AllocError> {
    let len = bytes.len();
    match str::from_utf8(bytes) {
        Ok(text) if len <= SHOWN => format!(in alloc; "{text:?}"),
        _ => format!(in alloc; "{len} bytes"),
    }
}

// How many bytes are the same at the front.
fn common(one: &[u8], other: &[u8]) -> usize {
    let mut same = 0usize;
    for (left, right) in one.iter().zip(other.iter()) {
        if left != right {
            return same;
        }
        same = same.saturating_add(1);
    }
    same
}

// How many letters and digits stand there from that place on.
fn word_len(text: &[u8], from: usize) -> usize {
    let mut len = 0usize;
    for byte in text.get(from..).unwrap_or(b"") {
        if !byte.is_ascii_alphanumeric() {
            return len;
        }
        len = len.saturating_add(1);
    }
    len
}

// Whether a text is as wanted, where a star stands for as many letters and digits as there are.
fn are_like(want: &[u8], got: &[u8]) -> bool {
    let mut at = 0usize;
    for byte in want {
        let mut len = 1;
        if *byte == b'*' {
            len = word_len(got, at);
        } else if got.get(at) != Some(byte) {
            return false;
        }
        at = at.saturating_add(len);
    }
    at == got.len()
}

// Where the line ends that begins there.
fn line_end(text: &[u8], from: usize) -> usize {
    let mut at = from;
    for byte in text.get(from..).unwrap_or(b"") {
        at = at.saturating_add(1);
        if *byte == b'\n' {
            return at;
        }
    }
    at
}

// What stands behind the lines on fronts with which a watch file may begin: how far a recording is when a watcher looks isn't
// fixed.
fn behind_fronts(text: &[u8]) -> &[u8] {
    let mut at = 0usize;
    for _ in text {
        let rest = text.get(at..).unwrap_or(b"");
        if !rest.starts_with(b"front ") {
            return rest;
        }
        at = line_end(text, at);
    }
    b""
}

/// What is to be printed.
#[derive(Drop)]
pub(crate) struct Telling {
    pub alloc: Global,
    pub text: String,
    /// How many lines were taken.
    pub line: u64,
    /// Whether something of the case at hand differs.
    pub differs: bool,
}

impl Telling {
    /// Notes that something differs.
    pub fn note(&mut self, told: &str) -> Result<(), Halt> {
        self.differs = true;
        let line = self.line;
        let note = format!(in self.alloc; "  line {line}: {told}\n")?;
        Ok(self.text.push_str(note.as_str())?)
    }

    /// Notes it where what there is isn't what is wanted.
    pub fn compare(&mut self, what: &str, want: &[u8], got: &[u8]) -> Result<(), Halt> {
        if want == got {
            return Ok(());
        }
        let at = common(want, got);
        let (want, got) = (shown(self.alloc, want)?, shown(self.alloc, got)?);
        let (want, got) = (want.as_str(), got.as_str());
        let told = format!(in self.alloc; "{what}: wanted {want}, got {got}, from byte {at} on")?;
        self.note(told.as_str())
    }

    // The same where a star may stand in what is wanted.
    fn compare_like(&mut self, what: &str, want: &[u8], got: &[u8]) -> Result<(), Halt> {
        if are_like(want, got) {
            return Ok(());
        }
        self.compare(what, want, got)
    }

    fn see(&mut self, what: &str, want: &[u8], ran: &Ran) -> Result<(), Halt> {
        match what {
            "out" => self.compare_like(what, want, ran.out.bytes()),
            "err" => self.compare(what, want, ran.err.bytes()),
            _ => {
                let mut text = String::new(self.alloc);
                add_found(self.alloc, &mut text, what, ran)?;
                self.compare_like(what, want, text.as_bytes())
            }
        }
    }

    /// Notes each thing that isn't as it is wanted, each name under which neither stands what is to be left there nor, where
    /// this isn't said, what was given, and each under which something else stands behind fronts than is to be watched.
    pub fn see_all(
        &mut self,
        given: &Pieces,
        left: &Pieces,
        watched: &Pieces,
        wanted: &Pieces,
        ran: &Ran,
    ) -> Result<(), Halt> {
        for (what, want) in wanted.iter() {
            self.see(what.as_str(), want, ran)?;
        }
        for (name, want) in watched.iter() {
            let got = ran.world.bytes(name.as_str()).unwrap_or(b"nothing");
            self.compare(name.as_str(), want, behind_fronts(got))?;
        }
        self.see_names(given, left, ran)
    }

    fn see_names(&mut self, given: &Pieces, left: &Pieces, ran: &Ran) -> Result<(), Halt> {
        for (name, bytes) in given.iter() {
            let want = left.get(name.as_str()).unwrap_or(bytes);
            let got = ran.world.bytes(name.as_str()).unwrap_or(b"nothing");
            self.compare(name.as_str(), want, got)?;
        }
        Ok(())
    }
}
