//! Reading a script.
ghost use Rattle.std.specs.Prelude.{◌≡◌, ◌↔◌, ◌==◌, ◌++◌, ◌∷◌, [], List, IsTrue, IfSome, IfOk, IfErr, codes, count_by};
ghost use Rattle.mcap_model.specs.Places.{Each};
ghost use Rattle.play_clock.specs.declared.line.Line.{Line as Step};
ghost use Rattle.play_clock.specs.Played.{RateFits};
ghost use Rattle.play_clock.specs.Script.{IsScript, RefusesScript, amounts_of, name_of, newlines};
ghost use Rattle.play_clock.specs.Words.{ReadsNumbers, ReadsWord};

use crate::line::{Kind, Line};
use crate::numbers::{cut_at, number_in};
use std::alloc::Global;

/// How many lines a script has at most.
const SCRIPT_LIMIT: usize = 1_000_000;

/// How large the numbers of a rate are at most.
const RATE_LIMIT: u64 = 1_000_000;

/// Why bytes are no script, or it can't be read.
#[derive(Debug, Drop)]
pub enum ScriptRefused {
    /// This line, counted from 1, is none, has no newline after it, or comes before the one in front of it.
    BadLine { line: u64 },
    /// There are too many lines.
    TooMany,
    /// The bytes are a script, but memory lacked for its lines.
    Memory,
}

// Whether two words are the same.
fn is(word: &[u8], other: &[u8]) -> bool
    ensures { IsTrue result ↔ (word.now ≡ other.now) }
{
    word == other
}

// A line that has but its moment.
fn plain_line(numbers: &[u8], kind: Kind) -> Option<Line>
    requires { amounts_of kind ≡ [] }
    ensures { ReadsNumbers (name_of kind) numbers.now result }
{
    match number_in(numbers, 0, u64::MAX) {
        Some(moment) => return Some(Line { kind, moment }),
        None => return None,
    }
}

// A line that seeks.
fn seek_line(numbers: &[u8]) -> Option<Line>
    ensures { ReadsNumbers (codes "seek") numbers.now result }
{
    let (first, second) = match cut_at(numbers, b' ') {
        Some(parts) => parts,
        None => return None,
    };
    let moment = match number_in(first, 0, u64::MAX) {
        Some(moment) => moment,
        None => return None,
    };
    match number_in(second, 0, u64::MAX) {
        Some(time) => return Some(Line {
            kind: Kind::Seek { time },
            moment,
        }),
        None => return None,
    }
}

// A line that sets the rate.
fn rate_line(numbers: &[u8]) -> Option<Line>
    ensures { ReadsNumbers (codes "rate") numbers.now result }
{
    let (first, others) = match cut_at(numbers, b' ') {
        Some(parts) => parts,
        None => return None,
    };
    let (second, third) = match cut_at(others, b' ') {
        Some(parts) => parts,
        None => return None,
    };
    let moment = match number_in(first, 0, u64::MAX) {
        Some(moment) => moment,
        None => return None,
    };
    let p = match number_in(second, 1, RATE_LIMIT) {
        Some(p) => p,
        None => return None,
    };
    match number_in(third, 1, RATE_LIMIT) {
        Some(q) => return Some(Line {
            kind: Kind::Rate { p, q },
            moment,
        }),
        None => return None,
    }
}

// The line of that name with these numbers.
fn named_line(name: &[u8], numbers: &[u8]) -> Option<Line>
    ensures { ReadsNumbers name.now numbers.now result }
{
    if is(name, b"at") {
        return plain_line(numbers, Kind::At);
    }
    if is(name, b"pause") {
        return plain_line(numbers, Kind::Pause);
    }
    if is(name, b"resume") {
        return plain_line(numbers, Kind::Resume);
    }
    if is(name, b"rate") {
        return rate_line(numbers);
    }
    if is(name, b"seek") {
        return seek_line(numbers);
    }
    return None;
}

// The line that the word is.
fn line_in(word: &[u8]) -> Option<Line>
    ensures { ReadsWord word.now result }
{
    match cut_at(word, b' ') {
        Some((name, numbers)) => return named_line(name, numbers),
        None => return None,
    }
}

// How many newlines there are.
fn newlines_in(bytes: &[u8]) -> usize
    ensures { result ≡ newlines bytes.now }
{
    bytes.iter().filter(|b| **b == b'\n').count()
}

// The lines with one more, unless memory lacked for them or lacks for it.
fn kept_with(kept: Option<Vec<Line>>, line: Line) -> Option<Vec<Line>>
    ensures { (all : List Step) → IfSome kept (λ lines. lines.items ≡ all)
        → IfSome result (λ lines. lines.items ≡ all ++ line ∷ []) }
{
    let mut lines = match kept {
        Some(lines) => lines,
        None => return None,
    };
    match lines.push(line) {
        Ok(()) => return Some(lines),
        Err(_) => return None,
    }
}

/// The lines of a script: `at M`, `pause M`, `resume M`, `rate M P Q` and `seek M T`, each with a newline after it, M and T being
/// numbers of 1 to 20 digits below 2^64, P and Q such from 1 to 1,000,000; no moment comes before an earlier one. Where memory lacks
/// for the lines they are judged nevertheless, so that a bad one is told as such.
pub fn read_script(alloc: Global, bytes: &[u8]) -> Result<Vec<Line>, ScriptRefused>
    ensures script { IfOk result (λ lines. IsScript bytes.now lines.items) }
    ensures fit { IfOk result (λ lines. Each (λ (l : Step). RateFits l.kind) lines.items) }
    ensures refused { IfErr result (λ why. RefusesScript bytes.now why) }
{
    if newlines_in(bytes) > SCRIPT_LIMIT {
        return Err(ScriptRefused::TooMany);
    }
    let mut kept = Some(Vec::new(alloc));
    let mut number: u64 = 1;
    let mut moment: u64 = 0;
    let mut at: usize = 0;
    'lines: while at < bytes.len() {
        let word = match cut_at(&bytes[at..], b'\n') {
            Some((word, _)) => word,
            None => return Err(ScriptRefused::BadLine { line: number }),
        };
        let line = match line_in(word) {
            Some(line) => line,
            None => return Err(ScriptRefused::BadLine { line: number }),
        };
        if line.moment < moment {
            return Err(ScriptRefused::BadLine { line: number });
        }
        moment = line.moment;
        at = at + word.len() + 1;
        number = number + 1;
        kept = kept_with(kept, line);
    }
    match kept {
        Some(lines) => return Ok(lines),
        None => return Err(ScriptRefused::Memory),
    }
}
