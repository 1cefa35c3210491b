//! Words, and the command that they are.
use crate::building::{Pieces, add_text, piece};
use crate::halt::{Halt, unread};
use crate::tokens::{Token, tokens_of};
use mcap_app::{
    Command, FileFilter, FileMerge, FileRecovery, FileSort, Generation, Inspection, Names, Playing,
    Printing, Recording, WordsRefused, parse_words,
};
use mcap_model::Range;
use mcap_wire::Text;
use std::alloc::{AllocError, Global};

// A word, or the piece whose name stands behind an `@`.
fn word_of(alloc: Global, pieces: &Pieces, token: &Token<'_>) -> Result<Text, Halt> {
    let mut bytes = Vec::new(alloc);
    match token.text.strip_prefix('@') {
        Some(name) => bytes.extend_from_slice(piece(pieces, name)?)?,
        None => add_text(&mut bytes, token.text)?,
    }
    match String::from_utf8(bytes) {
        Ok(text) => Ok(Text::new(text)),
        Err(_) => unread("a piece in a word is no text"),
    }
}

/// The words of a line.
pub(crate) fn words_of(
    alloc: Global,
    pieces: &Pieces,
    line: &[Token<'_>],
) -> Result<Vec<Text>, Halt> {
    let mut words = Vec::new(alloc);
    for token in line {
        words.push(word_of(alloc, pieces, token)?)?;
    }
    Ok(words)
}

// The names, each behind a space.
fn joined(alloc: Global, feeds: &Names) -> Result<String, AllocError> {
    let mut names = String::new(alloc);
    for feed in feeds.as_slice() {
        names.push_str(" ")?;
        names.push_str(feed.as_str())?;
    }
    Ok(names)
}

// How many watchers there are, and the times that they replay, or nothing where nothing was said of them.
fn watched(
    alloc: Global,
    watchers: u32,
    start: u64,
    end: Option<u64>,
) -> Result<String, AllocError> {
    if watchers == 0 && start == 0 && end.is_none() {
        return Ok(String::new(alloc));
    }
    format!(in alloc; " watchers={watchers} start={start} end={end:?}")
}

// A recording with all its options.
fn said_of_recording(alloc: Global, recording: &Recording) -> Result<String, AllocError> {
    let (out, feeds) = (recording.out.as_str(), joined(alloc, &recording.feeds)?);
    let options = &recording.options;
    let profile = options.file.profile.as_str();
    let (chunk, limit) = (options.file.chunk, options.limit);
    let waits = if options.lossless { " lossless" } else { "" };
    let range = recording.range;
    let watched = watched(alloc, recording.watchers, range.start, range.end)?;
    format!(in alloc;
        "record {out}{feeds} profile='{profile}' chunk={chunk:?} limit={limit}{waits}{watched}"
    )
}

// Which messages are asked for.
fn selected(alloc: Global, range: Range, topic: &Option<Text>) -> Result<String, AllocError> {
    let (start, end) = (range.start, range.end);
    let topic = match topic {
        Some(topic) => Some(topic.as_str()),
        None => None,
    };
    format!(in alloc; "start={start} end={end:?} topic={topic:?}")
}

// A printing with all its options.
fn said_of_printing(alloc: Global, printing: &Printing) -> Result<String, AllocError> {
    let (file, indexed) = (printing.file.as_str(), printing.indexed);
    let selected = selected(alloc, printing.range, &printing.topic)?;
    format!(in alloc; "cat {file} indexed={indexed} {selected}")
}

// A filtering with all its options.
fn said_of_filtering(alloc: Global, filtering: &FileFilter) -> Result<String, AllocError> {
    let (input, out, chunk) = (
        filtering.input.as_str(),
        filtering.out.as_str(),
        filtering.chunk,
    );
    let selected = selected(alloc, filtering.range, &filtering.topic)?;
    format!(in alloc; "filter {input} {out} {selected} chunk={chunk}")
}

// A playing with all its options.
fn said_of_playing(alloc: Global, playing: &Playing) -> Result<String, AllocError> {
    let (file, script) = (playing.file.as_str(), playing.script.as_str());
    let selected = selected(alloc, playing.range, &playing.topic)?;
    format!(in alloc; "play {file} {script} {selected}")
}

fn said(alloc: Global, command: &Command) -> Result<String, AllocError> {
    match command {
        Command::Record(recording) => said_of_recording(alloc, recording),
        Command::OfFile(Inspection { what, file }) => {
            let (what, file) = (what.name(), file.as_str());
            format!(in alloc; "{what} {file}")
        }
        Command::Cat(printing) => said_of_printing(alloc, printing),
        Command::Recover(FileRecovery { input, out, chunk }) => {
            let (input, out) = (input.as_str(), out.as_str());
            format!(in alloc; "recover {input} {out} chunk={chunk}")
        }
        Command::Merge(FileMerge { out, inputs, chunk }) => {
            let (out, inputs) = (out.as_str(), joined(alloc, inputs)?);
            format!(in alloc; "merge {out}{inputs} chunk={chunk}")
        }
        Command::Generate(
            Generation {
                seed,
                feeds,
                messages,
                out,
            },
        ) => {
            let out = out.as_str();
            format!(in alloc; "gen {seed} {feeds} {messages} {out}")
        }
        Command::Filter(filtering) => said_of_filtering(alloc, filtering),
        Command::Sort(FileSort { input, out, chunk }) => {
            let (input, out) = (input.as_str(), out.as_str());
            format!(in alloc; "sort {input} {out} chunk={chunk}")
        }
        Command::Play(playing) => said_of_playing(alloc, playing),
    }
}

/// The command that the words of a line are, with all its options, or `bad`.
pub(crate) fn command_in(alloc: Global, pieces: &Pieces, line: &str) -> Result<String, Halt> {
    let tokens = tokens_of(alloc, line)?;
    let words = words_of(alloc, pieces, &tokens)?;
    let said = match parse_words(alloc, &words) {
        Ok(command) => said(alloc, &command),
        Err(WordsRefused::BadWords) => String::from_str(alloc, "bad"),
        Err(WordsRefused::Memory) => String::from_str(alloc, "no memory"),
    };
    Ok(said?)
}
