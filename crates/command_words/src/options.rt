//! What the options of the commands say.
ghost use Rattle.std.specs.Prelude.{◌≡◌, ◌≤◌, ◌↔◌, ℕ, [], Bool, List, Option, IsTrue, IfOk, IfErr, IfSome, OnErr, codes, unwrap_or};
ghost use Rattle.std.specs.Option.{option_to_list};
ghost use Rattle.command_words.specs.Commands.{GivesSpan, HasChunks, HasProfile, HasWatchers, IsFileOptions, IsRange, IsSpan, MayWatch, SizesChunks, synopsis_of, watchers_with};
ghost use Rattle.command_words.specs.Items.{Word, Item};
ghost use Rattle.command_words.specs.Matches.{ParsesInto, Selects, rows_found, value_in};
ghost use Rattle.command_words.specs.Synopses.{Synopsis};
ghost use Rattle.command_words.specs.declared.verbs.Verb.TheVariants as verb;
ghost use Rattle.mcap_model.specs.declared.options.FileOptions.{FileOptions as Options};
ghost use Rattle.mcap_model.specs.declared.replay.Range.{Range as Times};

use crate::command::WordsRefused;
use crate::found::{BadValue, has_flag, number_of, parse_number, value_of};
use clap::ArgMatches;
use mcap_model::{FileOptions, Range};
use mcap_wire::Text;
use std::alloc::Global;

/// The bytes of records from which on a chunk is closed: the most, and those where the words don't say it.
pub const LARGEST_CHUNK: u64 = 67_108_864;

pub const USUAL_CHUNK: u64 = 786_432;

/// The most bytes of a profile.
const LONGEST_PROFILE: usize = 65_535;

/// The most watchers of a recording.
const MOST_WATCHERS: u64 = 16;

/// How many watchers there are, and the times of the messages that they replay.
#[derive(Clone, Copy)]
pub struct Watchers {
    pub range: Range,
    pub count: u32,
}

/// A copy of a word.
pub fn copy_of(alloc: Global, word: &str) -> Result<Text, WordsRefused>
    ensures copy { IfOk result (λ copy. copy ≡ word.now) }
    ensures want { OnErr result (result ≡ Err WordsRefused.Memory) }
{
    match Text::copied(alloc, word) {
        Ok(copy) => return Ok(copy),
        Err(_) => return Err(WordsRefused::Memory),
    }
}

// The size of the chunks, or none with --plain, which --chunk doesn't stand beside.
fn size_chunks(is_plain: bool, size: Option<u64>) -> Result<Option<u64>, BadValue>
    ensures chunk { IfOk result (SizesChunks is_plain size) }
    ensures bad { OnErr result ((chunk : Option ℕ) → SizesChunks is_plain size chunk → ⊥) }
{
    match size {
        Some(size) => {
            if is_plain {
                return Err(BadValue);
            }
            return Ok(Some(size));
        }
        None => {
            if is_plain {
                return Ok(None);
            }
            return Ok(Some(USUAL_CHUNK));
        }
    }
}

// --plain and --chunk.
fn chunk_of(found: &ArgMatches) -> Result<Option<u64>, BadValue>
    ensures chunk { (items : List Item) (places : List Word)
        → ParsesInto (synopsis_of verb.Record) items places (rows_found found.now) → IfOk result (HasChunks items) }
    ensures bad { (items : List Item) (places : List Word)
        → ParsesInto (synopsis_of verb.Record) items places (rows_found found.now)
        → OnErr result ((chunk : Option ℕ) → HasChunks items chunk → ⊥) }
{
    match number_of(found, "chunk", 1, LARGEST_CHUNK) {
        Ok(size) => return size_chunks(has_flag(found, "plain"), size),
        Err(BadValue) => return Err(BadValue),
    }
}

// What --profile says, or nothing.
fn profile_text<'a>(found: &ArgMatches<'a>) -> &'a str
    ensures { result.now ≡ unwrap_or (value_in found.now (codes "profile")) [] }
{
    match value_of(found, "profile") {
        Some(profile) => return profile,
        None => return "",
    }
}

// --profile.
fn profile_of<'a>(found: &ArgMatches<'a>) -> Result<&'a str, BadValue>
    ensures profile { (items : List Item) (places : List Word)
        → ParsesInto (synopsis_of verb.Record) items places (rows_found found.now)
        → IfOk result (λ profile. HasProfile items profile.now) }
    ensures bad { (items : List Item) (places : List Word)
        → ParsesInto (synopsis_of verb.Record) items places (rows_found found.now)
        → OnErr result ((profile : Word) → HasProfile items profile → ⊥) }
{
    let profile = profile_text(found);
    if profile.len() > LONGEST_PROFILE {
        return Err(BadValue);
    }
    Ok(profile)
}

/// The profile and the size of the chunks; no word gives a span.
pub fn file_options(alloc: Global, found: &ArgMatches) -> Result<FileOptions, WordsRefused>
    ensures options { (items : List Item) (places : List Word)
        → ParsesInto (synopsis_of verb.Record) items places (rows_found found.now) → IfOk result (IsFileOptions items) }
    ensures bad { (items : List Item) (places : List Word)
        → ParsesInto (synopsis_of verb.Record) items places (rows_found found.now)
        → IfErr result (λ refused. refused ≡ WordsRefused.BadWords → (file : Options) → IsFileOptions items file → ⊥) }
{
    let Ok(chunk) = chunk_of(found) else {
        return Err(WordsRefused::BadWords);
    };
    let Ok(profile) = profile_of(found) else {
        return Err(WordsRefused::BadWords);
    };
    let profile = copy_of(alloc, profile)?;
    Ok(FileOptions {
        profile,
        chunk,
        span: None,
    })
}

/// --start and --end of a command that takes them.
pub fn range_of(found: &ArgMatches) -> Result<Range, BadValue>
    ensures range { (v : Synopsis) (items : List Item) (places : List Word) → Selects v
        → ParsesInto v items places (rows_found found.now) → IfOk result (IsRange items) }
    ensures bad { (v : Synopsis) (items : List Item) (places : List Word) → Selects v
        → ParsesInto v items places (rows_found found.now)
        → OnErr result ((range : Times) → IsRange items range → ⊥) }
{
    match number_of(found, "start", 0, u64::MAX) {
        Ok(start) => match number_of(found, "end", 0, u64::MAX) {
            Ok(end) => return Ok(Range {
                start: start.unwrap_or(0),
                end,
            }),
            Err(BadValue) => return Err(BadValue),
        },
        Err(BadValue) => return Err(BadValue),
    }
}

// The times from one number on and before another, with a colon between them.
fn parse_span(word: &str) -> Result<Range, BadValue>
    ensures span { IfOk result (IsSpan word.now) }
    ensures bad { OnErr result ((span : Times) → IsSpan word.now span → ⊥) }
{
    let Some((start, end)) = word.split_once(':') else {
        return Err(BadValue);
    };
    match parse_number(start, 0, u64::MAX) {
        Ok(start) => match parse_number(end, 0, u64::MAX) {
            Ok(end) => return Ok(Range {
                start,
                end: Some(end),
            }),
            Err(BadValue) => return Err(BadValue),
        },
        Err(BadValue) => return Err(BadValue),
    }
}

// --watch.
fn span_of(found: &ArgMatches) -> Result<Option<Range>, BadValue>
    ensures span { IfOk result (λ span. GivesSpan (option_to_list (value_in found.now (codes "watch"))) span) }
    ensures bad { OnErr result ((span : Option Times)
        → GivesSpan (option_to_list (value_in found.now (codes "watch"))) span → ⊥) }
{
    match value_of(found, "watch") {
        Some(word) => match parse_span(word) {
            Ok(span) => return Ok(Some(span)),
            Err(BadValue) => return Err(BadValue),
        },
        None => return Ok(None),
    }
}

// Whether the values of --watch and --watchers may stand: neither may beside --plain.
fn may_watch(is_plain: bool, span: Option<Range>, number: Option<u64>) -> bool
    ensures { IsTrue result ↔ MayWatch is_plain span number }
{
    !is_plain || (span.is_none() && number.is_none())
}

// How many watchers there are with those values.
fn watchers_of(number: Option<u64>, span: Option<Range>) -> u32
    requires { IfSome number (λ n. n ≤ MOST_WATCHERS) }
    ensures { result ≡ watchers_with number span }
{
    match number {
        Some(number) => return number as u32,
        None => match span {
            Some(_) => return 1,
            None => return 0,
        },
    }
}

/// --watch and --watchers, beside which --plain doesn't stand.
pub fn watching_of(found: &ArgMatches) -> Result<Watchers, BadValue>
    ensures watchers { (items : List Item) (places : List Word)
        → ParsesInto (synopsis_of verb.Record) items places (rows_found found.now)
        → IfOk result (λ watchers. HasWatchers items watchers.range watchers.count) }
    ensures bad { (items : List Item) (places : List Word)
        → ParsesInto (synopsis_of verb.Record) items places (rows_found found.now)
        → OnErr result ((range : Times) (count : ℕ) → HasWatchers items range count → ⊥) }
{
    let span = match span_of(found) {
        Ok(span) => span,
        Err(BadValue) => return Err(BadValue),
    };
    let number = match number_of(found, "watchers", 0, MOST_WATCHERS) {
        Ok(number) => number,
        Err(BadValue) => return Err(BadValue),
    };
    if !may_watch(has_flag(found, "plain"), span, number) {
        return Err(BadValue);
    }
    let whole_time = Range {
        start: 0,
        end: None,
    };
    Ok(Watchers {
        range: span.unwrap_or(whole_time),
        count: watchers_of(number, span),
    })
}
