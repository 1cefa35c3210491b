//! All the words of a command line.
ghost use Rattle.std.specs.Prelude.{◌≡◌, ◌≢◌, ◌≤◌, ◌↔◌, ℕ, List, [], Some, IsTrue, codes, IfOk, IfErr, OnErr};
ghost use Rattle.std.specs.List.{All};
ghost use Rattle.clap.specs.Words.{subcommand_rows_of};
ghost use Rattle.command_words.specs.Items.{Word, texts};
ghost use Rattle.command_words.specs.Commands.{AreAmounts, AreBad, WordsMean, Derives, IsCat, IsFilter, IsGenerate, IsMerge, IsOnly, IsPlay, IsRecord, IsRecover, IsSort, synopsis_of, verb_of};
ghost use Rattle.command_words.specs.Matches.{AreFeedNames, EntersSubcommand, AreUnwatched, IsReading, rows_found, value_in, values_in};
ghost use Rattle.command_words.specs.declared.command.Command.{Command as Wanted};
ghost use Rattle.command_words.specs.declared.command.Recording.{Recording as Recorded};
ghost use Rattle.command_words.specs.declared.command.Printing.{Printing as Printed};
ghost use Rattle.command_words.specs.declared.command.FileRecovery.{FileRecovery as Recovered};
ghost use Rattle.command_words.specs.declared.command.FileFilter.{FileFilter as Filtered};
ghost use Rattle.command_words.specs.declared.command.FileMerge.{FileMerge as Merged};
ghost use Rattle.command_words.specs.declared.command.FileSort.{FileSort as Sorted};
ghost use Rattle.command_words.specs.declared.command.Playing.{Playing as Played};
ghost use Rattle.command_words.specs.declared.command.Generation.{Generation as Generated};

use crate::command::{
    Command, FileFilter, FileMerge, FileRecovery, FileSort, Generation, Inspection, Names, Playing,
    Printing, Recording, WordsRefused,
};
use crate::found::{
    BadValue, has_flag, is_dash, name_of_file, number_at, number_of, parse_number, value_of,
    values_of,
};
use crate::options::{LARGEST_CHUNK, USUAL_CHUNK, copy_of, file_options, watching_of};
use crate::read::{are_whole, plain_words, read_words};
use crate::rewriting::{Rewriting, may_be_feed, only_name, rewriting_of};
use crate::selecting::{Selected, selection_of};
use crate::verbs::{Verb, named_verb};
use crate::watches::feeds_are_unwatched;
use clap::ArgMatches;
use mcap_model::RecordOptions;
use mcap_wire::Text;
use std::alloc::Global;

/// The most bytes that may be held in memory, and those where the words don't say it.
const LARGEST_LIMIT: u64 = 1_073_741_824;

pub const USUAL_LIMIT: u64 = 104_857_600;

/// The most feeds of a recording, or files of a merge.
const FEED_LIMIT: usize = 64;

/// The most feeds that are generated, and messages in all of them.
const MOST_FEEDS: u64 = 64;

const MOST_MESSAGES: u64 = 1_000_000;

/// How many feeds are generated, and how many messages each has.
#[derive(Clone, Copy)]
struct Amounts {
    feeds: u64,
    messages: u32,
}

// Whether each of the names may be.
fn are_named(out: &str, feeds: &[&str]) -> bool
    ensures { IsTrue result ↔ All (λ feed. (feed.now ≢ []) × (out.now ≢ feed.now)) feeds.now }
{
    feeds.iter().all(|feed| may_be_feed(out, feed))
}

// Whether the names may be the feeds' beside that output.
fn are_feeds(out: &str, feeds: &[&str]) -> bool
    ensures { IsTrue result ↔ AreFeedNames out.now (texts feeds.now) }
{
    if feeds.is_empty() || feeds.len() > FEED_LIMIT {
        return false;
    }
    are_named(out, feeds)
}

// Copies of words.
fn copies_of(alloc: Global, words: &[&str]) -> Result<Names, WordsRefused>
    ensures copies { IfOk result (λ copies. copies ≡ texts words.now) }
    ensures want { OnErr result (result ≡ Err WordsRefused.Memory) }
{
    let mut copies = Vec::new(alloc);
    for word in words {
        let copy = match copy_of(alloc, word) {
            Ok(copy) => copy,
            Err(refused) => return Err(refused),
        };
        match copies.push(copy) {
            Ok(()) => {}
            Err(_) => return Err(WordsRefused::Memory),
        }
    }
    Ok(Names::new(copies))
}

// The names at that place of the feeds of a recording to that output, or of the files that are merged into it.
fn feeds_of(
    alloc: Global,
    found: &ArgMatches,
    place: &str,
    out: &str,
) -> Result<Names, WordsRefused>
    ensures feeds { IfOk result (λ feeds. (values_in found.now place.now ≡ feeds) × AreFeedNames out.now feeds) }
    ensures bad { IfErr result (λ refused. refused ≡ WordsRefused.BadWords
        → AreFeedNames out.now (values_in found.now place.now) → ⊥) }
{
    let Some(feeds) = values_of(found, place) else {
        return Err(WordsRefused::BadWords);
    };
    if !are_feeds(out, feeds) {
        return Err(WordsRefused::BadWords);
    }
    match copies_of(alloc, feeds) {
        Ok(feeds) => return Ok(feeds),
        Err(refused) => return Err(refused),
    }
}

// The names of the feeds of a recording to that output, with so many watchers.
fn recorded_feeds(
    alloc: Global,
    found: &ArgMatches,
    out: &str,
    watchers: u32,
) -> Result<Names, WordsRefused>
    ensures feeds { IfOk result (λ feeds. (values_in found.now (codes "feed") ≡ feeds) × AreFeedNames out.now feeds
        × AreUnwatched out.now watchers feeds) }
    ensures bad { IfErr result (λ refused. refused ≡ WordsRefused.BadWords
        → AreFeedNames out.now (values_in found.now (codes "feed"))
        → AreUnwatched out.now watchers (values_in found.now (codes "feed")) → ⊥) }
{
    if !feeds_are_unwatched(found, out, watchers) {
        return Err(WordsRefused::BadWords);
    }
    match feeds_of(alloc, found, "feed", out) {
        Ok(feeds) => return Ok(feeds),
        Err(refused) => return Err(refused),
    }
}

// The name of the one file of a command.
fn one_name(alloc: Global, found: &ArgMatches) -> Result<Text, WordsRefused>
    ensures file { IfOk result (λ file. (file ≢ []) × (value_in found.now (codes "file") ≡ Some file)) }
    ensures bad { IfErr result (λ refused. refused ≡ WordsRefused.BadWords → (file : Word) → file ≢ []
        → value_in found.now (codes "file") ≢ Some file) }
{
    match name_of_file(found, "file") {
        Some(file) => match copy_of(alloc, file) {
            Ok(file) => return Ok(file),
            Err(refused) => return Err(refused),
        },
        None => return Err(WordsRefused::BadWords),
    }
}

// What was found behind `record`.
fn record_of(alloc: Global, found: &ArgMatches) -> Result<Command, WordsRefused>
    ensures command { (words : List Word) → IsReading (synopsis_of Verb.Record) words (rows_found found.now)
        → IfOk result (λ command. WordsMean words command × (verb_of command ≡ Verb.Record)) }
    ensures bad { (words : List Word) → IsReading (synopsis_of Verb.Record) words (rows_found found.now)
        → IfErr result (λ refused. refused ≡ WordsRefused.BadWords → (recording : Recorded)
        → IsRecord words recording → ⊥) }
{
    if is_dash(found, "profile") {
        return Err(WordsRefused::BadWords);
    }
    let Some(out) = name_of_file(found, "out") else {
        return Err(WordsRefused::BadWords);
    };
    let limit = match number_of(found, "limit", 1, LARGEST_LIMIT) {
        Ok(limit) => limit,
        Err(BadValue) => return Err(WordsRefused::BadWords),
    };
    let watchers = match watching_of(found) {
        Ok(watchers) => watchers,
        Err(BadValue) => return Err(WordsRefused::BadWords),
    };
    let feeds = match recorded_feeds(alloc, found, out, watchers.count) {
        Ok(feeds) => feeds,
        Err(refused) => return Err(refused),
    };
    let file = match file_options(alloc, found) {
        Ok(file) => file,
        Err(refused) => return Err(refused),
    };
    let out = match copy_of(alloc, out) {
        Ok(out) => out,
        Err(refused) => return Err(refused),
    };
    let options = RecordOptions {
        file,
        limit: limit.unwrap_or(USUAL_LIMIT),
        lossless: has_flag(found, "lossless"),
    };
    Ok(Command::Record(Recording {
        out,
        feeds,
        options,
        range: watchers.range,
        watchers: watchers.count,
    }))
}

// What was found behind `cat`.
fn cat_of(alloc: Global, found: &ArgMatches) -> Result<Command, WordsRefused>
    ensures command { (words : List Word) → IsReading (synopsis_of Verb.Cat) words (rows_found found.now)
        → IfOk result (λ command. WordsMean words command × (verb_of command ≡ Verb.Cat)) }
    ensures bad { (words : List Word) → IsReading (synopsis_of Verb.Cat) words (rows_found found.now)
        → IfErr result (λ refused. refused ≡ WordsRefused.BadWords → (printing : Printed) → IsCat words printing → ⊥) }
{
    let Selected { range, topic } = match selection_of(alloc, found) {
        Ok(selected) => selected,
        Err(refused) => return Err(refused),
    };
    match one_name(alloc, found) {
        Ok(file) => return Ok(Command::Cat(Printing {
            file,
            indexed: has_flag(found, "indexed"),
            range,
            topic,
        })),
        Err(refused) => return Err(refused),
    }
}

// What was found behind `recover`.
fn recover_of(alloc: Global, found: &ArgMatches) -> Result<Command, WordsRefused>
    ensures command { (words : List Word) → IsReading (synopsis_of Verb.Recover) words (rows_found found.now)
        → IfOk result (λ command. WordsMean words command × (verb_of command ≡ Verb.Recover)) }
    ensures bad { (words : List Word) → IsReading (synopsis_of Verb.Recover) words (rows_found found.now)
        → IfErr result (λ refused. refused ≡ WordsRefused.BadWords → (recovery : Recovered)
        → IsRecover words recovery → ⊥) }
{
    match rewriting_of(alloc, found) {
        Ok(Rewriting { input, out, chunk }) => {
            return Ok(Command::Recover(FileRecovery { input, out, chunk }));
        }
        Err(refused) => return Err(refused),
    }
}

// What was found behind `sort`.
fn sort_of(alloc: Global, found: &ArgMatches) -> Result<Command, WordsRefused>
    ensures command { (words : List Word) → IsReading (synopsis_of Verb.Sort) words (rows_found found.now)
        → IfOk result (λ command. WordsMean words command × (verb_of command ≡ Verb.Sort)) }
    ensures bad { (words : List Word) → IsReading (synopsis_of Verb.Sort) words (rows_found found.now)
        → IfErr result (λ refused. refused ≡ WordsRefused.BadWords → (sorting : Sorted)
        → IsSort words sorting → ⊥) }
{
    match rewriting_of(alloc, found) {
        Ok(Rewriting { input, out, chunk }) => {
            return Ok(Command::Sort(FileSort { input, out, chunk }));
        }
        Err(refused) => return Err(refused),
    }
}

// What was found behind `filter`.
fn filter_of(alloc: Global, found: &ArgMatches) -> Result<Command, WordsRefused>
    ensures command { (words : List Word) → IsReading (synopsis_of Verb.Filter) words (rows_found found.now)
        → IfOk result (λ command. WordsMean words command × (verb_of command ≡ Verb.Filter)) }
    ensures bad { (words : List Word) → IsReading (synopsis_of Verb.Filter) words (rows_found found.now)
        → IfErr result (λ refused. refused ≡ WordsRefused.BadWords → (filtering : Filtered)
        → IsFilter words filtering → ⊥) }
{
    let Selected { range, topic } = match selection_of(alloc, found) {
        Ok(selected) => selected,
        Err(refused) => return Err(refused),
    };
    match rewriting_of(alloc, found) {
        Ok(Rewriting { input, out, chunk }) => return Ok(Command::Filter(FileFilter {
            input,
            out,
            range,
            topic,
            chunk,
        })),
        Err(refused) => return Err(refused),
    }
}

// What was found behind `play`.
fn play_of(alloc: Global, found: &ArgMatches) -> Result<Command, WordsRefused>
    ensures command { (words : List Word) → IsReading (synopsis_of Verb.Play) words (rows_found found.now)
        → IfOk result (λ command. WordsMean words command × (verb_of command ≡ Verb.Play)) }
    ensures bad { (words : List Word) → IsReading (synopsis_of Verb.Play) words (rows_found found.now)
        → IfErr result (λ refused. refused ≡ WordsRefused.BadWords → (playing : Played)
        → IsPlay words playing → ⊥) }
{
    let Some(script) = only_name(found, "script") else {
        return Err(WordsRefused::BadWords);
    };
    let Selected { range, topic } = match selection_of(alloc, found) {
        Ok(selected) => selected,
        Err(refused) => return Err(refused),
    };
    let file = match one_name(alloc, found) {
        Ok(file) => file,
        Err(refused) => return Err(refused),
    };
    match copy_of(alloc, script) {
        Ok(script) => return Ok(Command::Play(Playing {
            file,
            script,
            range,
            topic,
        })),
        Err(refused) => return Err(refused),
    }
}

// What was found behind `merge`.
fn merge_of(alloc: Global, found: &ArgMatches) -> Result<Command, WordsRefused>
    ensures command { (words : List Word) → IsReading (synopsis_of Verb.Merge) words (rows_found found.now)
        → IfOk result (λ command. WordsMean words command × (verb_of command ≡ Verb.Merge)) }
    ensures bad { (words : List Word) → IsReading (synopsis_of Verb.Merge) words (rows_found found.now)
        → IfErr result (λ refused. refused ≡ WordsRefused.BadWords → (merge : Merged) → IsMerge words merge
        → ⊥) }
{
    let Some(out) = name_of_file(found, "out") else {
        return Err(WordsRefused::BadWords);
    };
    let chunk = match number_of(found, "chunk", 1, LARGEST_CHUNK) {
        Ok(chunk) => chunk.unwrap_or(USUAL_CHUNK),
        Err(BadValue) => return Err(WordsRefused::BadWords),
    };
    let inputs = match feeds_of(alloc, found, "in", out) {
        Ok(inputs) => inputs,
        Err(refused) => return Err(refused),
    };
    match copy_of(alloc, out) {
        Ok(out) => return Ok(Command::Merge(FileMerge { out, inputs, chunk })),
        Err(refused) => return Err(refused),
    }
}

// The same number in fewer bits.
fn narrowed(number: u64) -> u32
    requires { number ≤ 1000000 }
    ensures { result ≡ number }
{
    number as u32
}

// The numbers of feeds and of the messages of each.
fn amounts_of(feeds_word: &str, messages_word: &str) -> Result<Amounts, BadValue>
    ensures amounts { IfOk result (λ amounts. AreAmounts feeds_word.now messages_word.now amounts.feeds
        amounts.messages) }
    ensures bad { OnErr result ((feeds messages : ℕ) → AreAmounts feeds_word.now messages_word.now feeds messages → ⊥) }
{
    let feeds = match parse_number(feeds_word, 1, MOST_FEEDS) {
        Ok(feeds) => feeds,
        Err(BadValue) => return Err(BadValue),
    };
    let messages = match parse_number(messages_word, 0, MOST_MESSAGES) {
        Ok(messages) => messages,
        Err(BadValue) => return Err(BadValue),
    };
    if feeds * messages > MOST_MESSAGES {
        return Err(BadValue);
    }
    return Ok(Amounts {
        feeds,
        messages: narrowed(messages),
    });
}

// What was found behind `gen`.
fn generate_of(alloc: Global, found: &ArgMatches) -> Result<Command, WordsRefused>
    ensures command { (words : List Word) → IsReading (synopsis_of Verb.Generate) words (rows_found found.now)
        → IfOk result (λ command. WordsMean words command × (verb_of command ≡ Verb.Generate)) }
    ensures bad { (words : List Word) → IsReading (synopsis_of Verb.Generate) words (rows_found found.now)
        → IfErr result (λ refused. refused ≡ WordsRefused.BadWords → (generation : Generated)
        → IsGenerate words generation → ⊥) }
{
    let seed = match number_at(found, "seed", 0, u64::MAX) {
        Ok(seed) => seed,
        Err(BadValue) => return Err(WordsRefused::BadWords),
    };
    let Some(rest) = values_of(found, "rest") else {
        return Err(WordsRefused::BadWords);
    };
    if rest.len() != 3 || rest[2].is_empty() {
        return Err(WordsRefused::BadWords);
    }
    let amounts = match amounts_of(rest[0], rest[1]) {
        Ok(amounts) => amounts,
        Err(BadValue) => return Err(WordsRefused::BadWords),
    };
    match copy_of(alloc, rest[2]) {
        Ok(out) => return Ok(Command::Generate(Generation {
            seed,
            feeds: amounts.feeds,
            messages: amounts.messages,
            out,
        })),
        Err(refused) => return Err(refused),
    }
}

// What was found behind the name of a command.
fn command_of(alloc: Global, verb: Verb, found: &ArgMatches) -> Result<Command, WordsRefused>
    ensures command { (words : List Word) → IsReading (synopsis_of verb) words (rows_found found.now)
        → IfOk result (λ command. WordsMean words command × (verb_of command ≡ verb)) }
    ensures bad { (words : List Word) → IsReading (synopsis_of verb) words (rows_found found.now)
        → IfErr result (λ refused. refused ≡ WordsRefused.BadWords → (command : Wanted) → verb_of command ≡ verb
        → WordsMean words command → ⊥) }
{
    match verb {
        Verb::Record => return record_of(alloc, found),
        Verb::OfFile { what } => match one_name(alloc, found) {
            Ok(file) => return Ok(Command::OfFile(Inspection { what, file })),
            Err(refused) => return Err(refused),
        },
        Verb::Cat => return cat_of(alloc, found),
        Verb::Recover => return recover_of(alloc, found),
        Verb::Merge => return merge_of(alloc, found),
        Verb::Generate => return generate_of(alloc, found),
        Verb::Filter => return filter_of(alloc, found),
        Verb::Sort => return sort_of(alloc, found),
        Verb::Play => return play_of(alloc, found),
    }
}

// The command that was found.
fn found_command(alloc: Global, found: &ArgMatches) -> Result<Command, WordsRefused>
    ensures command { (words : List Word) → EntersSubcommand words (subcommand_rows_of found.now)
        → IfOk result (Derives words) }
    ensures bad { (words : List Word) → EntersSubcommand words (subcommand_rows_of found.now)
        → result ≡ Err WordsRefused.BadWords → AreBad words }
{
    let Some((name, below)) = found.subcommand() else {
        return Err(WordsRefused::BadWords);
    };
    match named_verb(name) {
        Some(verb) => return command_of(alloc, verb, below),
        None => return Err(WordsRefused::BadWords),
    }
}

/// Reads the words behind the program's own name, which are those of a command as the usage shows it.
///
/// Options and positionals stand in any order behind the command, and `--` ends the options. An option has its value
/// behind `=` in the same word, or in the next word, which then doesn't begin with `-`; each stands at most once. A number
/// has 1 to 20 decimal digits: N of `--limit` is a number of bytes from 1 to 1,073,741,824 (usually 104,857,600), that of
/// `--chunk` from 1 to 67,108,864 (usually 786,432), and those of `--start` and `--end` are times below 2^64. SEED is a
/// number below 2^64, FEEDS one from 1 to 64, and FEEDS times MESSAGES is at most 1,000,000. A profile has
/// at most 65,535 bytes. OUT, FEED, FILE and IN aren't empty and no word is `-` alone; 1 to 64 FEEDs stand behind OUT, each
/// other than OUT, two of which may be equal, as 1 to 64 INs do behind that of `merge`, and the one IN of `recover`, `filter` and
/// `sort` is other than OUT, but FILE and SCRIPT may be equal; `--plain` and `--chunk` exclude each other.
///
/// N of `--watchers` is a number from 0 to 16, and START:END of `--watch` two times below 2^64 with one colon between them,
/// from START on and before END. Without `--watch` the times are all; without `--watchers` there is one watcher where
/// `--watch` stands, and else none. `--plain` excludes both. A watcher's number, from 1 on, stands behind OUT and `.watch` in
/// the name of its file, which no FEED of that recording has.
///
/// Where the words are no command the answer is BadWords, and where there is no memory for reading them it may be Memory.
pub fn parse_words(alloc: Global, words: &[Text]) -> Result<Command, WordsRefused>
    ensures command { IfOk result (λ command. Derives words.now command) }
    ensures only { IfOk result (λ command. IsOnly words.now command) }
    ensures bad { result ≡ Err WordsRefused.BadWords → AreBad words.now }
{
    if !are_whole(words) {
        return Err(WordsRefused::BadWords);
    }
    let Ok(plain) = plain_words(alloc, words) else {
        return Err(WordsRefused::Memory);
    };
    match read_words(alloc, &plain) {
        Ok(found) => return found_command(alloc, &found),
        Err(refused) => return Err(refused),
    }
}
