//! The replay of a source that is read once, from its front.
ghost use Rattle.std.specs.Prelude.{◌≡◌, List, Option, ℕ, IfOk, map, filter};
ghost use Rattle.mcap_model.specs.declared.replay.Range.{Range as Times};
ghost use Rattle.mcap_model.specs.Tops.{Top};
ghost use Rattle.mcap_model.specs.Scan.{Seen, Scan};
ghost use Rattle.mcap_model.specs.Plain.{asked_topic};
ghost use Rattle.mcap_model.specs.Showing.{shown_as};
ghost use Rattle.mcap_model.specs.declared.refusals.ReadingRefused.{ReadingRefused as Refusal};
ghost use Rattle.mcap_scan.specs.declared.reader.Stage.TheVariants as stages;
ghost use Rattle.time_player.specs.Asking.{is_asked};
ghost use Rattle.time_player.specs.Keeping.{kept_in};
ghost use Rattle.time_player.specs.Replaying.{IsGoodScan, IsPlayed, AreLines, AreTimed, ReadsKept, Plays, PlaysLines, PlaysTimed};

use crate::keeping::keep_record;
use crate::kept::Kept;
use crate::printer::Printer;
use crate::replay::KeptReplay;
use crate::timed_lines::TimedLines;
use crate::topics::topics_of_kept;
use mcap_io::Source;
use mcap_model::{Range, ReadingRefused, Replayed, Tables, put_in_order, topics_of};
use mcap_scan::{FlatReader, FlatStep};
use mcap_wire::{Memory, Text};
use std::alloc::Global;

// Puts copies of the messages that were kept in order, with the topics of their channels.
fn finish(alloc: Global, tables: &Tables, kept: &Kept) -> Result<Replayed, Memory>
    ensures { (range : Times) (topic : Option (List ℕ)) (tops : List Top) (messages : List Seen)
        → IsGoodScan tops tables.now messages → kept_in kept.now ≡ map shown_as (filter (is_asked range topic) messages)
        → IfOk result (λ played. IsPlayed range topic messages played) }
{
    let mut shown = match kept.copies(alloc) {
        Ok(shown) => shown,
        Err(memory) => return Err(memory),
    };
    let topics = match topics_of(alloc, tables, &shown) {
        Ok(topics) => topics,
        Err(memory) => return Err(memory),
    };
    put_in_order(&mut shown);
    return Ok(Replayed { topics, shown });
}

// Puts the messages that were kept in order, with the topics of their channels.
fn finish_kept(alloc: Global, tables: &Tables, kept: Kept) -> Result<KeptReplay, Memory>
    ensures { (range : Times) (topic : Option (List ℕ)) (tops : List Top) (messages : List Seen)
        → IsGoodScan tops tables.now messages → kept_in kept ≡ map shown_as (filter (is_asked range topic) messages)
        → IfOk result (λ played. IsPlayed range topic messages played) }
{
    let mut kept = kept;
    let topics = match topics_of_kept(alloc, tables, &kept) {
        Ok(topics) => topics,
        Err(memory) => return Err(memory),
    };
    kept.put_in_order();
    return Ok(KeptReplay::new(topics, kept));
}

// Puts the messages that were kept in order, and makes ready to print them.
fn finish_lines(alloc: Global, tables: &Tables, kept: Kept) -> Result<Printer, Memory>
    ensures { (range : Times) (topic : Option (List ℕ)) (tops : List Top) (messages : List Seen)
        → IsGoodScan tops tables.now messages → kept_in kept ≡ map shown_as (filter (is_asked range topic) messages)
        → IfOk result (λ text. AreLines range topic messages text) }
{
    let replayed = match finish_kept(alloc, tables, kept) {
        Ok(replayed) => replayed,
        Err(memory) => return Err(memory),
    };
    match Printer::of_kept(alloc, replayed) {
        Ok(text) => return Ok(text),
        Err(memory) => return Err(memory),
    }
}

// Puts the messages that were kept in order, and makes ready to print stretches of them.
fn finish_timed(alloc: Global, tables: &Tables, kept: Kept) -> Result<TimedLines, Memory>
    ensures { (range : Times) (topic : Option (List ℕ)) (tops : List Top) (messages : List Seen)
        → IsGoodScan tops tables.now messages → kept_in kept ≡ map shown_as (filter (is_asked range topic) messages)
        → IfOk result (λ lines. AreTimed range topic messages lines) }
{
    let replayed = match finish_kept(alloc, tables, kept) {
        Ok(replayed) => replayed,
        Err(memory) => return Err(memory),
    };
    match TimedLines::of_kept(alloc, replayed) {
        Ok(lines) => return Ok(lines),
        Err(memory) => return Err(memory),
    }
}

// Why a reading was refused. It is apart, so that the messages that were kept are dropped in one place for all reasons.
fn refusal_of(flat: FlatReader) -> ReadingRefused
    ensures { (why : Refusal) → flat.reader.stage ≡ stages.Stopped why → result ≡ why }
{
    match flat.into_refusal() {
        Some(why) => return why,
        None => return ReadingRefused::Memory,
    }
}

// Reads a source to its Data End, and keeps those messages that are asked for.
fn read_kept<S: Source>(
    alloc: Global,
    source: &mut S,
    range: Range,
    topic: Option<&Text>,
) -> Result<(Tables, Kept), ReadingRefused>
    ensures reads { ReadsKept range (asked_topic topic.entry) (S.state source.old) (S.state source.new) result }
    ensures stays { S.stays source.old source.new }
{
    let mut flat = match FlatReader::new(alloc) {
        Ok(flat) => flat,
        Err(_) => return Err(ReadingRefused::Memory),
    };
    let mut kept = Kept::new(alloc);
    'records: loop {
        match flat.advance(source) {
            FlatStep::Record { op, place } => {
                match keep_record(&mut kept, &flat, range, topic, op, place) {
                    Ok(()) => {}
                    Err(_) => return Err(ReadingRefused::Memory),
                }
            }
            FlatStep::End { offset: _ } => return Ok((flat.into_tables(), kept)),
            FlatStep::Refused => return Err(refusal_of(flat)),
        }
    }
}

/// The messages of the source in the range, and of the topic if one is given, in the order of log time and place. The
/// source is read to its Data End; where the reading is refused, this is, for the same reason. Of the messages only
/// those that are asked for are kept.
pub fn replay_scan<S: Source>(
    alloc: Global,
    source: &mut S,
    range: Range,
    topic: Option<&Text>,
) -> Result<Replayed, ReadingRefused>
    ensures plays { Plays range (asked_topic topic.entry) (S.state source.old) (S.state source.new) result }
    ensures stays { S.stays source.old source.new }
{
    match read_kept(alloc, source, range, topic) {
        Ok((tables, kept)) => match finish(alloc, &tables, &kept) {
            Ok(played) => return Ok(played),
            Err(_) => return Err(ReadingRefused::Memory),
        },
        Err(why) => return Err(why),
    }
}

/// The lines of the messages that `replay_scan` gives, with all the memory that their printing takes. Their payloads stand
/// in one vector.
pub fn replay_lines<S: Source>(
    alloc: Global,
    source: &mut S,
    range: Range,
    topic: Option<&Text>,
) -> Result<Printer, ReadingRefused>
    ensures plays { PlaysLines range (asked_topic topic.entry) (S.state source.old) (S.state source.new) result }
    ensures stays { S.stays source.old source.new }
{
    match read_kept(alloc, source, range, topic) {
        Ok((tables, kept)) => match finish_lines(alloc, &tables, kept) {
            Ok(text) => return Ok(text),
            Err(_) => return Err(ReadingRefused::Memory),
        },
        Err(why) => return Err(why),
    }
}

/// The lines of the messages that `replay_scan` gives, with their log times, and all the memory that printing stretches of
/// them takes.
pub fn replay_timed<S: Source>(
    alloc: Global,
    source: &mut S,
    range: Range,
    topic: Option<&Text>,
) -> Result<TimedLines, ReadingRefused>
    ensures plays { PlaysTimed range (asked_topic topic.entry) (S.state source.old) (S.state source.new) result }
    ensures stays { S.stays source.old source.new }
{
    match read_kept(alloc, source, range, topic) {
        Ok((tables, kept)) => match finish_timed(alloc, &tables, kept) {
            Ok(lines) => return Ok(lines),
            Err(_) => return Err(ReadingRefused::Memory),
        },
        Err(why) => return Err(why),
    }
}
