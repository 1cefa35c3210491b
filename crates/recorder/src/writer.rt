//! The writer's part: it takes what was accepted, buffer by buffer, and hands it to a tape.
ghost use Rattle.std.specs.Prelude.{◌≡◌, [], length, IfSome, None, Some};
ghost use Rattle.mcap_model.specs.declared.ends.Stop.{Stop as Why};
ghost use Rattle.mcap_model.specs.declared.ends.End.{End as Last};
ghost use Rattle.mcap_model.specs.declared.ends.End.TheVariants.{Stopped};
ghost use Rattle.chunk_writer.specs.declared.phase.Phase.TheVariants as phases;
ghost use Rattle.chunk_writer.specs.Tapes.{HasTaken};
ghost use Rattle.buffer_swap.specs.Calls.{DrainIsOver};
ghost use Rattle.recorder.specs.Recorded.{answer_of};
ghost use Rattle.recorder.specs.Writing.{empty_buffer, MayWrite, StopsWith, StopsIntake, seen_tape, WritesOn};
ghost use Rattle.recorder.specs.Onto.{TapeIsWritten, IsAll};

use crate::report::WriterReport;
use buffer_swap::Drain;
use chunk_writer::Tape;
use mcap_model::{End, Stop};
use record_cache::Cache;
use record_core::Empty;
use std::sync::Wait;

/// The drain of a recording and its tape.
#[derive(Drop)]
pub(crate) struct Writer<'t, T> {
    pub drain: Drain<'t>,
    pub tape: T,
}

/// How a writer ended: the drain, the tape, and what the writer has to report.
#[derive(Drop)]
pub(crate) struct Written<'t, T> {
    pub drain: Drain<'t>,
    pub tape: T,
    pub report: WriterReport,
}

// What a step of the writer came to: the empty buffer that it has then, and how many records were taken in all, where the
// intake has ended and nothing is left.
#[derive(Drop)]
struct Step {
    spare: Cache,
    over: Option<u64>,
}

// The end that a tape's answer is.
fn end_by(answer: Result<(), Stop>) -> End
    ensures { answer_of result ≡ answer }
{
    match answer {
        Ok(()) => return End::Closed,
        Err(stop) => return End::Stopped { stop },
    }
}

// How many records the intake has, where it has ended.
fn over_at(empty: &Empty) -> Option<u64>
    ensures { IfSome result (λ at. (at ≡ empty.now.at) × (end : Last) × (empty.now.end ≡ Some end)) }
{
    match empty.end {
        Some(_) => return Some(empty.at),
        None => return None,
    }
}

// One step: takes the buffer of the intake for an empty one, hands its records to the tape, and stops the intake where the tape
// stopped. What comes behind a stop is dropped by the tape.
fn write_once<R: Wait, T: Tape>(rt: &R, drain: &mut Drain<'_>, tape: &mut T, spare: Cache) -> Step
    requires spare { spare ≡ empty_buffer drain.old.seat.me.0.pass.limit }
    requires may { MayWrite (T.phase tape.old) }
    requires has { HasTaken T.is_new T.grows tape.old drain.old.seat.me.0.post.taken }
    requires stops { StopsWith drain.old.seat.me.0.post.stop (T.phase tape.old) }
    requires halts { StopsIntake drain.old.seat.me.0.pass drain.old.seat.me.0.post (T.phase tape.old) }
    ensures turn { drain.new.seat.table_id ≡ drain.old.seat.table_id }
    ensures limit { drain.new.seat.me.0.pass.limit ≡ drain.old.seat.me.0.pass.limit }
    ensures spare { result.spare ≡ empty_buffer drain.new.seat.me.0.pass.limit }
    ensures writes { WritesOn (seen_tape T.grows T.ends T.limit_met T.phase T.numbers T.failures) tape.old tape.new
        drain.old.seat.me.0.post.taken drain.new.seat.me.0.post }
    ensures has { HasTaken T.is_new T.grows tape.new drain.new.seat.me.0.post.taken }
    // Where the tape stopped, so has the intake.
    ensures halts { StopsIntake drain.new.seat.me.0.pass drain.new.seat.me.0.post (T.phase tape.new) }
    ensures over { IfSome result.over (λ at. (at ≡ length drain.new.seat.me.0.post.taken) × (end : Last)
        × DrainIsOver drain.new.seat.me.0.pass drain.new.seat.me.0.post end) }
{
    let full = match drain.swap(rt, spare) {
        Ok(full) => full,
        Err(empty) => {
            let over = over_at(&empty);
            return Step {
                spare: empty.cache,
                over,
            };
        }
    };
    let _held = full.held();
    let taken = tape.take(full);
    match taken.end {
        Ok(()) => {
            return Step {
                spare: taken.cache,
                over: None,
            };
        }
        Err(stop) => {
            drain.stop(rt, stop);
            return Step {
                spare: taken.cache,
                over: None,
            };
        }
    }
}

// Hands all that is accepted to the tape, up to the end of the intake, and answers how many records that were. It rests until a
// lane has filled the buffer far enough, or is about to wait for its feed.
fn write_all<R: Wait, T: Tape>(rt: &R, drain: &mut Drain<'_>, tape: &mut T, spare: Cache) -> u64
    requires spare { spare ≡ empty_buffer drain.old.seat.me.0.pass.limit }
    requires may { MayWrite (T.phase tape.old) }
    requires has { HasTaken T.is_new T.grows tape.old drain.old.seat.me.0.post.taken }
    requires stops { StopsWith drain.old.seat.me.0.post.stop (T.phase tape.old) }
    requires halts { StopsIntake drain.old.seat.me.0.pass drain.old.seat.me.0.post (T.phase tape.old) }
    ensures turn { drain.new.seat.table_id ≡ drain.old.seat.table_id }
    ensures writes { WritesOn (seen_tape T.grows T.ends T.limit_met T.phase T.numbers T.failures) tape.old tape.new
        drain.old.seat.me.0.post.taken drain.new.seat.me.0.post }
    ensures has { HasTaken T.is_new T.grows tape.new drain.new.seat.me.0.post.taken }
    ensures count { result ≡ length drain.new.seat.me.0.post.taken }
    ensures over { (end : Last) × DrainIsOver drain.new.seat.me.0.pass drain.new.seat.me.0.post end }
{
    let mut spare = spare;
    'steps: for _ in rt.forever() {
        let step = write_once(rt, drain, tape, spare);
        if let Some(at) = step.over {
            return at;
        }
        spare = step.spare;
        drain.rest(rt);
    }
    unreachable!()
}

impl<'t, T: Tape + Drop> Writer<'t, T> {
    /// Writes all that is accepted, and ends the tape.
    pub(crate) fn run<R: Wait>(self, rt: &R, spare: Cache) -> Written<'t, T>
        requires spare { spare ≡ empty_buffer self.drain.seat.me.0.pass.limit }
        requires none { self.drain.seat.me.0.post.taken ≡ [] }
        requires unstopped { self.drain.seat.me.0.post.stop ≡ None }
        requires going { T.phase self.tape ≡ phases.Going }
        requires unused { T.is_new self.tape }
        ensures turn { result.drain.seat.table_id ≡ self.entry.drain.seat.table_id }
        ensures over { (end : Last) × DrainIsOver result.drain.seat.me.0.pass result.drain.seat.me.0.post end }
        ensures written { TapeIsWritten (seen_tape T.grows T.ends T.limit_met T.phase T.numbers T.failures)
            self.entry.tape result.tape result.drain.seat.me.0.post.taken result.report }
        ensures all { IsAll result.drain.seat.me.0.post.taken result.report }
        ensures stops { (stop : Why) → result.drain.seat.me.0.post.stop ≡ Some stop → result.report.end ≡ Stopped stop }
    {
        let Writer {
            mut drain,
            mut tape,
        } = self;
        let records = write_all(rt, &mut drain, &mut tape, spare);
        let finished = tape.finish();
        Written {
            drain,
            tape,
            report: WriterReport {
                records,
                blocks: finished.blocks,
                bytes: finished.bytes,
                end: end_by(finished.end),
            },
        }
    }
}
