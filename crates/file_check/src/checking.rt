//! The check of a file, part by part.
ghost use Rattle.std.specs.Prelude.{◌≡◌, ◌≤◌, ◌<◌, ◌+◌, ◌-◌, ◌^◌, ℕ, List, Some, Err, length, take, drop, IfOk, IfErr};
ghost use Rattle.mcap_io.specs.StoreAnswers.{StoreStays};
ghost use Rattle.mcap_model.specs.Tops.{Top};
ghost use Rattle.index_check.specs.Section.{SectionOf};
ghost use Rattle.summary_check.specs.Files.{IsOfSummary};
ghost use Rattle.file_check.specs.Checking.{CountsSection, CheckCause, IsUnchecked};
ghost use Rattle.file_check.specs.Lacking.{SectionLacks, LacksAsBefore, TellsLackUpTo};
ghost use Rattle.file_check.specs.CheckSteps.{SectionReads, SectionCause, SectionAsks, AsksUpTo, TellsSectionRefused, RefusedCause, TellsJudged, TellsFile, told_by};

use crate::ends::tell_flaw;
use crate::flaws::FailedRule;
use crate::reading::read_section;
use index_check::Section;
use mcap_io::{OutsideRefused, Store, StoreFront, read_part};
use mcap_model::{Counts, ReadingRefused, Verdict};
use std::alloc::Global;
use summary_check::judge_summary;

/// Reads the data section of a store in front of that end; or tells where V9 fails in it.
pub(crate) fn read_front<T: Store>(
    alloc: Global,
    store: &mut T,
    end: u64,
) -> Result<Result<Section, FailedRule>, ReadingRefused>
    requires { end ≤ (T.state store.old).known }
    ensures reads { SectionReads (T.state store.old) end result }
    ensures cause { SectionCause (T.state store.old).faults (T.state store.new).faults result }
    ensures asks { SectionAsks (T.state store.old) end (T.state store.new).asked result }
    ensures lacks { SectionLacks (T.state store.old) end (T.state store.new).asked result }
    ensures keeps { StoreStays (T.state store.old) (T.state store.new) }
{
    let mut source = StoreFront::new(store, end);
    read_section(alloc, &mut source)
}

// What is told of a file whose records weren't all read, up to that end.
fn tell_refusal<T: Store>(
    store: &mut T,
    end: u64,
    why: ReadingRefused,
) -> Result<Verdict, ReadingRefused>
    requires known { end ≤ (T.state store.old).known }
    requires long { 8 ≤ end }
    ensures tells { TellsSectionRefused (T.state store.old).bytes end why result }
    ensures cause { RefusedCause (T.state store.old).faults (T.state store.new).faults why result }
    ensures lacks { LacksAsBefore why (T.state store.old).asked (T.state store.new).asked result }
    ensures asks { (T.state store.new).asked ≤ (T.state store.old).asked + 9 }
    ensures keeps { StoreStays (T.state store.old) (T.state store.new) }
{
    match why {
        ReadingRefused::Fault { faults: _ } => {
            return Err(ReadingRefused::Fault {
                faults: store.faults(),
            });
        }
        ReadingRefused::Grammar { offset, rule } => match tell_flaw(store, end, offset, rule) {
            Ok(failed) => {
                return Ok(Verdict::Flawed {
                    rule: failed.rule,
                    offset: failed.offset,
                });
            }
            Err(why) => return Err(why),
        },
        ReadingRefused::Compressed { offset, name } => {
            return Err(ReadingRefused::Compressed { offset, name });
        }
        ReadingRefused::Limit { offset } => return Err(ReadingRefused::Limit { offset }),
        ReadingRefused::Memory => return Err(ReadingRefused::Memory),
    }
}

// The numbers of a data section.
fn counts_of(section: &Section) -> Counts
    ensures { (tops : List Top) → SectionOf tops section.now → CountsSection tops result }
{
    Counts {
        messages: section.tally.messages,
        channels: section.tally.channels.in_section,
        schemas: section.tally.schemas.in_section,
        chunks: section.tally.chunks,
        attachments: section.tally.attachments,
        metadata: section.tally.metadata,
    }
}

// The bytes of a store from there on, up to that end.
fn read_rest<T: Store>(
    alloc: Global,
    store: &mut T,
    at: u64,
    end: u64,
) -> Result<Vec<u8>, ReadingRefused>
    requires { end ≤ (T.state store.old).known }
    ensures size { IfOk result (λ part. at + length part.items ≡ end) }
    ensures gives { IfOk result (λ part. (file : List ℕ) → (T.state store.old).bytes ≡ Some file
        → part.items ≡ take (end - at) (drop at file)) }
    ensures unchecked { IfErr result (λ why. (file : List ℕ) → IsUnchecked file why) }
    ensures cause { CheckCause (T.state store.old).faults (T.state store.new).faults result }
    ensures asks { (T.state store.new).asked ≤ (T.state store.old).asked + (end - at) }
    ensures keeps { StoreStays (T.state store.old) (T.state store.new) }
{
    if at > end {
        return Err(ReadingRefused::Memory);
    }
    match read_part(alloc, store, at, end - at) {
        Ok(part) => return Ok(part),
        Err(OutsideRefused::Failed) => {
            return Err(ReadingRefused::Fault {
                faults: store.faults(),
            });
        }
        Err(OutsideRefused::Memory) => return Err(ReadingRefused::Memory),
    }
}

// What a file with these numbers comes to.
fn tell(judged: Result<bool, ReadingRefused>, counts: Counts) -> Result<Verdict, ReadingRefused>
    requires { IfErr judged IsOfSummary }
    ensures told { result ≡ told_by judged counts }
    ensures cause { (faults : ℕ) → CheckCause faults faults result }
{
    match judged {
        Ok(true) => return Ok(Verdict::Indexed { counts }),
        Ok(false) => return Ok(Verdict::Plain { counts }),
        Err(ReadingRefused::Grammar { offset, rule }) => {
            return Ok(Verdict::Flawed { rule, offset });
        }
        Err(ReadingRefused::Limit { offset }) => return Err(ReadingRefused::Limit { offset }),
        Err(ReadingRefused::Memory) => return Err(ReadingRefused::Memory),
        Err(ReadingRefused::Fault { faults: _ }) => unreachable!(),
        Err(ReadingRefused::Compressed { offset: _, name: _ }) => unreachable!(),
    }
}

// Judges what stands behind a data section, up to that end.
fn judge_behind<T: Store>(
    alloc: Global,
    store: &mut T,
    end: u64,
    section: Section,
) -> Result<Verdict, ReadingRefused>
    requires known { end ≤ (T.state store.old).known }
    requires fits { end + 8 < 2 ^ 64 }
    ensures tells { TellsJudged (T.state store.old).bytes end section result }
    ensures cause { CheckCause (T.state store.old).faults (T.state store.new).faults result }
    ensures asks { (T.state store.new).asked ≤ (T.state store.old).asked + (end - section.behind) }
    ensures keeps { StoreStays (T.state store.old) (T.state store.new) }
{
    let counts = counts_of(&section);
    match read_rest(alloc, store, section.behind, end) {
        Ok(rest) => return tell(judge_summary(alloc, section, &rest), counts),
        Err(why) => return Err(why),
    }
}

/// Checks the records of a store, whose last magic begins at that end.
pub(crate) fn check_records<T: Store>(
    alloc: Global,
    store: &mut T,
    end: u64,
) -> Result<Verdict, ReadingRefused>
    requires known { end ≤ (T.state store.old).known }
    requires long { 8 ≤ end }
    requires fits { end + 8 < 2 ^ 64 }
    ensures tells { TellsFile (T.state store.old).bytes end result }
    ensures lacks { TellsLackUpTo end (T.state store.old) (T.state store.new).asked result }
    ensures cause { CheckCause (T.state store.old).faults (T.state store.new).faults result }
    ensures asks { AsksUpTo (T.state store.old) end (T.state store.new) }
    ensures keeps { StoreStays (T.state store.old) (T.state store.new) }
{
    match read_front(alloc, store, end) {
        Ok(Ok(section)) => return judge_behind(alloc, store, end, section),
        Ok(Err(failed)) => {
            return Ok(Verdict::Flawed {
                rule: failed.rule,
                offset: failed.offset,
            });
        }
        Err(why) => return tell_refusal(store, end, why),
    }
}
