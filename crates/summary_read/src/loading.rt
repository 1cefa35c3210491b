//! Loading: the ends of a file are read and judged, then its summary.
ghost use Rattle.std.specs.Prelude.{◌≡◌, ◌+◌, ◌^◌, ◌<◌, ◌≤◌, length, IfOk, OnOk};
ghost use Rattle.mcap_io.specs.OutsideCalls.{HasCause};
ghost use Rattle.mcap_io.specs.StoreAnswers.{LeavesStore};
ghost use Rattle.rec_data.specs.Records.{header_opcode};
ghost use Rattle.mcap_model.specs.Fields.{IsHeader};
ghost use Rattle.mcap_model.specs.Made.{top};
ghost use Rattle.summary_read.specs.Loading.{Loads, LoadCause, PlainCause};
ghost use Rattle.summary_read.specs.PartSteps.{ListsParts};
ghost use Rattle.summary_read.specs.Steps.{AreCut, FooterNamesPlace, TellsEnd, TellsFooter, TellsFront, TellsHeader, TellsMagic, TellsRefused, HeaderAsks, TellsPart, AsksAtMost, StepCause, AsksLittle};

use crate::ends::{END_LENGTH, FRONT_LENGTH, begins_with_magic, is_header, judge_end, judge_front};
use crate::lists::of_kind;
use crate::loaded::Loaded;
use crate::walk::cut_records;
use mcap_io::{Failed, OutsideRefused, Store, read_part};
use mcap_model::{IndexedRefused, ReadingRefused, Rule};
use mcap_wire::{Cut, MAGIC, Memory};
use rec_data::{CHANNEL, Footer, SCHEMA};
use rec_index::{ATTACHMENT_INDEX, CHUNK_INDEX, METADATA_INDEX, STATISTICS, SUMMARY_OFFSET};
use std::alloc::Global;

// The Footer of a store of that length, judged by the last 37 bytes.
fn read_end<T: Store>(store: &mut T, len: u64) -> Result<Footer, IndexedRefused>
    requires { len ≤ (T.state store.old).known }
    ensures judged { TellsEnd (T.state store.old).bytes len result }
    ensures inside { IfOk result (FooterNamesPlace len) }
    ensures cause { LoadCause (T.state store.old).faults (T.state store.new).faults result }
    ensures takes { AsksAtMost (T.state store.old) (T.state store.new) 37 }
{
    if len < END_LENGTH {
        return Err(IndexedRefused::Refused {
            why: ReadingRefused::Grammar {
                offset: 0,
                rule: Rule::V17,
            },
        });
    }
    let mut end = [0; 37];
    match store.read_at(len - END_LENGTH, &mut end) {
        Ok(()) => return judge_end(&end, len),
        Err(Failed) => {
            return Err(IndexedRefused::Refused {
                why: ReadingRefused::Fault {
                    faults: store.faults(),
                },
            });
        }
    }
}

// Whether a store of that length begins with the magic.
fn read_magic<T: Store>(store: &mut T, len: u64) -> Result<bool, Failed>
    requires { len ≤ (T.state store.old).known }
    ensures told { TellsMagic (T.state store.old).bytes len result }
    ensures cause { HasCause (T.state store.old).faults (T.state store.new).faults result }
    ensures takes { AsksAtMost (T.state store.old) (T.state store.new) 8 }
{
    if len < MAGIC.len() as u64 {
        return Ok(false);
    }
    let mut front = [0; 8];
    match store.read_at(0, &mut front) {
        Ok(()) => return Ok(begins_with_magic(&front)),
        Err(Failed) => return Err(Failed),
    }
}

// Refuses a store of that length at whose end a rule fails, if it begins with the magic: else it is refused for that.
fn refuse_end<T: Store>(store: &mut T, len: u64, offset: u64, rule: Rule) -> ReadingRefused
    requires { len ≤ (T.state store.old).known }
    ensures judged { TellsRefused (T.state store.old).bytes len offset rule result }
    ensures cause { PlainCause (T.state store.old).faults (T.state store.new).faults result }
    ensures takes { AsksAtMost (T.state store.old) (T.state store.new) 8 }
{
    match read_magic(store, len) {
        Ok(true) => return ReadingRefused::Grammar { offset, rule },
        Ok(false) => return ReadingRefused::Grammar {
            offset: 0,
            rule: Rule::V1,
        },
        Err(Failed) => {
            return ReadingRefused::Fault {
                faults: store.faults(),
            };
        }
    }
}

// The Footer of a store of that length. What is wrong with its end is told only of a file that begins with the magic.
fn find_footer<T: Store>(store: &mut T, len: u64) -> Result<Footer, IndexedRefused>
    requires { len ≤ (T.state store.old).known }
    ensures judged { TellsFooter (T.state store.old).bytes len result }
    ensures inside { IfOk result (FooterNamesPlace len) }
    ensures cause { LoadCause (T.state store.old).faults (T.state store.new).faults result }
    ensures takes { AsksAtMost (T.state store.old) (T.state store.new) 45 }
    ensures asks { OnOk result ((T.state store.new).asked ≤ (T.state store.old).asked + 37) }
{
    match read_end(store, len) {
        Ok(footer) => return Ok(footer),
        Err(
            IndexedRefused::Refused {
                why: ReadingRefused::Grammar { offset, rule },
            },
        ) => {
            return Err(IndexedRefused::Refused {
                why: refuse_end(store, len, offset, rule),
            });
        }
        Err(why) => return Err(why),
    }
}

// The length of the content of the Header of a store of that length.
fn read_front<T: Store>(store: &mut T, len: u64) -> Result<u64, ReadingRefused>
    requires known { len ≤ (T.state store.old).known }
    requires whole { 37 ≤ len }
    ensures judged { TellsFront (T.state store.old).bytes len result }
    ensures inside { IfOk result (λ n. 25 + n ≤ len) }
    ensures cause { StepCause (T.state store.old).faults (T.state store.new).faults result }
    ensures takes { AsksAtMost (T.state store.old) (T.state store.new) 17 }
{
    let mut front = [0; 17];
    match store.read_at(0, &mut front) {
        Ok(()) => return judge_front(&front, len),
        Err(Failed) => {
            return Err(ReadingRefused::Fault {
                faults: store.faults(),
            });
        }
    }
}

// So many bytes of the store.
fn take_part<T: Store>(
    alloc: Global,
    store: &mut T,
    at: u64,
    len: u64,
) -> Result<Vec<u8>, ReadingRefused>
    requires { at + len ≤ (T.state store.old).known }
    ensures given { TellsPart (T.state store.old).bytes at len result }
    ensures cause { StepCause (T.state store.old).faults (T.state store.new).faults result }
    ensures takes { AsksAtMost (T.state store.old) (T.state store.new) len }
{
    match read_part(alloc, store, at, len) {
        Ok(part) => return Ok(part),
        Err(OutsideRefused::Failed) => {
            return Err(ReadingRefused::Fault {
                faults: store.faults(),
            });
        }
        Err(OutsideRefused::Memory) => return Err(ReadingRefused::Memory),
    }
}

// The content of the Header of a store of that length.
fn read_header<T: Store>(alloc: Global, store: &mut T, len: u64) -> Result<Vec<u8>, ReadingRefused>
    requires known { len ≤ (T.state store.old).known }
    requires whole { 37 ≤ len }
    ensures judged { TellsHeader (T.state store.old).bytes len result }
    ensures is { IfOk result (λ content. IsHeader (top header_opcode content.items)) }
    ensures cause { StepCause (T.state store.old).faults (T.state store.new).faults result }
    ensures takes { AsksAtMost (T.state store.old) (T.state store.new) len }
    ensures asks { HeaderAsks (T.state store.old) (T.state store.new) len }
{
    let declared = match read_front(store, len) {
        Ok(declared) => declared,
        Err(why) => return Err(why),
    };
    let content = match take_part(alloc, store, FRONT_LENGTH, declared) {
        Ok(content) => content,
        Err(why) => return Err(why),
    };
    if is_header(&content) {
        return Ok(content);
    }
    return Err(ReadingRefused::Grammar {
        offset: 8,
        rule: Rule::V3,
    });
}

// Lists the records that were cut from the summary.
fn list_records(
    alloc: Global,
    header: Vec<u8>,
    footer: Footer,
    summary: Vec<u8>,
    cuts: &[Cut],
) -> Result<Loaded, Memory>
    requires is { IsHeader (top header_opcode header.items) }
    requires cut { AreCut summary.items cuts.now }
    requires fits { footer.summary_start + length summary.items < 2 ^ 64 }
    ensures { IfOk result (ListsParts header.items footer summary.items cuts.now) }
{
    let Ok(statistics) = of_kind(alloc, cuts, STATISTICS) else {
        return Err(Memory);
    };
    let Ok(schemas) = of_kind(alloc, cuts, SCHEMA) else {
        return Err(Memory);
    };
    let Ok(channels) = of_kind(alloc, cuts, CHANNEL) else {
        return Err(Memory);
    };
    let Ok(chunk_indexes) = of_kind(alloc, cuts, CHUNK_INDEX) else {
        return Err(Memory);
    };
    let Ok(attachment_indexes) = of_kind(alloc, cuts, ATTACHMENT_INDEX) else {
        return Err(Memory);
    };
    let Ok(metadata_indexes) = of_kind(alloc, cuts, METADATA_INDEX) else {
        return Err(Memory);
    };
    let Ok(summary_offsets) = of_kind(alloc, cuts, SUMMARY_OFFSET) else {
        return Err(Memory);
    };
    return Ok(Loaded {
        header,
        footer,
        summary,
        statistics,
        schemas,
        channels,
        chunk_indexes,
        attachment_indexes,
        metadata_indexes,
        summary_offsets,
    });
}

/// Loads the summary of the file that the store holds. It asks for the last 37 bytes, for the magic and the Header, and for
/// the summary. Of a file that doesn't begin with the magic that is told before any other rule. A limit is passed by a file of more
/// than 2^40 bytes, by a summary that is too long, and by a content that is longer than a record's may be.
pub fn load<T: Store>(alloc: Global, store: &mut T) -> Result<Loaded, IndexedRefused>
    ensures loads { Loads (T.state store.old).bytes result }
    ensures cause { LoadCause (T.state store.old).faults (T.state store.new).faults result }
    ensures asks { AsksLittle (T.state store.old) (T.state store.new) }
    ensures leaves { LeavesStore (T.state store.old) (T.state store.new) }
{
    let len = match store.len() {
        Ok(len) => len,
        Err(Failed) => {
            return Err(IndexedRefused::Refused {
                why: ReadingRefused::Fault {
                    faults: store.faults(),
                },
            });
        }
    };
    let footer = match find_footer(store, len) {
        Ok(footer) => footer,
        Err(why) => return Err(why),
    };
    let header = match read_header(alloc, store, len) {
        Ok(header) => header,
        Err(why) => return Err(IndexedRefused::Refused { why }),
    };
    let start = footer.summary_start;
    let summary = match take_part(alloc, store, start, len - END_LENGTH - start) {
        Ok(summary) => summary,
        Err(why) => return Err(IndexedRefused::Refused { why }),
    };
    let cuts = match cut_records(alloc, &summary, start) {
        Ok(cuts) => cuts,
        Err(why) => return Err(IndexedRefused::Refused { why }),
    };
    match list_records(alloc, header, footer, summary, &cuts) {
        Ok(loaded) => return Ok(loaded),
        Err(Memory) => {
            return Err(IndexedRefused::Refused {
                why: ReadingRefused::Memory,
            });
        }
    }
}
