//! A lane over an intake that lacks memory.
ghost use Rattle.std.specs.Prelude.{◌≡◌};
ghost use Rattle.feed_lane.specs.PassCalls.{no_calls};

use crate::same::holds;
use feed_lane::{FeedEnd, FeedReport, Pass, Refused, publish_feed};
use io_memory::MemorySource;
use mcap_wire::Memory;
use rec_data::ChannelDef;
use record_core::{CallRefused, Declared, NewMessage, declared_size};
use std::alloc::Global;
use std::test::Fail;

// A Header, a Channel of id 7 and two Messages on it, an unknown record between them; and a Data End.
const FEED: &[u8] = b"\x89MCAP0\r\n\
    \x01\x08\0\0\0\0\0\0\0\0\0\0\0\0\0\0\0\
    \x04\x12\0\0\0\0\0\0\0\x07\0\0\0\x02\0\0\0/a\0\0\0\0\0\0\0\0\
    \x05\x17\0\0\0\0\0\0\0\x07\0\x01\0\0\0\x0a\0\0\0\0\0\0\0\x09\0\0\0\0\0\0\0\xaa\
    \x80\x01\0\0\0\0\0\0\0\xcc\
    \x05\x17\0\0\0\0\0\0\0\x07\0\x02\0\0\0\x0b\0\0\0\0\0\0\0\x09\0\0\0\0\0\0\0\xbb\
    \x0f\x04\0\0\0\0\0\0\0\0\0\0\0";

// A Header.
const HEAD: &[u8] = b"\x89MCAP0\r\n\
    \x01\x08\0\0\0\0\0\0\0\0\0\0\0\0\0\0\0";

// A Channel of id 7 with the schema of id 1, two Messages on it, and a Data End.
const REST: &[u8] = b"\x04\x12\0\0\0\0\0\0\0\x07\0\x01\0\x02\0\0\0/a\0\0\0\0\0\0\0\0\
    \x05\x17\0\0\0\0\0\0\0\x07\0\x01\0\0\0\x0a\0\0\0\0\0\0\0\x09\0\0\0\0\0\0\0\xaa\
    \x05\x17\0\0\0\0\0\0\0\x07\0\x02\0\0\0\x0b\0\0\0\0\0\0\0\x09\0\0\0\0\0\0\0\xbb\
    \x0f\x04\0\0\0\0\0\0\0\0\0\0\0";

// A feed whose schema, of id 1, has so many bytes of data.
fn feed_with_schema(alloc: Global, data: u32) -> Result<Vec<u8>, Memory> {
    let mut bytes = Vec::from_slice(alloc, HEAD)?;
    bytes.push(3)?;
    bytes.extend_from_slice(&(14 + data as u64).to_le_bytes())?;
    bytes.extend_from_slice(b"\x01\0\0\0\0\0\0\0\0\0")?;
    bytes.extend_from_slice(&data.to_le_bytes())?;
    bytes.resize(bytes.len().saturating_add(data as usize), 0)?;
    bytes.extend_from_slice(REST)?;
    Ok(bytes)
}

/// A pass that declares nothing for want of memory, and so knows no channel. It counts the calls that declare.
#[derive(Drop)]
struct Lacking {
    asked: bool,
    declarations: u64,
}

impl Lacking {
    fn new() -> Lacking
        ensures { ⟦<Lacking as Pass>⟧.since result result (no_calls 1) }
    {
        Lacking {
            asked: false,
            declarations: 0,
        }
    }
}

impl Pass for Lacking {
    ghost use Rattle.std.specs.Prelude.{◌≡◌, [], ◌∷◌, ◌++◌, List, false};
    ghost use Rattle.std.proofs.Common.{ap};
    ghost use Rattle.record_core.specs.declared.answers.CallRefused.{CallRefused};
    ghost use Rattle.record_core.specs.declared.answers.CallRefused.TheVariants.{TooLarge};
    ghost use Rattle.feed_lane.specs.Pass.{PassState};
    ghost use Rattle.feed_lane.specs.Tapes.{found_when, tape_pass};

    ghost since = { λ begun t now. (reasons : List CallRefused)
        × (now ≡ tape_pass [] [] reasons (found_when t.asked 0 0 false)) };

    ghost knows = { λ t schema. Unit {0} };

    fn declare(&mut self, d: &ChannelDef) -> Result<Declared, CallRefused> {
        self.declarations = self.declarations.saturating_add(1);
        let len = declared_size(d);
        if len > 1_048_576 {
            return Err(CallRefused::TooLarge { len });
        }
        self.asked = true;
        Err(CallRefused::Memory)
    }

    fn declare_like(&mut self, d: &ChannelDef) -> Result<Declared, CallRefused> {
        self.declare(d)
    }

    fn publish(&mut self, m: &NewMessage<'_>) -> Result<u64, CallRefused> {
        let len = m.payload.len() as u64;
        if len > 33_554_432 {
            return Err(CallRefused::TooLarge { len });
        }
        self.asked = true;
        Err(CallRefused::UnknownChannel)
    }

    ghost refuses_size = { λ begun t before len over shows. (before.reasons ++ TooLarge len ∷ [], ap (λ (p : PassState). record p { reasons = before.reasons ++ TooLarge len ∷ [] }) shows.1) };
}

// Whether that message was refused for want of memory.
fn is_lacking(refused: &Refused, index: u64) -> bool {
    refused.index == index && matches!(refused.cause, CallRefused::Memory)
}

// Whether these are both messages, refused for want of memory.
fn are_both(refused: Option<&[Refused]>) -> bool {
    match refused {
        Some([first, second]) => is_lacking(first, 0) && is_lacking(second, 1),
        _ => false,
    }
}

// Whether the report lists both messages as refused for want of memory, and no more.
fn is_refused(report: &FeedReport) -> bool {
    report.accepted.len() == 0
        && report.declared.is_empty()
        && are_both(report.refused.as_slice())
        && report.passed == 1
        && matches!(report.end, FeedEnd::Done)
}

#[test]
fn a_channel_is_declared_again_behind_a_want_of_memory(rt: HostRuntime) -> Result<(), Fail> {
    let alloc = rt.alloc();
    let mut source = MemorySource::new(Vec::from_slice(alloc, FEED)?, Vec::new(alloc));
    let mut pass = Lacking::new();
    let report = publish_feed(alloc, &mut source, &mut pass, true);
    holds(&rt, is_refused(&report) && pass.declarations == 2);
    Ok(())
}

// Whether that message was refused since its channel's records have so many bytes.
fn is_wide(refused: &Refused, index: u64, bytes: u64) -> bool {
    match refused.cause {
        CallRefused::TooLarge { len } => refused.index == index && len == bytes,
        _ => false,
    }
}

// Whether both messages were refused for that.
fn are_wide(refused: Option<&[Refused]>, bytes: u64) -> bool {
    match refused {
        Some([first, second]) => is_wide(first, 0, bytes) && is_wide(second, 1, bytes),
        _ => false,
    }
}

// A Schema has 23 bytes before its data, and the Channel 27.
#[test]
fn a_channel_that_is_too_long_is_not_declared(rt: HostRuntime) -> Result<(), Fail> {
    let alloc = rt.alloc();
    let bytes = feed_with_schema(alloc, 1_048_527)?;
    let mut source = MemorySource::new(bytes, Vec::new(alloc));
    let mut pass = Lacking::new();
    let report = publish_feed(alloc, &mut source, &mut pass, true);
    holds(&rt, are_wide(report.refused.as_slice(), 1_048_577));
    holds(&rt, report.declared.is_empty() && pass.declarations == 0);
    Ok(())
}

#[test]
fn a_channel_at_the_limit_is_declared(rt: HostRuntime) -> Result<(), Fail> {
    let alloc = rt.alloc();
    let bytes = feed_with_schema(alloc, 1_048_526)?;
    let mut source = MemorySource::new(bytes, Vec::new(alloc));
    let mut pass = Lacking::new();
    let report = publish_feed(alloc, &mut source, &mut pass, true);
    holds(
        &rt,
        are_both(report.refused.as_slice()) && pass.declarations == 2,
    );
    Ok(())
}
