//! A pass at an intake that gave all ids of channels.
use crate::contents::channel;
use crate::same::holds;
use buffer_swap::{LanePass, Turn};
use feed_lane::Pass;
use record_core::{CallRefused, Declared, Desk};
use std::alloc::Global;
use std::sync::Wait;
use std::test::Fail;

const NO_PAIRS: &[u8] = b"\0\0\0\0";

// What the pass answers to the channel of a topic.
fn declared<P: Pass>(
    pass: &mut P,
    alloc: Global,
    topic: &str,
) -> Result<Result<Declared, CallRefused>, Fail> {
    if topic.len() > 1000 {
        return Err(Fail::from("such a topic isn't tried"));
    }
    let d = channel(alloc, topic, NO_PAIRS, None)?;
    Ok(pass.declare(&d))
}

// Whether 65,535 contents get ids, a content that has one is answered still, and one more is told that no id is left.
fn runs_out<P: Pass>(pass: &mut P, alloc: Global) -> Result<bool, Fail> {
    for i in 1..65536u32 {
        let name = format!(in alloc; "{i}")?;
        if declared(pass, alloc, name.as_str())?.is_err() {
            return Ok(false);
        }
    }
    let known = declared(pass, alloc, "7")?;
    let more = declared(pass, alloc, "more")?;
    Ok(known.is_ok() && more == Err(CallRefused::TooManyChannels))
}

// The same of a publisher's pass. Each Channel has 30 bytes at most, so the buffer doesn't fill.
fn publisher_runs_out<R: Wait>(rt: &R, alloc: Global) -> Result<bool, Fail> {
    let desk = Desk::open(alloc, 4_194_304)?;
    let mut turn = Turn::open(alloc, desk)?;
    let (mut control, _drain) = turn.start();
    let mut pass = LanePass {
        rt,
        publisher: control.publisher(),
        lossless: false,
    };
    runs_out(&mut pass, alloc)
}

#[test]
fn a_pass_tells_too_many_channels_behind_65535(rt: HostRuntime) -> Result<(), Fail> {
    let told = publisher_runs_out(&rt, rt.alloc())?;
    holds(&rt, told);
    Ok(())
}
