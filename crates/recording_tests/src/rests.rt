//! A drain that rests, and what wakes it.
ghost use Rattle.std.specs.Prelude.{◌≡◌};

use crate::same::holds;
use crate::turns::{four, is_set, message, plain};
use buffer_swap::{Control, Drain, Publisher, Turn};
use mcap_model::Stop;
use mcap_wire::Memory;
use record_cache::Cache;
use record_core::Desk;
use std::alloc::Global;
use std::sync::Wait;
use std::sync::atomic::AtomicBool;
use std::sync::atomic::Ordering::SeqCst;
use std::test::Fail;
use std::thread;
use std::thread::{Threads, join_mut};
use std::time::{Clock, Duration, Instant};

// From how many bytes on the buffer is full, and ripe: four messages.
const LIMIT: u64 = 100;

// Room for more than makes a publisher wait for a swap.
const ROOMY: u64 = 8_388_608;

// What may wake a drain that rests.
#[derive(Clone, Copy)]
enum Cause {
    Rouse,
    Ripe,
    Close,
}

// Takes what is there.
fn swap_once<R: Wait>(rt: &R, alloc: Global, drain: &mut Drain<'_>) -> Result<(), Memory>
    requires { drain.old.seat.me.0.pass.limit ≡ 100 }
{
    let spare = Cache::new(alloc, LIMIT)?;
    let _taken = drain.swap(rt, spare);
    Ok(())
}

// Rests, and tells that the rest is over.
fn rest_and_tell<R: Wait>(rt: &R, drain: &mut Drain<'_>, returned: &AtomicBool) {
    drain.rest(rt);
    returned.store(true, SeqCst);
}

fn publish_many<R: Wait>(rt: &R, publisher: &mut Publisher<'_>, channel: u16, many: u32) {
    let payload = [7];
    for sequence in 0..many {
        let _place = publisher.publish(rt, &message(channel, sequence, &payload));
    }
}

// Whether the drain slept beside one message, and was woken so. The close behind that frees one that wasn't woken.
fn wake_by<R: Wait + Clock>(
    rt: &R,
    control: &mut Control<'_>,
    publisher: &mut Publisher<'_>,
    channel: u16,
    by: Cause,
    returned: &AtomicBool,
) -> bool {
    publish_many(rt, publisher, channel, 1);
    thread::sleep(rt, Duration::from_millis(100));
    let slept = !returned.load(SeqCst);
    match by {
        Cause::Rouse => publisher.rouser().rouse(),
        Cause::Ripe => publish_many(rt, publisher, channel, 3),
        Cause::Close => {
            control.close(rt);
        }
    }
    let woken = is_set(rt, returned);
    control.close(rt);
    slept && woken
}

fn wakes<R: Threads + Wait + Clock + Sync>(
    rt: &R,
    alloc: Global,
    by: Cause,
) -> Result<bool, Memory> {
    let channel = plain(alloc, "/a")?;
    let desk = Desk::open(alloc, LIMIT)?;
    let mut turn = Turn::open(alloc, desk)?;
    let (mut control, mut drain) = turn.start();
    let mut publisher = control.publisher();
    let Ok(given) = publisher.declare(rt, &channel) else {
        return Ok(false);
    };
    swap_once(rt, alloc, &mut drain)?;
    publisher.rouser().rouse();
    let returned = AtomicBool::new(false);
    let (_, woken) = join_mut(
        rt,
        &mut || rest_and_tell(rt, &mut drain, &returned),
        &mut || {
            wake_by(
                rt,
                &mut control,
                &mut publisher,
                given.channel,
                by,
                &returned,
            )
        },
    );
    Ok(woken)
}

// What came before a rest: a message that was told, a buffer that was ripe, a stop. None is slept through, and behind the stop
// the drain never rests.
fn rests_behind<R: Wait>(rt: &R, alloc: Global) -> Result<(), Memory> {
    let channel = plain(alloc, "/a")?;
    let desk = Desk::open(alloc, LIMIT)?;
    let mut turn = Turn::open(alloc, desk)?;
    let (mut control, mut drain) = turn.start();
    let mut publisher = control.publisher();
    let Ok(given) = publisher.declare(rt, &channel) else {
        return Err(Memory);
    };
    publisher.rouser().rouse();
    drain.rest(rt);
    swap_once(rt, alloc, &mut drain)?;
    publish_many(rt, &mut publisher, given.channel, 4);
    drain.rest(rt);
    drain.stop(rt, Stop::Memory);
    drain.rest(rt);
    drain.rest(rt);
    Ok(())
}

// Whether 64 messages, four megabytes together, are published without loss beside a drain that never comes.
fn is_taken_beside_no_drain<R: Wait>(rt: &R, alloc: Global) -> Result<bool, Memory> {
    let channel = plain(alloc, "/a")?;
    let desk = Desk::open(alloc, ROOMY)?;
    let mut turn = Turn::open(alloc, desk)?;
    let (mut control, _drain) = turn.start();
    let mut publisher = control.publisher();
    let Ok(given) = publisher.declare(rt, &channel) else {
        return Ok(false);
    };
    let payload = [7; 65_536];
    for sequence in 0..64 {
        let m = message(given.channel, sequence, &payload);
        if publisher.publish_lossless(rt, &m) != Ok(1 + sequence as u64) {
            return Ok(false);
        }
    }
    Ok(true)
}

#[test]
fn a_lossless_publisher_waits_for_a_drain_and_goes_on_where_none_comes(
    rt: HostRuntime,
) -> Result<(), Fail> {
    let begun = Instant::now(&rt)?;
    let taken = is_taken_beside_no_drain(&rt, rt.alloc())?;
    let waited = begun.elapsed(&rt)?;
    holds(&rt, taken && waited >= Duration::from_millis(5));
    Ok(())
}

#[test]
fn a_call_of_a_rouser_wakes_the_drain(rt: HostRuntime) -> Result<(), Fail> {
    let woken = wakes(&rt, rt.alloc(), Cause::Rouse)?;
    holds(&rt, woken);
    Ok(())
}

#[test]
fn a_ripe_buffer_wakes_the_drain(rt: HostRuntime) -> Result<(), Fail> {
    let woken = wakes(&rt, rt.alloc(), Cause::Ripe)?;
    holds(&rt, woken);
    Ok(())
}

#[test]
fn a_close_wakes_the_drain(rt: HostRuntime) -> Result<(), Fail> {
    let woken = wakes(&rt, rt.alloc(), Cause::Close)?;
    holds(&rt, woken);
    Ok(())
}

#[test]
fn what_came_before_a_rest_is_not_slept_through(rt: HostRuntime) -> Result<(), Fail> {
    rests_behind(&rt, rt.alloc())?;
    Ok(())
}

#[test]
fn lossless_publishers_beside_a_drain_that_rests(rt: HostRuntime) -> Result<(), Fail> {
    let there = four(&rt, rt.alloc(), LIMIT, 5000)?;
    holds(&rt, there);
    Ok(())
}

#[test]
fn many_recordings_end(rt: HostRuntime) -> Result<(), Fail> {
    for _ in 0..200 {
        let there = four(&rt, rt.alloc(), LIMIT, 25)?;
        holds(&rt, there);
    }
    Ok(())
}
