//! Publishers, a drain and a control at one turn, on one thread and on many.
ghost use Rattle.std.specs.Prelude.{◌≡◌, ◌+◌, ◌≤◌, ◌<◌, ◌^◌, [], length, IfOk};
ghost use Rattle.history_ids.specs.DeclarationFits.{DefFits};

use crate::same::holds;
use buffer_swap::{Control, Drain, Publisher, Turn, meet};
use mcap_model::{End, Stop};
use mcap_wire::{Memory, Pairs, Text, take_pairs};
use rec_data::ChannelDef;
use record_cache::Cache;
use record_core::{CallRefused, Desk, NewMessage};
use std::alloc::Global;
use std::sync::Wait;
use std::sync::atomic::AtomicBool;
use std::sync::atomic::Ordering::SeqCst;
use std::test::Fail;
use std::thread;
use std::thread::{Threads, join_mut};
use std::time::{Clock, Duration};

const NO_PAIRS: &[u8] = b"\0\0\0\0";

// A message of one byte, of 32 bytes.
pub(crate) fn message<'a>(channel: u16, sequence: u32, payload: &'a [u8]) -> NewMessage<'a>
    ensures { result.payload.now ≡ payload.now }
{
    NewMessage {
        channel,
        sequence,
        log_time: 10,
        publish_time: 9,
        payload,
    }
}

// The channel of a topic.
pub(crate) fn plain(alloc: Global, topic: &str) -> Result<ChannelDef, Memory>
    requires { length topic.now < 2 ^ 32 }
    ensures { IfOk result DefFits }
{
    let Ok((pairs, _end)) = take_pairs(NO_PAIRS, 0) else {
        return Err(Memory);
    };
    let topic = Text::copied(alloc, topic)?;
    let message_encoding = Text::copied(alloc, "")?;
    let metadata = Pairs::sorted(alloc, &pairs)?;
    Ok(ChannelDef {
        topic,
        message_encoding,
        metadata,
        schema: None,
    })
}

// What became of each message of a publisher: the places of those that were accepted, by their number, and how often the
// turn was another's or the buffer full.
#[derive(Drop)]
struct Lane<'t> {
    publisher: Publisher<'t>,
    mark: u8,
    many: u32,
    places: Vec<u64>,
    met: u64,
    refused: u64,
}

impl Lane<'_> {
    // Publishes a message, first without waiting.
    fn put<R: Wait>(&mut self, rt: &R, channel: u16, sequence: u32)
        ensures { self.new.publisher.seat.table_id ≡ self.old.publisher.seat.table_id }
    {
        let payload = [self.mark];
        let m = message(channel, sequence, &payload);
        let answer = match self.publisher.try_publish(&m) {
            Some(Ok(place)) => Ok(place),
            _ => {
                self.met = self.met.wrapping_add(1);
                self.publisher.publish_lossless(rt, &m)
            }
        };
        match answer {
            Ok(place) => match self.places.push(place) {
                Ok(()) => {}
                Err(_) => self.refused = self.refused.wrapping_add(1),
            },
            Err(_) => self.refused = self.refused.wrapping_add(1),
        }
    }

    // Declares `/a` and publishes all messages.
    fn run<R: Wait>(&mut self, rt: &R, alloc: Global)
        ensures { self.new.publisher.seat.table_id ≡ self.old.publisher.seat.table_id }
    {
        let Ok(declared) = plain(alloc, "/a") else {
            return;
        };
        match self.publisher.declare_lossless(rt, &declared) {
            Ok(given) => {
                'messages: for sequence in 0..self.many {
                    self.put(rt, given.channel, sequence);
                }
            }
            Err(_) => self.refused = self.refused.wrapping_add(1),
        }
    }
}

// Takes all bytes up to the end, which is answered. Behind each swap it rests.
fn drain_all<R: Wait>(
    rt: &R,
    alloc: Global,
    drain: &mut Drain<'_>,
    limit: u64,
    bytes: &mut Vec<u8>,
) -> Option<End>
    requires small { limit ≤ 1000 }
    requires limit { limit ≡ drain.old.seat.me.0.pass.limit }
    ensures { drain.new.seat.table_id ≡ drain.old.seat.table_id }
{
    let Ok(mut spare) = Cache::new(alloc, limit) else {
        return None;
    };
    'swaps: for _ in rt.forever() {
        match drain.swap(rt, spare) {
            Ok(full) => {
                let mut full = full;
                if bytes.extend_from_slice(full.framed()).is_err() {
                    return None;
                }
                full.clear();
                spare = full;
            }
            Err(empty) => {
                if empty.end.is_some() {
                    return empty.end;
                }
                spare = empty.cache;
            }
        }
        drain.rest(rt);
    }
    unreachable!()
}

// Runs the lanes side by side, and closes.
fn run_lanes<R: Threads + Wait + Sync>(
    rt: &R,
    alloc: Global,
    control: &mut Control<'_>,
    lanes: &mut [Lane<'_>],
) {
    thread::for_each_mut(rt, lanes, 64, &|_, lane| lane.run(rt, alloc));
    control.close(rt);
}

// A publisher with a mark, for so many messages.
fn hire<'t>(alloc: Global, control: &mut Control<'t>, mark: u8, many: u32) -> Lane<'t>
    requires { control.old.seat.me.0.post.made < 64 }
    ensures turn { (control.new.seat.table_id ≡ control.old.seat.table_id)
        × (result.publisher.seat.table_id ≡ control.old.seat.table_id) }
    ensures made { control.new.seat.me.0.post.made ≡ control.old.seat.me.0.post.made + 1 }
    ensures known { control.new.seat.me.0.post.known ≡ control.old.seat.me.0.post.known }
{
    Lane {
        publisher: control.publisher(),
        mark,
        many,
        places: Vec::new(alloc),
        met: 0,
        refused: 0,
    }
}

// Whether that message stands at its place, behind one Channel of 27 bytes.
fn is_there(bytes: &[u8], place: u64, sequence: u32, mark: u8) -> bool {
    if place == 0 || place > 1_000_000 {
        return false;
    }
    let at = 27 + 32 * (place as usize - 1);
    let [a, b, c, d] = sequence.to_le_bytes();
    let wanted = [
        5, 23, 0, 0, 0, 0, 0, 0, 0, 1, 0, a, b, c, d, 10, 0, 0, 0, 0, 0, 0, 0, 9, 0, 0, 0, 0, 0, 0,
        0, mark,
    ];
    bytes.get(at..at + 32) == Some(wanted.as_slice())
}

// Whether all messages of a lane were accepted, at places that rise, and stand there.
fn all_there(bytes: &[u8], lane: &Lane<'_>) -> bool {
    if lane.refused != 0 || lane.places.len() != lane.many as usize {
        return false;
    }
    let mut sequence = 0u32;
    let mut last = 0;
    for place in lane.places.iter() {
        if *place <= last || !is_there(bytes, *place, sequence, lane.mark) {
            return false;
        }
        last = *place;
        sequence = sequence.wrapping_add(1);
    }
    true
}

// Four publishers beside a drain, over a buffer of so many bytes: whether each message stands once, each publisher's in
// order, behind the one channel.
pub(crate) fn four<R: Threads + Wait + Sync>(
    rt: &R,
    alloc: Global,
    limit: u64,
    many: u32,
) -> Result<bool, Memory>
    requires some { 1 ≤ limit }
    requires small { limit ≤ 1000 }
{
    let desk = Desk::open(alloc, limit)?;
    let mut turn = Turn::open(alloc, desk)?;
    let (mut control, mut drain) = turn.start();
    let mut lanes = [
        hire(alloc, &mut control, 1, many),
        hire(alloc, &mut control, 2, many),
        hire(alloc, &mut control, 3, many),
        hire(alloc, &mut control, 4, many),
    ];
    let mut bytes = Vec::new(alloc);
    let mut end = None;
    join_mut(
        rt,
        &mut || run_lanes(rt, alloc, &mut control, lanes.as_mut_slice()),
        &mut || end = drain_all(rt, alloc, &mut drain, limit, &mut bytes),
    );
    let mut there = end == Some(End::Closed) && bytes.len() == 27 + 4 * 32 * many as usize;
    for lane in lanes.iter() {
        there = there && all_there(bytes.as_slice(), lane);
    }
    Ok(there)
}

// Gathers a publisher behind its last message, and tells whether all its messages were accepted and stand at their places.
fn gather(control: &mut Control<'_>, lane: Lane<'_>, bytes: &[u8]) -> bool
    requires { lane.publisher.seat.table_id ≡ control.old.seat.table_id }
    ensures turn { control.new.seat.table_id ≡ control.old.seat.table_id }
    ensures made { control.new.seat.me.0.post.made ≡ control.old.seat.me.0.post.made }
    ensures known { length control.new.seat.me.0.post.known ≡ length control.old.seat.me.0.post.known + 1 }
{
    let there = all_there(bytes, &lane);
    let Lane {
        publisher,
        mark: _,
        many: _,
        places: _,
        met: _,
        refused: _,
    } = lane;
    control.gather(publisher.end());
    there
}

// Two publishers on threads of their own. Behind them the intake is closed, all is taken, both are gathered, and the control
// meets the drain: whether each message stands once, behind the one channel.
fn two_that_meet<R: Threads + Wait + Sync>(
    rt: &R,
    alloc: Global,
    many: u32,
) -> Result<bool, Memory> {
    let desk = Desk::open(alloc, 1000)?;
    let mut turn = Turn::open(alloc, desk)?;
    let (mut control, mut drain) = turn.start();
    let mut one = hire(alloc, &mut control, 1, many);
    let mut other = hire(alloc, &mut control, 2, many);
    join_mut(rt, &mut || one.run(rt, alloc), &mut || other.run(rt, alloc));
    let mut bytes = Vec::new(alloc);
    control.close(rt);
    let end = drain_all(rt, alloc, &mut drain, 1000, &mut bytes);
    let first = gather(&mut control, one, bytes.as_slice());
    let second = gather(&mut control, other, bytes.as_slice());
    meet(&mut control, &mut drain);
    Ok(end == Some(End::Closed) && first && second)
}

// What may wake a publisher that waits for room.
#[derive(Clone, Copy)]
enum Waker {
    Swap,
    Stop,
    Close,
}

// How often a test looks whether a publisher was woken, once in ten milliseconds.
const LOOKS: u32 = 300;

// Waits for a flag, and gives up after three seconds: a wake that is missed fails a test, and doesn't hang it.
pub(crate) fn is_set<R: Clock>(rt: &R, flag: &AtomicBool) -> bool {
    for _ in 0..LOOKS {
        if flag.load(SeqCst) {
            return true;
        }
        thread::sleep(rt, Duration::from_millis(10));
    }
    false
}

// Waits for room for a message, and tells that the call has returned.
fn publish_and_tell<R: Wait>(
    rt: &R,
    publisher: &mut Publisher<'_>,
    channel: u16,
    returned: &AtomicBool,
) -> Result<u64, CallRefused> {
    let payload = [7];
    let m = message(channel, 1, &payload);
    let answer = publisher.publish_lossless(rt, &m);
    returned.store(true, SeqCst);
    answer
}

// Wakes by one call alone whoever waits for room, and tells whether the publisher returned. The calls behind that free a
// publisher that wasn't woken, so that the test ends.
fn wake<R: Wait + Clock>(
    rt: &R,
    alloc: Global,
    control: &mut Control<'_>,
    drain: &mut Drain<'_>,
    by: Waker,
    returned: &AtomicBool,
) -> bool
    requires { drain.old.seat.me.0.pass.limit ≡ 1 }
{
    thread::sleep(rt, Duration::from_millis(100));
    match by {
        Waker::Swap => match Cache::new(alloc, 1) {
            Ok(spare) => {
                let _full = drain.swap(rt, spare);
            }
            Err(_) => {}
        },
        Waker::Stop => {
            drain.stop(rt, Stop::Memory);
        }
        Waker::Close => {
            control.close(rt);
        }
    }
    let woken = is_set(rt, returned);
    drain.stop(rt, Stop::Memory);
    control.close(rt);
    woken
}

// What a publisher answers that waited for room behind the record of its channel, and was woken so, or None where it wasn't.
fn woken_by<R: Threads + Wait + Clock + Sync>(
    rt: &R,
    alloc: Global,
    by: Waker,
) -> Result<Option<Result<u64, CallRefused>>, Memory> {
    let channel = plain(alloc, "/a")?;
    let desk = Desk::open(alloc, 1)?;
    let mut turn = Turn::open(alloc, desk)?;
    let (mut control, mut drain) = turn.start();
    let mut publisher = control.publisher();
    let Ok(given) = publisher.declare(rt, &channel) else {
        return Ok(None);
    };
    let returned = AtomicBool::new(false);
    let (answer, woken) = join_mut(
        rt,
        &mut || publish_and_tell(rt, &mut publisher, given.channel, &returned),
        &mut || wake(rt, alloc, &mut control, &mut drain, by, &returned),
    );
    if !woken {
        return Ok(None);
    }
    Ok(Some(answer))
}

// One publisher on one thread: what its calls answer, how many bytes a swap gives, and how the intake ends.
fn alone<R: Wait>(rt: &R, alloc: Global) -> Result<bool, Memory> {
    let channel = plain(alloc, "/a")?;
    let desk = Desk::open(alloc, 1000)?;
    let mut turn = Turn::open(alloc, desk)?;
    let (mut control, mut drain) = turn.start();
    let mut publisher = control.publisher();
    let declared = match publisher.declare(rt, &channel) {
        Ok(given) => given.first == 0 && given.channel == 1 && given.count == 1,
        Err(_) => false,
    };
    let payload = [7];
    let m = message(1, 1, &payload);
    let one = publisher.try_publish(&m) == Some(Ok(1));
    let two = publisher.publish(rt, &m) == Ok(2);
    let three = publisher.publish_lossless(rt, &m) == Ok(3);
    let spare = Cache::new(alloc, 1000)?;
    let held = match drain.swap(rt, spare) {
        Ok(full) => full.framed().len(),
        Err(_) => 0,
    };
    let at = control.close(rt);
    let closed = publisher.publish(rt, &m) == Err(CallRefused::Closed { at: 4 });
    control.gather(publisher.end());
    Ok(declared && one && two && three && held == 123 && at == 4 && closed)
}

#[test]
fn one_publisher_is_never_in_its_own_way(rt: HostRuntime) -> Result<(), Fail> {
    let answered = alone(&rt, rt.alloc())?;
    holds(&rt, answered);
    Ok(())
}

#[test]
fn four_publishers_and_a_drain(rt: HostRuntime) -> Result<(), Fail> {
    let there = four(&rt, rt.alloc(), 200, 5000)?;
    holds(&rt, there);
    Ok(())
}

#[test]
fn a_buffer_of_one_record_at_a_time(rt: HostRuntime) -> Result<(), Fail> {
    let there = four(&rt, rt.alloc(), 1, 500)?;
    holds(&rt, there);
    Ok(())
}

#[test]
fn two_publishers_on_threads_are_gathered_and_met(rt: HostRuntime) -> Result<(), Fail> {
    let there = two_that_meet(&rt, rt.alloc(), 15)?;
    holds(&rt, there);
    Ok(())
}

#[test]
fn one_swap_wakes_a_publisher_that_waits_for_room(rt: HostRuntime) -> Result<(), Fail> {
    let answer = woken_by(&rt, rt.alloc(), Waker::Swap)?;
    holds(&rt, answer == Some(Ok(1)));
    Ok(())
}

#[test]
fn a_stop_wakes_a_publisher_that_waits_for_room(rt: HostRuntime) -> Result<(), Fail> {
    let answer = woken_by(&rt, rt.alloc(), Waker::Stop)?;
    let stopped = CallRefused::Stopped {
        at: 1,
        stop: Stop::Memory,
    };
    holds(&rt, answer == Some(Err(stopped)));
    Ok(())
}

#[test]
fn a_close_wakes_a_publisher_that_waits_for_room(rt: HostRuntime) -> Result<(), Fail> {
    let answer = woken_by(&rt, rt.alloc(), Waker::Close)?;
    holds(&rt, answer == Some(Err(CallRefused::Closed { at: 1 })));
    Ok(())
}
