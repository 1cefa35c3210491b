//! The table of a turn, and those who sit at it.
ghost use Rattle.std.specs.Prelude.{◌≡◌, ℕ, [], true, false};
ghost use Rattle.buffer_swap.specs.Posts.{publisher_post, IsDrain};
ghost use Rattle.buffer_swap.specs.Plays.{IsIdle};

use crate::doorbell::Doorbell;
use crate::plays::Order;
use crate::view::View;
use atomic_table::Table;
use record_core::{Desk, Found};
use std::alloc::Global;
use std::sync::atomic::AtomicU64;

pub(crate) type Seat = atomic_table::Seat<Desk, View>;

/// The desk in its slot, and the words of the turn and of the events.
#[derive(Drop)]
pub(crate) struct Board {
    pub table: Table<Desk, View, u64, Order, Global>,
    // How many threads sleep until the turn is free, or until there is room or a swap, or are about to. Where there are none, nobody is
    // woken, which is a call of the system.
    pub turn_sleepers: AtomicU64,
    pub room_sleepers: AtomicU64,
    // From how many bytes on the buffer is worth a swap.
    pub ripe: u64,
    pub doorbell: Doorbell,
    ghost sized_words: { table.shared.table_id.words ≡ 2 },
    ghost sized_slots: { table.shared.table_id.slots ≡ 1 },
}

/// A publisher: it declares channels and publishes messages, one call at a time.
#[derive(Drop)]
pub struct Publisher<'t> {
    pub(crate) board: &'t Board,
    pub(crate) seat: Seat,
    pub(crate) number: u32,
    pub(crate) found: Option<Found>,
    // The id that its last channel got, or 0.
    pub(crate) last: u16,
    // How it found the intake when it last waited for a drain that was far behind.
    pub(crate) awaited: Option<Found>,
    ghost fits: { seat.table_id ≡ board.now.table.shared.table_id },
    ghost idle: { IsIdle seat.me },
    ghost kind: { seat.me.0.post ≡ publisher_post number },
    ghost found_is: { found ≡ seat.me.0.pass.found },
}

/// It rouses the drain, from any thread.
#[derive(Clone, Copy)]
pub struct Rouser<'t> {
    pub(crate) board: &'t Board,
}

/// A publisher that makes no more calls.
#[derive(Drop)]
pub struct EndedPass<'t> {
    pub(crate) publisher: Publisher<'t>,
}

/// It makes publishers, closes the intake, and knows at the end what all publishers did.
#[derive(Drop)]
pub struct Control<'t> {
    pub(crate) board: &'t Board,
    pub(crate) seat: Seat,
    pub(crate) made: u32,
    ghost fits: { seat.table_id ≡ board.now.table.shared.table_id },
    ghost idle: { IsIdle seat.me },
    ghost controls: { seat.me.0.post.controls ≡ true },
    ghost drains: { seat.me.0.post.drains ≡ false },
    ghost seated: { seat.me.0.post.seated ≡ true },
    ghost publishes: { seat.me.0.post.publishes ≡ false },
    ghost own: { seat.me.0.pass.own ≡ [] },
    ghost made_is: { made ≡ seat.me.0.post.made },
}

/// It takes what was accepted, buffer by buffer, and may stop the intake.
#[derive(Drop)]
pub struct Drain<'t> {
    pub(crate) board: &'t Board,
    pub(crate) seat: Seat,
    ghost fits: { seat.table_id ≡ board.now.table.shared.table_id },
    ghost idle: { IsIdle seat.me },
    ghost kind: { IsDrain seat.me.0.post },
}
