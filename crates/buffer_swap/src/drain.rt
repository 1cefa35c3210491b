//! The drain: it takes what was accepted, buffer by buffer.
ghost use Rattle.std.specs.Prelude.{◌≡◌, ℕ, []};
ghost use Rattle.record_core.specs.Desk.{IsCause};
ghost use Rattle.buffer_swap.specs.Calls.{SwapsTo, StopsBy};

use crate::seats::Drain;
use mcap_model::Stop;
use record_cache::Cache;
use record_core::Empty;
use std::sync::Wait;

impl Drain<'_> {
    /// Takes the buffer for an empty one, or hands that back where nothing was accepted since. It may wait for the turn.
    pub fn swap<R: Wait>(&mut self, rt: &R, empty: Cache) -> Result<Cache, Empty>
        requires { empty ≡ record { limit = self.old.seat.me.0.pass.limit; records = [] } }
        ensures turn { self.new.seat.table_id ≡ self.old.seat.table_id }
        ensures swapped { SwapsTo self.old.seat.me.0.pass self.old.seat.me.0.post self.new.seat.me.0.pass
            self.new.seat.me.0.post result }
    {
        self.board.wait(rt, &mut self.seat);
        self.board.swap_in_turn(&mut self.seat, empty)
    }

    /// Stops the intake where no end stands, and answers how many records it has then. It may wait for the turn.
    pub fn stop<R: Wait>(&mut self, rt: &R, stop: Stop) -> u64
        requires { IsCause stop }
        ensures turn { self.new.seat.table_id ≡ self.old.seat.table_id }
        ensures stopped { StopsBy self.old.seat.me.0.pass self.old.seat.me.0.post stop self.new.seat.me.0.pass
            self.new.seat.me.0.post result }
    {
        self.board.wait(rt, &mut self.seat);
        self.board.stop_in_turn(&mut self.seat, stop)
    }

    /// Sleeps until there may be something to take: until a publisher finds or leaves 262,144 bytes or more in the buffer, or
    /// as many as the limit if that is less; until a `Rouser` is called while something waits to be taken, and a millisecond
    /// more, in which more may gather; until an end is set. What came of these since the last swap isn't slept through: it
    /// returns at once then, and behind an end always. So whoever swaps again after each rest, and rests only after a swap,
    /// misses nothing. Less than that may wait in the buffer all the while. It may return early, and waits for ever where nobody
    /// does any of these. One thread at a time rests.
    pub fn rest<R: Wait>(&self, rt: &R) {
        self.board.doorbell.rest(rt);
    }
}
