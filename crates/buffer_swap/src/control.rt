//! The control: it makes publishers, closes the intake, and knows at the end what all publishers did.
ghost use Rattle.std.specs.Prelude.{◌≡◌, ◌<◌, ℕ, [], ◌∷◌, ◌++◌, true, false, None, Some};
ghost use Rattle.mcap_model.specs.declared.ends.End.TheVariants.{Closed};
ghost use Rattle.record_core.specs.Desk.{ended};
ghost use Rattle.buffer_swap.specs.Posts.{publisher_post};
ghost use Rattle.buffer_swap.specs.Plays.{HasDesk, hires, hired, gathers, Unclosed, closes, frees, same_pass};
ghost use Rattle.buffer_swap.specs.Calls.{ClosesBy, ClosedInTurn, closes_if};

use crate::board::{EVENTS, TURN};
use crate::plays::{Gather, Hire, Settle};
use crate::seats::{Board, Control, EndedPass, Publisher, Seat};
use mcap_model::End;
use std::sync::Wait;

impl<'t> Control<'t> {
    /// A publisher. They are numbered from 0, in order.
    pub fn publisher(&mut self) -> Publisher<'t>
        requires { self.old.seat.me.0.post.made < 64 }
        ensures turn { (self.new.seat.table_id ≡ self.old.seat.table_id)
            × (result.seat.table_id ≡ self.old.seat.table_id) }
        ensures made { self.new.seat.me.0 ≡ hires self.old.seat.me.0 }
        ensures number { result.number ≡ self.old.seat.me.0.post.made }
        ensures new { result.seat.me.0 ≡ hired self.old.seat.me.0 }
        ensures last { result.last ≡ 0 }
    {
        let board = self.board;
        let number = self.made;
        let seat = board.table.shared.split_seat::<Hire>(&mut self.seat);
        self.made += 1;
        Publisher {
            board,
            seat,
            number,
            found: None,
            last: 0,
            awaited: None,
        }
    }

    /// Makes the control know all that this publisher has shown.
    pub fn gather(&mut self, ended: EndedPass<'_>)
        requires { ended.publisher.seat.table_id ≡ self.old.seat.table_id }
        ensures turn { self.new.seat.table_id ≡ self.old.seat.table_id }
        ensures known { self.new.seat.me.0 ≡ gathers self.old.seat.me.0 ended.entry.publisher.seat.me.0 }
        ensures unclosed { self.old.seat.me.0.post.closed ≡ false → Unclosed ended.entry.publisher.seat.me.0.pass }
    {
        let EndedPass { publisher } = ended;
        let Publisher {
            board: _,
            seat,
            number: _,
            found: _,
            last: _,
            awaited: _,
        } = publisher;
        self.board
            .table
            .shared
            .join_seat::<Gather>(&mut self.seat, seat);
        self.board
            .table
            .shared
            .load::<Settle>(&mut self.seat, EVENTS);
    }

    /// Closes the intake where no end stands, and answers how many records it has then. It may wait for the turn.
    pub fn close<R: Wait>(&mut self, rt: &R) -> u64
        ensures turn { self.new.seat.table_id ≡ self.old.seat.table_id }
        ensures closed { ClosesBy self.old.seat.me.0.pass self.old.seat.me.0.post self.new.seat.me.0.pass
            self.new.seat.me.0.post result }
    {
        self.board.wait(rt, &mut self.seat);
        self.board.close_in_turn(&mut self.seat)
    }
}
