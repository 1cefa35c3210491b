//! A turn, from its opening to its start.
ghost use Rattle.std.specs.Prelude.{◌≡◌, ◌≤◌, ℕ, [], IfOk, None};
ghost use Rattle.record_core.specs.Desk.{new_desk};
ghost use Rattle.buffer_swap.specs.Posts.{first_post, drain_post};
ghost use Rattle.buffer_swap.specs.Turns.{newcomer};
ghost use Rattle.buffer_swap.specs.Plays.{starts};
ghost use Rattle.buffer_swap.specs.Calls.{first_limit, IsNewTurn};

use crate::plays::Start;
use crate::seats::{Board, Control, Drain, Seat};
use mcap_wire::Memory;
use record_core::Desk;
use std::alloc::Global;

/// A desk that threads share in turns.
#[derive(Drop)]
pub struct Turn {
    board: Board,
    first: Option<Seat>,
}

impl Turn {
    /// A turn at a desk that is new and may hold a byte or more: at a limit of 0 each buffer is full, and a call that waits
    /// for room waits for ever. Where memory lacks, the desk is dropped.
    pub fn open(alloc: Global, desk: Desk) -> Result<Turn, Memory>
        requires new { (limit : ℕ) × (desk ≡ new_desk limit) }
        requires some { 1 ≤ desk.limit }
        ensures new { IfOk result (λ turn. IsNewTurn turn.board.table.shared.table_id turn.first) }
        ensures limit { IfOk result (λ turn. first_limit turn.first ≡ desk.limit) }
    {
        match Board::open(alloc, desk) {
            Ok((board, seat)) => {
                return Ok(Turn {
                    board,
                    first: Some(seat),
                });
            }
            Err(memory) => return Err(memory),
        }
    }

    /// Its control and its drain. A turn is started once.
    pub fn start(&mut self) -> (Control<'_>, Drain<'_>)
        requires { IsNewTurn self.old.board.table.shared.table_id self.old.first }
        ensures control { result.0.seat.me.0 ≡ starts (newcomer (first_limit self.old.first) first_post) }
        ensures drain { result.1.seat.me.0 ≡ newcomer (first_limit self.old.first) (drain_post None []) }
        ensures same { result.1.seat.table_id ≡ result.0.seat.table_id }
    {
        let Turn { board, first } = self;
        let Some(mut seat) = first.take() else {
            unreachable!()
        };
        let board: &Board = board;
        let other = board.table.shared.split_seat::<Start>(&mut seat);
        (
            Control {
                board,
                seat,
                made: 0,
            },
            Drain { board, seat: other },
        )
    }
}
