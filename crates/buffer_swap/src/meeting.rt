//! What a control and a drain know together, where all is over.
ghost use Rattle.std.specs.Prelude.{◌≡◌, ℕ, length, Some};
ghost use Rattle.mcap_model.specs.declared.ends.End.{End};
ghost use Rattle.record_core.specs.declared.answers.Found.{Found};
ghost use Rattle.buffer_swap.specs.Plays.{Met};
ghost use Rattle.buffer_swap.specs.Calls.{DrainIsOver};

use crate::board::EVENTS;
use crate::plays::{Meet, Note, Read};
use crate::seats::{Control, Drain};

/// Where the control has gathered all publishers and the drain has taken all up to an end, what the control knows and what
/// the drain took are one history. It does nothing.
pub fn meet(control: &mut Control<'_>, drain: &mut Drain<'_>)
    requires turn { drain.old.seat.table_id ≡ control.old.seat.table_id }
    requires gathered { length control.old.seat.me.0.post.known ≡ control.old.seat.me.0.post.made }
    ensures control { (control.new.seat.table_id ≡ control.old.seat.table_id)
        × (control.new.seat.me.0.pass ≡ control.old.seat.me.0.pass) }
    ensures made { (control.new.seat.me.0.post.made ≡ control.old.seat.me.0.post.made)
        × (control.new.seat.me.0.post.known ≡ control.old.seat.me.0.post.known) }
    ensures closed { control.new.seat.me.0.post.closed ≡ control.old.seat.me.0.post.closed }
    ensures drain { (drain.new.seat.table_id ≡ drain.old.seat.table_id) × (drain.new.seat.me ≡ drain.old.seat.me) }
    ensures met { (end : End) → DrainIsOver drain.old.seat.me.0.pass drain.old.seat.me.0.post end
        → Met control.old.seat.me.0.post.made control.old.seat.me.0.post.known control.old.seat.me.0.post.closed
        drain.old.seat.me.0.post.stop drain.old.seat.me.0.post.taken end }
{
    let shared = &control.board.table.shared;
    let note = shared.split_seat::<Note>(&mut drain.seat);
    shared.join_seat::<Read>(&mut control.seat, note);
    shared.load::<Meet>(&mut control.seat, EVENTS);
}
