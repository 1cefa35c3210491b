ghost use Rattle.std.specs.Prelude.{ℕ, Bool};
ghost use Rattle.std.specs.Borrow.{ftrue};
ghost use Rattle.record_core.specs.Desk.{DeskView};
ghost use Rattle.feed_lane.specs.Pass.{PassState};
ghost use Rattle.buffer_swap.specs.Posts.{Post};

use std::marker::Model;

// What a seat knows: whether it holds the turn, and the desk that it has out then, with the events so far; how often it found
// the turn taken; what its calls showed; and what it is for. No value of it is made.
pub(crate) struct View {
    pub ghost holds: { Bool },
    pub ghost hand: { DeskView },
    pub ghost missed: { ℕ },
    pub ghost pass: { PassState },
    pub ghost post: { Post },
}

impl Model for View {
    ghost also_owns = { λ _. ftrue };
}
