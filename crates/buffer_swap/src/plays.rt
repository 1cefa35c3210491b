//! The rule of the turn, and the kinds of its steps. A turn is told once from how many bytes on its buffer is full. What a
//! call promises of its steps rests on these kinds: each names the word and the change that it is of.
ghost use Rattle.buffer_swap.specs.Posts.{first_post};
ghost use Rattle.buffer_swap.specs.Turns.{KeepsTurnRule, newcomer, nobody};
ghost use Rattle.buffer_swap.specs.Plays.{took, records_counted, handed_over, closed, stopped, freed, freed_counting, same_pass, with_full_hand, with_name, with_lacking, starts, drainer, hires, hired, gathers, drain_noted, reads, settled, met};

use crate::view::View;
use atomic_table::{Join, Play, Split, TableRule};
use record_core::Desk;
use std::marker::{Brand, PhantomData};

pub(crate) struct Order;

impl TableRule<Desk, View, u64> for Order {
    ghost holds = { λ _. KeepsTurnRule };

    ghost first = { λ limit. newcomer limit first_post };
}

// The turn is taken, or found taken.
pub(crate) struct Take;

impl Play<Desk, View> for Take {
    ghost then = { took };
}

// The records of a declaration are counted.
pub(crate) struct Count;

impl Play<Desk, View> for Count {
    ghost then = { records_counted };
}

// The buffer is handed over.
pub(crate) struct HandOver;

impl Play<Desk, View> for HandOver {
    ghost then = { handed_over };
}

// The intake is closed, or stopped.
pub(crate) struct Close;

impl Play<Desk, View> for Close {
    ghost then = { closed };
}

pub(crate) struct Stop;

impl Play<Desk, View> for Stop {
    ghost then = { stopped };
}

// The turn is freed, and the pass shows what it was refused or named.
pub(crate) struct Free;

impl Play<Desk, View> for Free {
    ghost then = { freed same_pass };
}

// The turn is freed, and in the same step the records are counted.
pub(crate) struct FreeCounting;

impl Play<Desk, View> for FreeCounting {
    ghost then = { freed_counting };
}

pub(crate) struct FreeFull;

impl Play<Desk, View> for FreeFull {
    ghost then = { freed with_full_hand };
}

/// What a call says of a declaration.
pub(crate) trait Said {
    ghost use Rattle.std.specs.Prelude.{ℕ};
    ghost use Rattle.rec_data.specs.declared.channel.ChannelDef.{ChannelDef};
    ghost use Rattle.record_core.specs.declared.answers.CallRefused.{CallRefused};

    ghost name: { ℕ × ChannelDef };

    ghost lacking: { ChannelDef × CallRefused };
}

impl Said for Brand {
    ghost use Rattle.std.specs.Prelude.{[], None};
    ghost use Rattle.record_core.specs.declared.answers.CallRefused.TheVariants.{Memory};

    ghost name = { (0, record { topic = []; message_encoding = []; metadata = []; schema = None }) };

    ghost lacking = { (record { topic = []; message_encoding = []; metadata = []; schema = None }, Memory) };
}

pub(crate) struct FreeNamed<N> {
    of: PhantomData<N>,
}

impl<N: Said> Play<Desk, View> for FreeNamed<N> {
    ghost then = { freed (with_name N.name) };
}

pub(crate) struct FreeLacking<N> {
    of: PhantomData<N>,
}

impl<N: Said> Play<Desk, View> for FreeLacking<N> {
    ghost then = { freed (with_lacking N.lacking) };
}

// A seat is made: the drain's, a publisher's, or a note's.
pub(crate) struct Start;

impl Split<View> for Start {
    ghost left = { starts };

    ghost right = { drainer };
}

pub(crate) struct Hire;

impl Split<View> for Hire {
    ghost left = { hires };

    ghost right = { hired };
}

pub(crate) struct Note;

impl Split<View> for Note {
    ghost left = { λ v. v };

    ghost right = { drain_noted };
}

// The control takes in a publisher's seat, or a note.
pub(crate) struct Gather;

impl Join<View> for Gather {
    ghost both = { gathers };

    ghost spent = { nobody };
}

pub(crate) struct Read;

impl Join<View> for Read {
    ghost both = { reads };

    ghost spent = { nobody };
}

// Looks that change nothing.
pub(crate) struct Settle;

impl Play<Desk, View> for Settle {
    ghost then = { settled };
}

pub(crate) struct Meet;

impl Play<Desk, View> for Meet {
    ghost then = { met };
}
