//! A player, which goes through a replay line by line of a script.
ghost use Rattle.std.specs.Prelude.{◌≡◌, ◌≤◌, ◌+◌, ◌*◌, ◌/◌, ◌-◌, ◌^◌};

use crate::line::{Kind, Line};
use crate::searching::{first_after, first_from};
use crate::timeline::Timeline;

/// The messages from one place on and before another.
#[derive(Clone, Copy, Debug, PartialEq, Eq)]
pub struct Due {
    pub from: u64,
    pub to: u64,
}

/// At the moment `since`, that of the last line from which on the clock is counted, it stood at `value`. The message at the place
/// `next` is the first that wasn't passed.
#[derive(Clone, Copy)]
pub struct Player {
    begun: bool,
    value: u128,
    since: u64,
    runs: bool,
    p: u64,
    q: u64,
    moment: u64,
    next: usize,
    ghost divides: { 1 ≤ q },
    ghost slow: { p ≤ 1000000 },
    ghost ordered: { since ≤ moment },
    ghost bounded: { value ≤ (2 ^ 64 - 1) + since * 1000000 },
}

// The value so much later.
fn advanced(value: u128, elapsed: u64, p: u64, q: u64) -> u128
    requires divides { 1 ≤ q }
    requires slow { p ≤ 1000000 }
    requires early { value ≤ 2 ^ 85 }
    ensures moved { result ≡ value + (elapsed * p) / q }
    ensures bounded { result ≤ value + elapsed * 1000000 }
{
    let moved = u128::from(elapsed) * u128::from(p) / u128::from(q);
    value + moved
}

impl Player {
    ghost use Rattle.std.specs.Prelude.{◌<◌, ◌∷◌, ◌++◌, [], ℕ, List, length};
    ghost use Rattle.play_clock.specs.declared.line.Line.{Line as Step};
    ghost use Rattle.play_clock.specs.Times.{TimesRise};
    ghost use Rattle.play_clock.specs.Played.{Plays, RateFits};
    ghost use Rattle.play_clock.specs.Playing.{Stands, time_at, turns_clock, IsFront, IsTaken, last_moment};

    /// A player of these messages, to which no line was handed in yet.
    pub fn new<M: Timeline>(list: &M) -> Player
        ensures stands { Stands (M.times list.now) [] result }
        ensures moment { last_moment result ≡ 0 }
    {
        let value = if list.count() == 0 {
            0
        } else {
            list.log_time(0)
        };
        Player {
            begun: false,
            value: u128::from(value),
            since: 0,
            runs: true,
            p: 1,
            q: 1,
            moment: 0,
            next: 0,
        }
    }

    // The value of a line.
    fn time_of(&self, line: &Line) -> u128
        requires { last_moment self.now ≤ line.now.moment }
        ensures value { result ≡ time_at self.now line.now }
        ensures bounded { result ≤ (2 ^ 64 - 1) + line.now.moment * 1000000 }
    {
        match line.kind {
            Kind::Seek { time } => return u128::from(time),
            _ => {}
        }
        if !self.begun || !self.runs {
            return self.value;
        }
        let elapsed = line.moment.saturating_sub(self.since);
        return advanced(self.value, elapsed, self.p, self.q);
    }

    // Whether the clock is counted from the line on.
    fn is_turn(&self, line: &Line) -> bool
        ensures { result ≡ turns_clock self.now line.now }
    {
        if !self.begun {
            return true;
        }
        match line.kind {
            Kind::At => return false,
            _ => return true,
        }
    }

    // Where the player goes on after a line: at the value of the line, and at the message of that place.
    fn after(&self, line: &Line, value: u128, next: usize) -> Player
        requires fits { RateFits line.now.kind }
        requires later { last_moment self.now ≤ line.now.moment }
        requires bounded { value ≤ (2 ^ 64 - 1) + line.now.moment * 1000000 }
        ensures { IsTaken self.now line.now value next result }
    {
        let turned = self.is_turn(line);
        let (runs, p, q) = match line.kind {
            Kind::At => (self.runs, self.p, self.q),
            Kind::Pause => (false, self.p, self.q),
            Kind::Resume => (true, self.p, self.q),
            Kind::Rate { p, q } => (self.runs, p, q),
            Kind::Seek { .. } => (self.runs, self.p, self.q),
        };
        if turned {
            return Player {
                begun: true,
                value,
                since: line.moment,
                runs,
                p,
                q,
                moment: line.moment,
                next,
            };
        }
        return Player {
            begun: true,
            value: self.value,
            since: self.since,
            runs,
            p,
            q,
            moment: line.moment,
            next,
        };
    }

    // The place of the first message that may be shown at a line.
    fn front<M: Timeline>(&self, list: &M, line: &Line) -> usize
        requires { TimesRise (M.times list.now) }
        ensures { IsFront (M.times list.now) self.now line.now.kind result }
    {
        match line.kind {
            Kind::Seek { time } => return first_from(list, time),
            _ => return self.next,
        }
    }

    /// The messages that are shown at the next line of the script. They are the same messages at each call, in the order of their
    /// log times, and no line comes before the one that was handed in last. It takes no memory, and looks at the messages that it
    /// shows and the one after them; a seek halves the replay besides.
    pub fn step<M: Timeline>(&mut self, list: &M, line: &Line) -> Due
        requires rise { TimesRise (M.times list.now) }
        requires later { last_moment self.old ≤ line.now.moment }
        requires fits { RateFits line.now.kind }
        ensures shows { (lines : List Step) → Stands (M.times list.now) lines self.old
            → Plays (M.times list.now) lines line.now result.from result.to }
        ensures stands { (lines : List Step) → Stands (M.times list.now) lines self.old
            → Stands (M.times list.now) (lines ++ line.now ∷ []) self.new }
        ensures order { result.from ≤ result.to }
        ensures moment { last_moment self.new ≡ line.now.moment }
    {
        let value = self.time_of(line);
        let from = self.front(list, line);
        let to = first_after(list, from, value);
        let next = self.after(line, value, to);
        *self = next;
        Due {
            from: from as u64,
            to: to as u64,
        }
    }
}
