//! A publisher's calls. Each is one turn, or was too large or found the turn taken and was none; those that wait while the
//! buffer is full take a turn each time.
ghost use Rattle.std.specs.Prelude.{◌≡◌, ◌≤◌, ℕ, Ok, Err, Some, length, true, false};
ghost use Rattle.mcap_wire.specs.Limits.{data_limit, declaration_limit};
ghost use Rattle.history_ids.specs.DeclarationFields.{declared_size};
ghost use Rattle.record_core.specs.declared.answers.CallRefused.TheVariants.{Full};
ghost use Rattle.history_ids.specs.DeclarationFits.{DefFits};
ghost use Rattle.buffer_swap.specs.Calls.{PublishesMessage, DeclaresChannel, MayName, last_of, TriesBy, LooksOn, NotFull, NeverFull};

use crate::board::FAR_BEHIND;
use crate::seats::{EndedPass, Publisher, Rouser};
use rec_data::ChannelDef;
use record_core::{CallRefused, Declared, Found, NewMessage, declared_size};
use std::sync::Wait;

// Whether the buffer was full for a message.
fn met_full(answer: &Result<u64, CallRefused>) -> bool
    ensures none { result ≡ false → NotFull answer.now }
    ensures full { result ≡ true → (held : ℕ) × (from : ℕ) × (to : ℕ) × (answer.now ≡ Err (Full held from to)) }
{
    matches!(answer, Err(CallRefused::Full { .. }))
}

// Whether it was for a declaration.
fn found_full(answer: &Result<Declared, CallRefused>) -> bool
    ensures none { result ≡ false → NeverFull answer.now }
    ensures full { result ≡ true → (held : ℕ) × (from : ℕ) × (to : ℕ) × (answer.now ≡ Err (Full held from to)) }
{
    matches!(answer, Err(CallRefused::Full { .. }))
}

// The last id that a channel got, behind a declaration.
fn last_of(last: u16, answer: &Result<Declared, CallRefused>) -> u16
    ensures { result ≡ last_of last answer.now }
{
    match answer {
        Ok(given) => return given.channel,
        Err(_) => return last,
    }
}

impl<'t> Publisher<'t> {
    /// Its number among the publishers of its turn.
    pub fn number(&self) -> u32
        ensures { result ≡ self.now.number }
    {
        self.number
    }

    /// How the intake was found in this publisher's last turn, before what it did there.
    pub fn found(&self) -> Option<Found>
        ensures { result ≡ self.now.seat.me.0.pass.found }
    {
        self.found
    }

    /// The id that its last channel got, or 0.
    pub fn last(&self) -> u16
        ensures { result ≡ self.now.last }
    {
        self.last
    }

    /// Publishes a message, and answers its place. It waits for nobody: where the turn is another's nothing is tried, and there is
    /// no answer. Where the drain is behind it lets the system run another thread first.
    pub fn try_publish(&mut self, m: &NewMessage<'_>) -> Option<Result<u64, CallRefused>>
        ensures turn { self.new.seat.table_id ≡ self.old.seat.table_id }
        ensures number { self.new.number ≡ self.old.number }
        ensures last { self.new.last ≡ self.old.last }
        ensures answer { TriesBy self.old.seat.me.0.pass self.old.seat.me.0.missed self.new.seat.me.0.pass
            self.new.seat.me.0.missed m.now result }
    {
        let len = m.payload.len() as u64;
        if len > 33_554_432 {
            return Some(Err(CallRefused::TooLarge { len }));
        }
        if !self.board.take(&mut self.seat) {
            return None;
        }
        let found = self.board.found_out(&mut self.seat);
        self.found = Some(found);
        Some(self.board.publish_in_turn(&mut self.seat, m, found.held))
    }

    /// Publishes a message, and answers its place. It may wait for the turn.
    pub fn publish<R: Wait>(&mut self, rt: &R, m: &NewMessage<'_>) -> Result<u64, CallRefused>
        ensures turn { self.new.seat.table_id ≡ self.old.seat.table_id }
        ensures number { self.new.number ≡ self.old.number }
        ensures last { self.new.last ≡ self.old.last }
        ensures answer { PublishesMessage self.old.seat.me.0.pass self.new.seat.me.0.pass m.now result }
    {
        let len = m.payload.len() as u64;
        if len > 33_554_432 {
            return Err(CallRefused::TooLarge { len });
        }
        self.board.wait(rt, &mut self.seat);
        let found = self.board.found_out(&mut self.seat);
        self.found = Some(found);
        self.board.publish_in_turn(&mut self.seat, m, found.held)
    }

    /// Declares a channel with its schema, and answers its id and the places of the records that this added. It may wait for
    /// the turn.
    pub fn declare<R: Wait>(
        &mut self,
        rt: &R,
        channel: &ChannelDef,
    ) -> Result<Declared, CallRefused>
        requires { DefFits channel.now }
        ensures turn { self.new.seat.table_id ≡ self.old.seat.table_id }
        ensures number { self.new.number ≡ self.old.number }
        ensures last { self.new.last ≡ last_of self.old.last result }
        ensures answer { DeclaresChannel self.old.seat.me.0.pass self.new.seat.me.0.pass channel.now result }
    {
        self.declare_sharing(rt, channel, None)
    }

    /// The same. Where a channel is named that got an id here and has the same schema, that isn't looked at.
    pub fn declare_sharing<R: Wait>(
        &mut self,
        rt: &R,
        channel: &ChannelDef,
        like: Option<u16>,
    ) -> Result<Declared, CallRefused>
        requires fits { DefFits channel.now }
        requires names { MayName self.old.seat.me.0.pass like channel.now.schema }
        ensures turn { self.new.seat.table_id ≡ self.old.seat.table_id }
        ensures number { self.new.number ≡ self.old.number }
        ensures last { self.new.last ≡ last_of self.old.last result }
        ensures answer { DeclaresChannel self.old.seat.me.0.pass self.new.seat.me.0.pass channel.now result }
    {
        let len = declared_size(channel);
        if len > 1_048_576 {
            return Err(CallRefused::TooLarge { len });
        }
        self.board.wait(rt, &mut self.seat);
        let found = self.board.found_out(&mut self.seat);
        self.found = Some(found);
        let answer = self
            .board
            .declare_in_turn(&mut self.seat, channel, like, found.held);
        self.last = last_of(self.last, &answer);
        answer
    }

    // One turn of a call that waits while the buffer is full.
    fn publish_once<R: Wait>(&mut self, rt: &R, m: &NewMessage<'_>) -> Result<u64, CallRefused>
        requires { length m.now.payload.now ≤ data_limit }
        ensures turn { self.new.seat.table_id ≡ self.old.seat.table_id }
        ensures number { self.new.number ≡ self.old.number }
        ensures last { self.new.last ≡ self.old.last }
        ensures answer { NotFull result
            → PublishesMessage self.old.seat.me.0.pass self.new.seat.me.0.pass m.now result }
        ensures full { (held from to : ℕ) → result ≡ Err (Full held from to)
            → LooksOn self.old.seat.me.0.pass self.new.seat.me.0.pass }
    {
        self.board.wait(rt, &mut self.seat);
        let found = self.board.found_out(&mut self.seat);
        self.found = Some(found);
        self.board.try_in_turn(&mut self.seat, m, found.held)
    }

    // Whether the last turn found so much in the buffer that the drain is far behind.
    fn is_far_ahead(&self) -> bool {
        match &self.found {
            Some(found) => return found.held >= FAR_BEHIND,
            None => return false,
        }
    }

    // Whether it waited for such a drain since the last swap, and not twice as much has gathered since then.
    fn has_awaited(&self) -> bool {
        match &self.awaited {
            Some(before) => match &self.found {
                Some(found) => {
                    return before.taken == found.taken && found.held / 2 < before.held;
                }
                None => return true,
            },
            None => return false,
        }
    }

    // Waits for a swap for a moment. Few messages come here, so it stays out of the way of the others.
    #[inline(never)]
    fn await_swap<R: Wait>(&mut self, rt: &R, events: u32)
        ensures seat { self.new.seat ≡ self.old.seat }
        ensures number { self.new.number ≡ self.old.number }
        ensures last { self.new.last ≡ self.old.last }
    {
        if !self.has_awaited() {
            self.awaited = self.found;
            self.board.sleep_for_swap(rt, events);
        }
    }

    // Lets a drain swap first that is far behind: then the buffers stay in the processor's cache.
    fn let_drain_swap<R: Wait>(&mut self, rt: &R, events: u32)
        ensures seat { self.new.seat ≡ self.old.seat }
        ensures number { self.new.number ≡ self.old.number }
        ensures last { self.new.last ≡ self.old.last }
    {
        if self.is_far_ahead() {
            self.await_swap(rt, events);
        }
    }

    /// Publishes a message, and answers its place. It may wait for the turn, while the buffer is full, and for a moment where
    /// the drain is far behind.
    pub fn publish_lossless<R: Wait>(
        &mut self,
        rt: &R,
        m: &NewMessage<'_>,
    ) -> Result<u64, CallRefused>
        ensures turn { self.new.seat.table_id ≡ self.old.seat.table_id }
        ensures number { self.new.number ≡ self.old.number }
        ensures last { self.new.last ≡ self.old.last }
        ensures answer { PublishesMessage self.old.seat.me.0.pass self.new.seat.me.0.pass m.now result }
        ensures unfull { NotFull result }
    {
        let len = m.payload.len() as u64;
        if len > 33_554_432 {
            return Err(CallRefused::TooLarge { len });
        }
        'tries: for _ in rt.forever() {
            let events = self.board.events();
            let answer = self.publish_once(rt, m);
            if !met_full(&answer) {
                self.let_drain_swap(rt, events);
                return answer;
            }
            self.board.sleep_for_room(rt, events);
        }
        unreachable!()
    }

    // One turn of a declaration that waits while the buffer is full.
    fn declare_once<R: Wait>(
        &mut self,
        rt: &R,
        channel: &ChannelDef,
        like: Option<u16>,
    ) -> Result<Declared, CallRefused>
        requires fits { DefFits channel.now }
        requires small { declared_size channel.now ≤ declaration_limit }
        requires names { MayName self.old.seat.me.0.pass like channel.now.schema }
        ensures turn { self.new.seat.table_id ≡ self.old.seat.table_id }
        ensures number { self.new.number ≡ self.old.number }
        ensures last { self.new.last ≡ last_of self.old.last result }
        ensures answer { NeverFull result
            → DeclaresChannel self.old.seat.me.0.pass self.new.seat.me.0.pass channel.now result }
        ensures full { (held from to : ℕ) → result ≡ Err (Full held from to)
            → LooksOn self.old.seat.me.0.pass self.new.seat.me.0.pass }
    {
        self.board.wait(rt, &mut self.seat);
        let found = self.board.found_out(&mut self.seat);
        self.found = Some(found);
        let answer = self
            .board
            .name_in_turn(&mut self.seat, channel, like, found.held);
        self.last = last_of(self.last, &answer);
        answer
    }

    /// Declares a channel with its schema, and answers its id and the places of the records that this added. It may wait for
    /// the turn, and while the buffer is full.
    pub fn declare_lossless<R: Wait>(
        &mut self,
        rt: &R,
        channel: &ChannelDef,
    ) -> Result<Declared, CallRefused>
        requires { DefFits channel.now }
        ensures turn { self.new.seat.table_id ≡ self.old.seat.table_id }
        ensures number { self.new.number ≡ self.old.number }
        ensures last { self.new.last ≡ last_of self.old.last result }
        ensures answer { DeclaresChannel self.old.seat.me.0.pass self.new.seat.me.0.pass channel.now result }
        ensures unfull { NeverFull result }
    {
        self.declare_lossless_sharing(rt, channel, None)
    }

    /// The same. Where a channel is named that got an id here and has the same schema, that isn't looked at.
    pub fn declare_lossless_sharing<R: Wait>(
        &mut self,
        rt: &R,
        channel: &ChannelDef,
        like: Option<u16>,
    ) -> Result<Declared, CallRefused>
        requires fits { DefFits channel.now }
        requires names { MayName self.old.seat.me.0.pass like channel.now.schema }
        ensures turn { self.new.seat.table_id ≡ self.old.seat.table_id }
        ensures number { self.new.number ≡ self.old.number }
        ensures last { self.new.last ≡ last_of self.old.last result }
        ensures answer { DeclaresChannel self.old.seat.me.0.pass self.new.seat.me.0.pass channel.now result }
        ensures unfull { NeverFull result }
    {
        let len = declared_size(channel);
        if len > 1_048_576 {
            return Err(CallRefused::TooLarge { len });
        }
        'tries: for _ in rt.forever() {
            let events = self.board.events();
            let answer = self.declare_once(rt, channel, like);
            if !found_full(&answer) {
                return answer;
            }
            self.board.sleep_for_room(rt, events);
        }
        unreachable!()
    }

    /// A handle by which the drain is roused: a call of it behind the last message before a pause lets that message be taken.
    pub fn rouser(&self) -> Rouser<'t> {
        Rouser { board: self.board }
    }

    /// Ends its calls.
    pub fn end(self) -> EndedPass<'t>
        ensures seat { result.publisher.seat ≡ self.entry.seat }
        ensures number { result.publisher.number ≡ self.entry.number }
    {
        EndedPass { publisher: self }
    }
}

impl EndedPass<'_> {
    /// The number of the publisher that ended.
    pub fn number(&self) -> u32
        ensures { result ≡ self.now.publisher.number }
    {
        self.publisher.number
    }
}
