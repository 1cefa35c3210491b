//! A feed that is made while it is read.
ghost use Rattle.std.specs.Prelude.{refl, ◌≡◌, ◌≤◌, ◌+◌, ◌-◌, ◌++◌, [], length, min, take, drop, true, Some, vec_len, vec_capacity, IfOk, OnOk};
ghost use Rattle.std.proofs.Common.{◌∙◌};
ghost use Rattle.mcap_wire.specs.Layout.{magic};
ghost use Rattle.mcap_model.specs.Tops.{top_bytes};
ghost use Rattle.command_generate.specs.declared.generator.TheConstants.{RECORD_ROOM as record_room};
ghost use Rattle.command_generate.specs.Feeds.{header_top, channel_top, feed_bytes};
ghost use Rattle.command_generate.specs.Unread.{unmade, left_to_read};

use crate::generator::{CHANNEL_ID, RECORD_ROOM, advance, begin, draw, put_message};
use mcap_io::{Failed, Source};
use mcap_wire::{MAGIC, Memory, PairsRef, put_bytes};
use rec_data::{Channel, DataEnd, Header};
use std::alloc::Global;

/// A feed of one channel without a schema, whose messages a generator of numbers gives. It never fails, and takes no memory while
/// it is read.
#[derive(Drop)]
pub struct GeneratedFeed {
    messages: u32,
    // How many of them are made, and the generator's state behind these.
    made: u32,
    state: u64,
    // Whether the Data End is made too.
    ended: bool,
    // The records that were made last; those from `from` on aren't read yet.
    waiting: Vec<u8>,
    from: usize,
    ghost count: { made ≤ messages },
    ghost within: { from ≤ vec_len waiting },
    ghost room: { record_room ≤ vec_capacity waiting },
}

// Puts what stands in front of the messages: the magic, the Header and the Channel.
fn put_front(alloc: Global, out: &mut Vec<u8>, feed: u64) -> Result<(), Memory>
    requires { out.old.items ≡ [] }
    ensures front { OnOk result (out.new.items ≡ magic ++ (top_bytes header_top ++ top_bytes (channel_top feed))) }
    ensures capacity { vec_capacity out.old ≤ vec_capacity out.new }
{
    let topic = match format!(in alloc; "/gen/{feed}") {
        Ok(topic) => topic,
        Err(_) => return Err(Memory),
    };
    let header = Header {
        profile: "",
        library: "",
    };
    let channel = Channel {
        id: CHANNEL_ID,
        schema_id: 0,
        topic: topic.as_str(),
        message_encoding: "",
        metadata: PairsRef::of(&[]),
    };
    put_bytes(out, &MAGIC)?;
    header.frame(out)?;
    channel.frame(out)
}

impl GeneratedFeed {
    /// The feed of that number, of so many messages. Memory may lack for the one record that it holds at a time.
    pub fn new(alloc: Global, seed: u64, feed: u64, messages: u32) -> Result<GeneratedFeed, Memory>
        ensures { IfOk result (λ it. ⟦<GeneratedFeed as Source>⟧.state it
            ≡ record { left = Some (feed_bytes seed feed messages); faults = 0 }) }
    {
        let mut waiting = match Vec::with_capacity(alloc, RECORD_ROOM) {
            Ok(waiting) => waiting,
            Err(_) => return Err(Memory),
        };
        match put_front(alloc, &mut waiting, feed) {
            Ok(()) => {}
            Err(memory) => return Err(memory),
        }
        Ok(GeneratedFeed {
            messages,
            made: 0,
            state: begin(seed, feed),
            ended: false,
            waiting,
            from: 0,
        })
    }

    // Makes the next record, where all that were made are read. There is room for it.
    fn refill(&mut self)
        ensures left { left_to_read self.new.waiting.items self.new.from (unmade self.new.ended
            (self.new.messages - self.new.made) self.new.made self.new.state)
            ≡ left_to_read self.old.waiting.items self.old.from (unmade self.old.ended
            (self.old.messages - self.old.made) self.old.made self.old.state) }
        ensures some { drop self.new.from self.new.waiting.items ≡ [] → self.new.ended ≡ true }
        ensures messages { self.new.messages ≡ self.old.messages }
    {
        if self.from < self.waiting.len() || self.ended {
            return;
        }
        self.waiting.clear();
        self.from = 0;
        if self.made < self.messages {
            self.state = advance(self.state);
            let _ = put_message(&mut self.waiting, self.made, draw(self.state));
            self.made += 1;
        } else {
            let _ = DataEnd {
                data_section_crc: 0,
            }
            .frame(&mut self.waiting);
            self.ended = true;
        }
    }

    // Copies what was made, as much as there is room for.
    fn give(&mut self, out: &mut [u8]) -> usize
        ensures bound { result ≡ min (length (drop self.old.from self.old.waiting.items)) (length out.new) }
        ensures out { take result out.new ≡ take result (drop self.old.from self.old.waiting.items) }
        ensures from { self.new.from ≡ self.old.from + result }
        ensures waiting { self.new.waiting ≡ self.old.waiting }
        ensures ended { self.new.ended ≡ self.old.ended }
        ensures messages { self.new.messages ≡ self.old.messages }
        ensures made { self.new.made ≡ self.old.made }
        ensures state { self.new.state ≡ self.old.state }
    {
        let rest = &self.waiting[self.from..];
        let n = rest.len().min(out.len());
        out[..n].copy_from_slice(&rest[..n]);
        self.from += n;
        n
    }
}

impl Source for GeneratedFeed {
    ghost state = { λ f. record
        { left = Some (left_to_read f.waiting.items f.from (unmade f.ended (f.messages - f.made) f.made f.state)); faults = 0 } };

    /// It has as many messages in all.
    ghost stays = { λ f g. g.messages ≡ f.messages };

    ghost stays_so = { λ f. refl };

    ghost stays_on = { λ f g h first second. second ∙ first };

    fn read(&mut self, out: &mut [u8]) -> Result<usize, Failed> {
        if out.is_empty() {
            return Ok(0);
        }
        self.refill();
        Ok(self.give(out))
    }

    fn faults(&self) -> u64 {
        0
    }
}
