//! How many Messages there are on each channel.
ghost use Rattle.std.specs.Prelude.{◌≡◌, ◌<◌, ◌≤◌, [], ℕ, length, slice_index, vec_len, IfOk, OnOk};
ghost use Rattle.file_check.specs.MessageCounts.{IsOneMore, ListsCounts};

use mcap_wire::Memory;
use std::alloc::Global;
use std::marker::Model;

/// The number of Messages on each channel, which is found in one step.
#[derive(Drop)]
pub(crate) struct MessageCounts {
    // By the id of the channel. Those behind the end have none.
    counts: Vec<u64>,
}

impl Model for MessageCounts {
    ghost use Rattle.std.specs.Prelude.{◌≤◌, List, ℕ, length};

    ghost Value = { List ℕ };

    ghost view = { λ s. s.counts.items };

    ghost invariant = { λ s. length s.counts.items ≤ 65536 };
}

// Makes room for the number of a channel, with 0 where there was none.
fn make_count(counts: &mut Vec<u64>, channel: u16) -> Result<(), Memory>
    requires { length counts.old.items ≤ 65536 }
    ensures room { OnOk result (channel < vec_len counts.new) }
    ensures few { length counts.new.items ≤ 65536 }
    ensures kept { (id : ℕ) → slice_index counts.new.items id ≡ slice_index counts.old.items id }
{
    let place = channel as usize;
    if place < counts.len() {
        return Ok(());
    }
    match counts.resize(place + 1, 0) {
        Ok(()) => return Ok(()),
        Err(_) => return Err(Memory),
    }
}

impl MessageCounts {
    pub(crate) fn new(alloc: Global) -> MessageCounts
        ensures { result ≡ [] }
    {
        MessageCounts {
            counts: Vec::new(alloc),
        }
    }

    /// Counts one Message more on a channel.
    pub(crate) fn add(&mut self, channel: u16) -> Result<(), Memory>
        ensures { OnOk result (IsOneMore self.old channel self.new) }
    {
        match make_count(&mut self.counts, channel) {
            Ok(()) => {}
            Err(memory) => return Err(memory),
        }
        let place = channel as usize;
        let count = self.counts[place].saturating_add(1);
        self.counts[place] = count;
        return Ok(());
    }

    /// The channels that have Messages, each with their number.
    pub(crate) fn list(&self, alloc: Global) -> Result<Vec<(u16, u64)>, Memory>
        ensures { IfOk result (λ list. ListsCounts self.now list.items) }
    {
        let mut list = Vec::new(alloc);
        'counts: for i in 0..self.counts.len() {
            let count = self.counts[i];
            if count != 0 {
                match list.push((i as u16, count)) {
                    Ok(()) => {}
                    Err(_) => return Err(Memory),
                }
            }
        }
        return Ok(list);
    }
}
