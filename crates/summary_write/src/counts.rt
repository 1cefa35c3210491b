//! Counts of messages by channel.
ghost use Rattle.std.specs.Prelude.{◌≡◌, ◌+◌, ◌^◌, ◌<◌, ◌≤◌, OnOk, OnErr, All};
ghost use Rattle.summary_write.specs.Counts.{CountsRise, FoundCount, with_count};

use mcap_wire::Memory;

// The index of the count of a channel, or the index at which it is to stand.
fn place_of(counts: &[(u16, u64)], channel: u16) -> Result<usize, usize>
    requires { CountsRise counts.now }
    ensures { FoundCount counts.now channel result }
{
    // Channels are numbered from 1, so that a count mostly stands there.
    let guess = channel.saturating_sub(1) as usize;
    if guess < counts.len() && counts[guess].0 == channel {
        return Ok(guess);
    }
    counts.binary_search_by_key(&channel, |count| count.0)
}

/// Counts a message on a channel. Where memory lacks nothing changes.
pub(crate) fn count(counts: &mut Vec<(u16, u64)>, channel: u16, messages: u64) -> Result<(), Memory>
    requires rise { CountsRise counts.old.items }
    requires few { All (λ c. c.1 ≤ messages) counts.old.items }
    requires ids { All (λ c. c.0 < 2 ^ 16) counts.old.items }
    requires room { messages < 2 ^ 63 }
    ensures ok { OnOk result (counts.new.items ≡ with_count counts.old.items channel) }
    ensures err { OnErr result (counts.new.items ≡ counts.old.items) }
    ensures rise { CountsRise counts.new.items }
    ensures ids { All (λ c. c.0 < 2 ^ 16) counts.new.items }
    ensures few { All (λ c. c.1 ≤ messages + 1) counts.new.items }
{
    match place_of(counts.as_slice(), channel) {
        Ok(i) => {
            let count = counts[i].1;
            counts[i] = (channel, count + 1);
            return Ok(());
        }
        Err(i) => match counts.insert(i, (channel, 1)) {
            Ok(()) => return Ok(()),
            Err(_) => return Err(Memory),
        },
    }
}
