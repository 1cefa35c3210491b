//! Sums of messages.
ghost use Rattle.std.specs.Prelude.{◌≡◌, ◌%◌, ◌^◌, [], sum};
ghost use Rattle.rec_data.specs.Parsed.{message_fields};
ghost use Rattle.command_generate.specs.Sums.{sums_of};
ghost use Rattle.command_generate.specs.SumSteps.{with_message};

use rec_data::Message;

/// How many messages there are, how many bytes of data they have together, and the total of their log times and of the values of
/// these bytes; each modulo 2^64, which only the total comes to.
#[derive(Clone, Copy, Debug, PartialEq, Eq)]
pub struct Sums {
    pub messages: u64,
    pub bytes: u64,
    pub total: u64,
}

// The sum of the values of the bytes, modulo 2^64.
fn sum_bytes(bytes: &[u8]) -> u64
    ensures { result ≡ sum bytes.now % 2 ^ 64 }
{
    let mut total: u64 = 0;
    'bytes: for byte in bytes {
        total = total.wrapping_add(*byte as u64);
    }
    total
}

impl Sums {
    /// The sums of no messages.
    pub fn none() -> Sums
        ensures { result ≡ sums_of [] }
    {
        Sums {
            messages: 0,
            bytes: 0,
            total: 0,
        }
    }

    /// Adds a message.
    pub fn add(&mut self, message: &Message<'_>)
        ensures { self.new ≡ with_message self.old (message_fields message.now) }
    {
        let values = sum_bytes(message.payload);
        self.messages = self.messages.wrapping_add(1);
        self.bytes = self.bytes.wrapping_add(message.payload.len() as u64);
        self.total = self
            .total
            .wrapping_add(message.log_time.wrapping_add(values));
    }
}
