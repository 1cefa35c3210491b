//! Messages, as they are shown, whose payloads are lent.
ghost use Rattle.std.specs.Prelude.{◌≡◌, IfOk};
ghost use Rattle.time_player.specs.Lent.{shown_of};

use mcap_model::{Place, Shown};
use mcap_wire::{Bytes, Memory};
use std::alloc::Global;

/// A message, as it is shown, whose payload is lent.
#[derive(Clone, Copy)]
pub struct Lent<'a> {
    pub place: Place,
    pub log_time: u64,
    pub publish_time: u64,
    pub channel: u16,
    pub sequence: u32,
    pub payload: &'a [u8],
}

/// A message that is lent.
#[inline(always)]
pub fn lend(shown: &Shown) -> Lent<'_>
    ensures { shown_of result ≡ shown.now }
{
    Lent {
        place: shown.place,
        log_time: shown.log_time,
        publish_time: shown.publish_time,
        channel: shown.channel,
        sequence: shown.sequence,
        payload: shown.payload.as_slice(),
    }
}

/// A copy of it.
pub(crate) fn copy_of(alloc: Global, lent: &Lent) -> Result<Shown, Memory>
    ensures { IfOk result (λ copy. copy ≡ shown_of lent.now) }
{
    match Bytes::copied(alloc, lent.payload) {
        Ok(payload) => {
            return Ok(Shown {
                place: lent.place,
                log_time: lent.log_time,
                publish_time: lent.publish_time,
                channel: lent.channel,
                sequence: lent.sequence,
                payload,
            });
        }
        Err(memory) => return Err(memory),
    }
}
