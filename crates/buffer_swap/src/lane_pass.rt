//! A publisher as the pass of a lane: its calls wait for the turn.
ghost use Rattle.std.specs.Prelude.{◌≡◌, [], true};
ghost use Rattle.buffer_swap.specs.Calls.{reasoned};

use crate::seats::Publisher;
use feed_lane::Pass;
use rec_data::ChannelDef;
use record_core::{CallRefused, Declared, NewMessage};
use std::sync::Wait;

/// A publisher, the runtime by which it waits, and whether its calls wait for room too, so that none is answered that the buffer is full.
#[derive(Drop)]
pub struct LanePass<'r, 't, R: Wait> {
    pub rt: &'r R,
    pub publisher: Publisher<'t>,
    pub lossless: bool,
}

impl<R: Wait> Pass for LanePass<'_, '_, R> {
    ghost use Rattle.std.specs.Prelude.{◌≡◌, [], ◌∷◌, ◌++◌, true};
    ghost use Rattle.std.proofs.Common.{ap};
    ghost use Rattle.record_core.specs.declared.answers.CallRefused.TheVariants.{TooLarge};
    ghost use Rattle.feed_lane.specs.Pass.{PassState};
    ghost use Rattle.buffer_swap.specs.Calls.{reasoned, NamesSchema};

    // It is the same publisher, of the same turn, waits for room as before, and shows what that publisher shows.
    ghost since = { λ begun now shown. (now.publisher.seat.table_id ≡ begun.publisher.seat.table_id)
        × (now.publisher.number ≡ begun.publisher.number) × (now.lossless ≡ begun.lossless)
        × (shown ≡ reasoned now.publisher.seat.me.0.pass shown.reasons) × (now.lossless ≡ true → shown.fulls ≡ []) };

    ghost knows = { λ pass schema. NamesSchema pass.publisher.seat.me.0.pass pass.publisher.last schema };

    fn declare(&mut self, channel: &ChannelDef) -> Result<Declared, CallRefused> {
        if self.lossless {
            return self.publisher.declare_lossless(self.rt, channel);
        }
        self.publisher.declare(self.rt, channel)
    }

    fn declare_like(&mut self, channel: &ChannelDef) -> Result<Declared, CallRefused> {
        let last = Some(self.publisher.last());
        if self.lossless {
            return self
                .publisher
                .declare_lossless_sharing(self.rt, channel, last);
        }
        self.publisher.declare_sharing(self.rt, channel, last)
    }

    fn publish(&mut self, m: &NewMessage<'_>) -> Result<u64, CallRefused> {
        if self.lossless {
            return self.publisher.publish_lossless(self.rt, m);
        }
        self.publisher.publish(self.rt, m)
    }

    ghost refuses_size = { λ begun now before len over shows. (shows.0, shows.1, shows.2, ap (λ (p : PassState). record p { reasons = before.reasons ++ TooLarge len ∷ [] }) shows.3, shows.4) };
}
