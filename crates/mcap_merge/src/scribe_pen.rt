//! The scribe as the pen of a merge.
ghost use Rattle.chunk_writer.specs.Scribes.{store_of, phase_of};
ghost use Rattle.mcap_merge.specs.Pens.{AddsTo, EndsWithin, adds_none, adds_on, adds_all};

use crate::pen::Pen;
use chunk_writer::{Finished, Scribe};
use mcap_io::LiveStore;
use mcap_model::Stop;

impl<L: LiveStore> Pen for Scribe<L> {
    ghost adds = { λ before after extras records. AddsTo L.state before after extras records };

    ghost ends = { λ before after result. EndsWithin L.state before after result };

    ghost phase = { λ s. phase_of s };

    ghost failures = { λ s. (L.state (store_of s)).faults };

    ghost adds_none = { λ s. adds_none L.state s };

    ghost adds_on = { λ one two three extras others records behind first second. adds_on L.state one two three extras
        others records behind first second };

    ghost adds_all = { λ s stop extras records stopped. adds_all L.state s stop extras records stopped };

    fn put(&mut self, framed: &[u8]) -> Result<(), Stop> {
        match self.put_bytes(framed) {
            Ok(_) => return Ok(()),
            Err(stop) => return Err(stop),
        }
    }

    fn add_extra(&mut self, op: u8, content: &[u8]) -> Result<(), Stop> {
        Scribe::add_extra(self, op, content)
    }

    fn lack(&mut self) -> Stop {
        self.stop_for_memory()
    }

    fn finish(&mut self) -> Result<(), Stop> {
        let Finished {
            last: _,
            blocks: _,
            bytes: _,
            end,
        } = Scribe::finish(self);
        end
    }
}
