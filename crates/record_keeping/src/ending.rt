//! The end of a new file, and of the reading of its source.
ghost use Rattle.std.specs.Prelude.{◌≡◌};
ghost use Rattle.chunk_writer.specs.declared.phase.Phase.TheVariants as phases;
ghost use Rattle.chunk_writer.specs.Scribes.{phase_of};
ghost use Rattle.record_keeping.specs.Ending.{EndsFile};

use crate::keeping::Keeping;
use mcap_io::LiveStore;
use mcap_model::Stop;

/// Where a reading came to its end: after the Data End, or at a refusal that the reader keeps.
#[derive(Clone, Copy)]
pub enum Over {
    Ended { at: u64 },
    Refused,
}

/// How many messages, how many Schemas, Channels and Messages, and how many extras a new file was given.
#[derive(Clone, Copy)]
pub struct KeptCounts {
    pub messages: u64,
    pub records: u64,
    pub extras: u64,
}

/// Ends the new file, and says how much was kept; or why the writer stopped.
pub fn end_file<L: LiveStore>(k: Keeping<L>) -> (L, Result<KeptCounts, Stop>)
    requires going { phase_of k.scribe ≡ phases.Going }
    ensures ends { EndsFile L.state k (L.state result.0) result.1 }
{
    let mut k = k;
    let finished = k.scribe.finish();
    let Keeping {
        scribe,
        schemas: _,
        channels: _,
        messages,
        records,
        extras,
    } = k;
    let store = scribe.into_store();
    match finished.end {
        Ok(()) => return (
            store,
            Ok(KeptCounts {
                messages,
                records,
                extras,
            }),
        ),
        Err(stop) => return (store, Err(stop)),
    }
}
