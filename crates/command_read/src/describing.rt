//! Telling of a file by its summary.
ghost use Rattle.command_base.specs.Scenes.{scene};
ghost use Rattle.command_base.specs.OneFile.{indexed_ending};
ghost use Rattle.command_base.proofs.Refusals.{indexed_is};
ghost use Rattle.command_read.specs.Info.{InfoComesTo, Describes};
ghost use Rattle.command_read.specs.Failing.{info_fails};

use crate::info::info_text;
use command_base::{
    Complaint, FileReading, Status, StoreReading, answer_store, index_lacks_memory,
    indexed_complaint,
};
use mcap_io::{Sink, Store, World, write_all_of};
use mcap_model::IndexedRefused;
use mcap_wire::Bytes;
use std::alloc::Global;
use summary_read::load;

/// The line that tells of a file.
#[derive(Clone, Copy)]
pub struct Describing {
    pub alloc: Global,
}

impl FileReading for Describing {
    type Read = Bytes;

    type Refused = IndexedRefused;

    ghost text = { λ s text. text };

    ghost ending = { λ s file why. indexed_ending file why };

    // It takes no memory.
    fn print<O: Sink>(&self, out: &mut O, read: &mut Bytes) -> bool {
        let text = read.as_slice();
        if text.is_empty() {
            return false;
        }
        match write_all_of(out, text) {
            Ok(()) => return false,
            Err(_) => return true,
        }
    }

    fn complaint<'a>(&self, file: &'a str, why: &'a IndexedRefused) -> Option<Complaint<'a>> {
        indexed_complaint(file, why)
    }

    fn lacks_memory(&self, why: &IndexedRefused) -> bool {
        index_lacks_memory(why)
    }

    ghost refuses = { λ s file why. indexed_is file why };
}

impl StoreReading for Describing {
    ghost comes = { λ s before now came. InfoComesTo before now came };

    fn read_store<T: Store>(&self, store: &mut T) -> Result<Bytes, IndexedRefused> {
        let loaded = match load(self.alloc, store) {
            Ok(loaded) => loaded,
            Err(why) => return Err(why),
        };
        info_text(self.alloc, &loaded)
    }

    ghost fails = { λ s before now file why comes unused e. info_fails before now file why comes unused e };
}

/// Prints on `out` what the Header and the summary of the file under the name tell, as one line of JSON, and answers the
/// status: refused where the file breaks a rule there, or has no summary or no Statistics. Only the ends of the file and its
/// summary are read.
pub fn describe_file<W: World, O: Sink, E: Sink>(
    alloc: Global,
    file: &str,
    world: &mut W,
    out: &mut O,
    err: &mut E,
) -> Status
    ensures { Describes file.now
        (scene (W.state world.old) (O.state out.old) (E.state err.old))
        (scene (W.state world.new) (O.state out.new) (E.state err.new))
        result }
{
    let what = Describing { alloc };
    answer_store(&what, file, world, out, err)
}
