//! The messages of a file that lies in memory, in the order in which they stand in it.
ghost use Rattle.std.specs.Prelude.{◌≡◌};
ghost use Rattle.mcap_model.specs.Plain.{PlainScanned};

use crate::refusals::ReadingRefused;
use crate::replay::Replayed;
use crate::rules::Rule;
use crate::showing::add_messages;
use crate::tables::Tables;
use crate::taking::{FIRST_OFFSET, has_magic, take_record};
use crate::topics::topics_of;
use rec_data::DATA_END;
use std::alloc::Global;

/// The messages of a file in scan order, up to its Data End. A refusal says where the reading halts, and why.
pub fn scan_plain(alloc: Global, bytes: &[u8]) -> Result<Replayed, ReadingRefused>
    ensures { PlainScanned bytes.now result }
{
    if !has_magic(bytes) {
        return Err(ReadingRefused::Grammar {
            offset: 0,
            rule: Rule::V1,
        });
    }
    let mut tables = Tables::new(alloc);
    let mut shown = Vec::new(alloc);
    let mut at = FIRST_OFFSET;
    'records: loop {
        let cut = match take_record(alloc, &mut tables, bytes, at) {
            Ok(cut) => cut,
            Err(why) => return Err(why),
        };
        let content = &bytes[cut.from as usize..cut.to as usize];
        match add_messages(alloc, &mut shown, at as u64, cut.op, content) {
            Ok(()) => {}
            Err(_) => return Err(ReadingRefused::Memory),
        }
        if cut.op == DATA_END {
            match topics_of(alloc, &tables, &shown) {
                Ok(topics) => return Ok(Replayed { topics, shown }),
                Err(_) => return Err(ReadingRefused::Memory),
            }
        }
        at = cut.to as usize;
    }
}
