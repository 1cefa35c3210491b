//! Writing bytes in pieces of a bounded length.
ghost use Rattle.mcap_io.specs.OutsideCalls.{WritesAll};
ghost use Rattle.time_player.specs.Printing.{CountsAllBut, piece_limit};

use mcap_io::{Short, Sink, write_all_of};

/// How many bytes a piece has at most.
const LIMIT: usize = 131_072;

/// Writes all of the bytes, so many at once that of those which a sink took before it failed no more than one piece isn't
/// counted.
pub(crate) fn write_in_pieces<K: Sink>(sink: &mut K, bytes: &[u8]) -> Result<(), Short>
    ensures written { WritesAll (K.state sink.old) (K.state sink.new) bytes.now result }
    ensures counted { CountsAllBut piece_limit (K.state sink.old).took (K.state sink.new).took result }
{
    let mut taken = 0usize;
    'pieces: while taken < bytes.len() {
        let end = taken.saturating_add(LIMIT).min(bytes.len());
        match write_all_of(sink, &bytes[taken..end]) {
            Ok(()) => taken = end,
            Err(short) => {
                return Err(Short {
                    taken: taken + short.taken,
                });
            }
        }
    }
    Ok(())
}
