//! The CRC of the summary.
ghost use Rattle.std.specs.Prelude.{◌≡◌, ◌↔◌, ◌+◌, ℕ, List, IsTrue};
ghost use Rattle.mcap_wire.specs.Layout.{part};
ghost use Rattle.mcap_model.specs.Tops.{Top};
ghost use Rattle.mcap_model.specs.Fields.{IsFooter};
ghost use Rattle.mcap_model.specs.Whole.{offset_of, is_last, V16};

use mcap_crc::crc_of;
use rec_data::Footer;

/// Whether the CRC in a Footer is that of the bytes from the summary's start through the first 25 bytes of the Footer, where
/// it names a summary and a CRC.
pub fn is_crc_right(covered: &[u8], footer: &Footer) -> bool
    ensures { (file : List ℕ) (tops : List Top) (n : ℕ) (t : Top) → is_last tops n
        → IsFooter t footer.now.summary_start footer.now.summary_offset_start footer.now.summary_crc
        → covered.now ≡ part footer.now.summary_start (offset_of tops n + 25) file → IsTrue result ↔ V16 file tops n t }
{
    if footer.summary_start == 0 {
        return true;
    }
    if footer.summary_crc == 0 {
        return true;
    }
    return footer.summary_crc == crc_of(covered);
}
