//! Contents that are judged by themselves.
ghost use Rattle.std.specs.Prelude.{◌≡◌, ◌↔◌, ℕ, List, IsTrue};
ghost use Rattle.rec_data.specs.Records.{header_opcode, metadata_opcode, data_end_opcode};
ghost use Rattle.rec_index.specs.Records.{message_index_opcode};
ghost use Rattle.mcap_model.specs.Fields.{IsHeader, IsDataEnd, IsMetadata, IsMessageIndex};
ghost use Rattle.mcap_model.specs.Declarations.{AttachmentJudged};
ghost use Rattle.mcap_model.specs.Made.{top};

use crate::rules::Rule;
use mcap_crc::crc_of;
use rec_data::{Attachment, DataEnd, Header, Metadata, attachment_crc_place};
use rec_index::MessageIndex;

/// Whether the content is that of a Header.
pub(crate) fn is_header(content: &[u8]) -> bool
    ensures { IsTrue result ↔ IsHeader (top header_opcode content.now) }
{
    match Header::parse(content) {
        Ok(_) => return true,
        Err(_) => return false,
    }
}

/// Whether the content is that of a Data End.
pub(crate) fn is_data_end(content: &[u8]) -> bool
    ensures { IsTrue result ↔ IsDataEnd (top data_end_opcode content.now) }
{
    match DataEnd::parse(content) {
        Ok(_) => return true,
        Err(_) => return false,
    }
}

/// Whether the content is that of a Metadata.
pub(crate) fn is_metadata(content: &[u8]) -> bool
    ensures { IsTrue result
        ↔ ((name : List ℕ) × (pairs : List (List ℕ × List ℕ)) × IsMetadata (top metadata_opcode content.now) name pairs) }
{
    match Metadata::parse(content) {
        Ok(_) => return true,
        Err(_) => return false,
    }
}

/// Whether the content is that of a Message Index.
pub(crate) fn is_message_index(content: &[u8]) -> bool
    ensures { IsTrue result
        ↔ ((channel : ℕ) × (entries : List (ℕ × ℕ)) × IsMessageIndex (top message_index_opcode content.now) channel entries) }
{
    match MessageIndex::parse(content) {
        Ok(_) => return true,
        Err(_) => return false,
    }
}

/// The rule that the content of an Attachment breaks, if any.
pub(crate) fn attachment_breaks(content: &[u8]) -> Option<Rule>
    ensures { AttachmentJudged content.now result }
{
    let attachment = match Attachment::parse(content) {
        Ok(attachment) => attachment,
        Err(_) => return Some(Rule::V6),
    };
    let place = match attachment_crc_place(content) {
        Ok(place) => place,
        Err(_) => return Some(Rule::V6),
    };
    if attachment.crc == 0 {
        return None;
    }
    if attachment.crc == crc_of(&content[..place]) {
        return None;
    }
    return Some(Rule::V10);
}
