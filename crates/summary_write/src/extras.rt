//! The indexes of Attachments and Metadata.
ghost use Rattle.std.specs.Prelude.{◌≡◌, ◌≤◌, ◌^◌, ◌++◌, OnOk, OnErr};
ghost use Rattle.rec_data.specs.Fields.{AttachmentFields, MetadataFields};
ghost use Rattle.rec_data.specs.Records.{attachment_opcode, metadata_opcode, ShowsAttachment, ShowsMetadata};
ghost use Rattle.summary_write.specs.Tally.{index_of_attachment, index_of_metadata};

use mcap_wire::{HEAD_LENGTH, Memory};
use rec_data::{Attachment, Metadata};
use rec_index::{AttachmentIndex, MetadataIndex};

/// Appends the Attachment Index of an Attachment of that content that stands at that offset.
pub(crate) fn add_attachment_index(
    framed: &mut Vec<u8>,
    at: u64,
    content: &[u8],
) -> Result<(), Memory>
    requires within { at ≤ 2 ^ 41 }
    requires meets { (f : AttachmentFields) × ShowsAttachment content.now f }
    ensures ok { OnOk result (framed.new.items
        ≡ framed.old.items ++ index_of_attachment (at, record { op = attachment_opcode; content = content.now })) }
    ensures err { OnErr result (framed.new.items ≡ framed.old.items) }
{
    match Attachment::parse(content) {
        Ok(attachment) => {
            let index = AttachmentIndex {
                offset: at,
                length: HEAD_LENGTH + content.len() as u64,
                log_time: attachment.log_time,
                create_time: attachment.create_time,
                data_size: attachment.payload.len() as u64,
                name: attachment.name,
                media_type: attachment.media_type,
            };
            return index.frame(framed);
        }
        Err(_) => unreachable!(),
    }
}

/// Appends the Metadata Index of a Metadata of that content that stands at that offset.
pub(crate) fn add_metadata_index(
    framed: &mut Vec<u8>,
    at: u64,
    content: &[u8],
) -> Result<(), Memory>
    requires within { at ≤ 2 ^ 41 }
    requires meets { (f : MetadataFields) × ShowsMetadata content.now f }
    ensures ok { OnOk result (framed.new.items
        ≡ framed.old.items ++ index_of_metadata (at, record { op = metadata_opcode; content = content.now })) }
    ensures err { OnErr result (framed.new.items ≡ framed.old.items) }
{
    match Metadata::parse(content) {
        Ok(metadata) => {
            let index = MetadataIndex {
                offset: at,
                length: HEAD_LENGTH + content.len() as u64,
                name: metadata.name,
            };
            return index.frame(framed);
        }
        Err(_) => unreachable!(),
    }
}
