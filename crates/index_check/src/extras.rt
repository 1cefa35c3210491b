//! The indexes of Attachments and of Metadata.
ghost use Rattle.std.specs.Prelude.{◌≡◌, ◌↔◌, ◌<◌, ◌++◌, ◌∷◌, [], ℕ, suc, false, List, length as size, IsTrue, OnOk};
ghost use Rattle.rec_data.specs.Records.{attachment_opcode, metadata_opcode, ShowsAttachment, ShowsMetadata};
ghost use Rattle.rec_data.specs.Parsed.{attachment_fields};
ghost use Rattle.rec_index.specs.Parsed.{attachment_index_fields, metadata_index_fields};
ghost use Rattle.mcap_model.specs.Places.{At, Each};
ghost use Rattle.mcap_model.specs.Tops.{Top, top_bytes, offset_behind};
ghost use Rattle.mcap_model.specs.Fields.{IsAttachmentIndex, IsMetadataIndex};
ghost use Rattle.mcap_model.specs.Whole.{AttachmentIndexIsRight, MetadataIndexIsRight};
ghost use Rattle.mcap_model.specs.Made.{top};
ghost use Rattle.index_check.specs.Spots.{FitsNamed, spot};
ghost use Rattle.index_check.specs.Extras.{IsOfAttachment, IsOfMetadata, AttachmentsOf, MetadataOf, AttachmentsNamed, MetadataNamed};

use crate::spots::{Naming, Spots};
use mcap_wire::{Memory, Text};
use rec_data::{Attachment, Metadata};
use rec_index::{AttachmentIndex, MetadataIndex};
use std::alloc::Global;

/// What an index repeats of an Attachment: the length of the whole record, its times in nanoseconds, the length of its
/// data, its name and its media type. Lengths are in bytes.
#[derive(Drop)]
pub struct AttachmentNote {
    pub length: u64,
    pub log_time: u64,
    pub create_time: u64,
    pub payload_length: u64,
    pub name: Text,
    pub media_type: Text,
}

/// What an index repeats of a Metadata record: the length of the whole record in bytes, and its name.
#[derive(Drop)]
pub struct MetadataNote {
    pub length: u64,
    pub name: Text,
}

/// The Attachments of a file, in its order, and which of them have an index so far.
#[derive(Drop)]
pub struct Attachments {
    pub spots: Spots,
    pub notes: Vec<AttachmentNote>,
}

/// The Metadata records of a file, in its order, and which of them have an index so far.
#[derive(Drop)]
pub struct MetadataList {
    pub spots: Spots,
    pub notes: Vec<MetadataNote>,
}

// Whether an index repeats what was noted.
fn is_of_attachment(note: &AttachmentNote, index: &AttachmentIndex<'_>) -> bool
    ensures { IsTrue result ↔ IsOfAttachment note.now (attachment_index_fields index.now) }
{
    index.length == note.length
        && index.log_time == note.log_time
        && index.create_time == note.create_time
        && index.data_size == note.payload_length
        && note.name.is(index.name)
        && note.media_type.is(index.media_type)
}

// Whether an index repeats what was noted.
fn is_of_metadata(note: &MetadataNote, index: &MetadataIndex<'_>) -> bool
    ensures { IsTrue result ↔ IsOfMetadata note.now (metadata_index_fields index.now) }
{
    index.length == note.length && note.name.is(index.name)
}

// Whether an Attachment that was named first is that of the index.
fn fits_attachment(naming: Naming, notes: &[AttachmentNote], index: &AttachmentIndex<'_>) -> bool
    ensures { IsTrue result
        ↔ FitsNamed (λ note. IsOfAttachment note (attachment_index_fields index.now)) notes.now naming }
{
    match naming {
        Naming::First { place } => match notes.get(place) {
            Some(note) => return is_of_attachment(note, index),
            None => return false,
        },
        Naming::Absent => return false,
        Naming::Again => return false,
    }
}

// Whether a Metadata record that was named first is that of the index.
fn fits_metadata(naming: Naming, notes: &[MetadataNote], index: &MetadataIndex<'_>) -> bool
    ensures { IsTrue result ↔ FitsNamed (λ note. IsOfMetadata note (metadata_index_fields index.now)) notes.now naming }
{
    match naming {
        Naming::First { place } => match notes.get(place) {
            Some(note) => return is_of_metadata(note, index),
            None => return false,
        },
        Naming::Absent => return false,
        Naming::Again => return false,
    }
}

impl Attachments {
    pub fn new(alloc: Global) -> Attachments
        ensures none { AttachmentsOf [] result }
        ensures empty { result.spots ≡ [] }
    {
        Attachments {
            spots: Spots::new(alloc),
            notes: Vec::new(alloc),
        }
    }

    /// Adds the Attachment that stands at that offset, behind the others, in a record of that length. After a want of memory
    /// what is kept is of no use.
    pub fn add(
        &mut self,
        alloc: Global,
        offset: u64,
        length: u64,
        attachment: &Attachment<'_>,
    ) -> Result<(), Memory>
        requires { Each (λ s. s.offset < offset) self.old.spots }
        ensures kept { OnOk result ((tops : List Top) (content : List ℕ) → AttachmentsOf tops self.old
            → offset ≡ offset_behind tops → length ≡ size (top_bytes (top attachment_opcode content))
            → ShowsAttachment content (attachment_fields attachment.now)
            → AttachmentsOf (tops ++ top attachment_opcode content ∷ []) self.new) }
        ensures unnamed { OnOk result (self.new.spots ≡ self.old.spots ++ spot offset false ∷ []) }
    {
        let Ok(name) = Text::copied(alloc, attachment.name) else {
            return Err(Memory);
        };
        let Ok(media_type) = Text::copied(alloc, attachment.media_type) else {
            return Err(Memory);
        };
        match self.spots.add(offset) {
            Ok(()) => {}
            Err(memory) => return Err(memory),
        }
        match self.notes.push(AttachmentNote {
            length,
            log_time: attachment.log_time,
            create_time: attachment.create_time,
            payload_length: attachment.payload.len() as u64,
            name,
            media_type,
        }) {
            Ok(()) => return Ok(()),
            Err(_) => return Err(Memory),
        }
    }

    /// Whether an Attachment Index, behind others, has the offset of an Attachment that none of them has, and repeats its
    /// length and its fields. It counts as an index of that Attachment from then on.
    pub fn take_index(&mut self, index: &AttachmentIndex<'_>) -> bool
        ensures right { (tops : List Top) (n : ℕ) → AttachmentsOf tops self.old → AttachmentsNamed tops n self.old
            → IsTrue result ↔ AttachmentIndexIsRight tops n (attachment_index_fields index.now) }
        ensures kept { (tops : List Top) → AttachmentsOf tops self.old → AttachmentsOf tops self.new }
        ensures named { (tops : List Top) (n : ℕ) (t : Top) → AttachmentsNamed tops n self.old → At tops n t
            → IsAttachmentIndex t (attachment_index_fields index.now) → AttachmentsNamed tops (suc n) self.new }
    {
        let naming = self.spots.name(index.offset);
        fits_attachment(naming, &self.notes, index)
    }
}

impl MetadataList {
    pub fn new(alloc: Global) -> MetadataList
        ensures none { MetadataOf [] result }
        ensures empty { result.spots ≡ [] }
    {
        MetadataList {
            spots: Spots::new(alloc),
            notes: Vec::new(alloc),
        }
    }

    /// Adds the Metadata record that stands at that offset, behind the others, in a record of that length. After a want of
    /// memory what is kept is of no use.
    pub fn add(
        &mut self,
        alloc: Global,
        offset: u64,
        length: u64,
        metadata: &Metadata<'_>,
    ) -> Result<(), Memory>
        requires { Each (λ s. s.offset < offset) self.old.spots }
        ensures kept { OnOk result ((tops : List Top) (content : List ℕ) → MetadataOf tops self.old
            → offset ≡ offset_behind tops → length ≡ size (top_bytes (top metadata_opcode content))
            → ShowsMetadata content (record { name = metadata.now.name.now; metadata = metadata.now.metadata })
            → MetadataOf (tops ++ top metadata_opcode content ∷ []) self.new) }
        ensures unnamed { OnOk result (self.new.spots ≡ self.old.spots ++ spot offset false ∷ []) }
    {
        let Ok(name) = Text::copied(alloc, metadata.name) else {
            return Err(Memory);
        };
        match self.spots.add(offset) {
            Ok(()) => {}
            Err(memory) => return Err(memory),
        }
        match self.notes.push(MetadataNote { length, name }) {
            Ok(()) => return Ok(()),
            Err(_) => return Err(Memory),
        }
    }

    /// Whether a Metadata Index, behind others, has the offset of a Metadata record that none of them has, and repeats its
    /// length and its name. It counts as an index of that record from then on.
    pub fn take_index(&mut self, index: &MetadataIndex<'_>) -> bool
        ensures right { (tops : List Top) (n : ℕ) → MetadataOf tops self.old → MetadataNamed tops n self.old
            → IsTrue result ↔ MetadataIndexIsRight tops n index.now.offset index.now.length index.now.name.now }
        ensures kept { (tops : List Top) → MetadataOf tops self.old → MetadataOf tops self.new }
        ensures named { (tops : List Top) (n : ℕ) (t : Top) → MetadataNamed tops n self.old → At tops n t
            → IsMetadataIndex t index.now.offset index.now.length index.now.name.now
            → MetadataNamed tops (suc n) self.new }
    {
        let naming = self.spots.name(index.offset);
        fits_metadata(naming, &self.notes, index)
    }
}
