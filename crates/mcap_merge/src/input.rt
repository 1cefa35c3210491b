//! What is held of an input: its profile, its declarations, its extras (Attachments, Metadata and records of applications),
//! where its messages stand, and which channels have some.
ghost use Rattle.std.specs.Prelude.{◌≡◌, length, OnOk, IfOk};
ghost use Rattle.mcap_model.specs.Made.{top};
ghost use Rattle.mcap_model.specs.declared.refusals.ReadingRefused.{ReadingRefused as Refusal};
ghost use Rattle.mcap_scan.specs.declared.reader.Stage.TheVariants as stages;
ghost use Rattle.mcap_scan.specs.Scanning.{content_of, tables_of};
ghost use Rattle.mcap_merge.specs.Inputs.{extra_top, extra_tops, ReadsInput, KeepsExtra, ReadsProfile, KeepsProfile, HoldsRecord, HoldsNothing, IsInputOf};

use crate::marks::{mark_channels, no_marks};
use mcap_io::Source;
use mcap_model::{ReadingRefused, Tables};
use mcap_scan::{MessageHead, Reader, Step};
use mcap_wire::{Bytes, Memory, Text};
use merge_walk::{Span, note_spans};
use rec_data::{APPLICATION, ATTACHMENT, Header, METADATA};
use std::alloc::Global;

/// An Attachment, a Metadata or a record of an application, as it stands at top level of a file.
#[derive(Drop)]
pub struct Extra {
    pub op: u8,
    pub content: Bytes,
}

/// What is held of an input that was read to its Data End.
#[derive(Drop)]
pub struct Input {
    pub profile: Text,
    pub tables: Tables,
    pub extras: Vec<Extra>,
    pub spans: Vec<Span>,
    // At each id whether a message is on the channel.
    pub used: Vec<bool>,
}

// Keeps the record, if it is an Attachment, a Metadata or one of an application.
fn keep_extra(alloc: Global, extras: &mut Vec<Extra>, op: u8, content: &[u8]) -> Result<(), Memory>
    ensures { OnOk result (KeepsExtra (top op content.now) extras.old.items extras.new.items) }
{
    if op != ATTACHMENT && op != METADATA && op < APPLICATION {
        return Ok(());
    }
    let content = Bytes::copied(alloc, content)?;
    match extras.push(Extra { op, content }) {
        Ok(()) => return Ok(()),
        Err(_) => return Err(Memory),
    }
}

// The profile of the first record, which is a Header.
fn profile_of(alloc: Global, content: &[u8]) -> Result<Text, Memory>
    ensures { ReadsProfile content.now result }
{
    let header = match Header::parse(content) {
        Ok(header) => header,
        Err(_) => return Err(Memory),
    };
    Text::copied(alloc, header.profile)
}

// Why a reading was refused.
fn refusal_of(reader: Reader) -> ReadingRefused
    ensures { (why : Refusal) → reader.stage ≡ stages.Stopped why → result ≡ why }
{
    match reader.into_refusal() {
        Some(why) => return why,
        None => return ReadingRefused::Memory,
    }
}

/// What is held of the records so far.
#[derive(Drop)]
pub struct Holding {
    pub profile: Text,
    pub extras: Vec<Extra>,
    pub spans: Vec<Span>,
    pub used: Vec<bool>,
    // The messages of the record that was held last, whose room is kept for the next.
    pub heads: Vec<MessageHead>,
}

// Keeps the profile of the first record.
fn keep_profile(
    alloc: Global,
    profile: &mut Text,
    offset: u64,
    content: &[u8],
) -> Result<(), Memory>
    ensures { OnOk result (KeepsProfile offset content.now profile.old profile.new) }
{
    if offset != 8 {
        return Ok(());
    }
    match profile_of(alloc, content) {
        Ok(first) => {
            *profile = first;
            return Ok(());
        }
        Err(memory) => return Err(memory),
    }
}

/// Holds what there is of the record that was read last, which stands at that offset.
pub fn hold(
    alloc: Global,
    held: &mut Holding,
    reader: &Reader,
    op: u8,
    offset: u64,
) -> Result<(), Memory>
    requires { length held.old.used.items ≡ 65536 }
    ensures holds { OnOk result (HoldsRecord offset (top op (content_of reader.now)) held.old held.new) }
    ensures sized { length held.new.used.items ≡ 65536 }
{
    match note_spans(
        &mut held.spans,
        &mut held.heads,
        op,
        offset,
        reader.content(),
    ) {
        Ok(()) => {}
        Err(memory) => return Err(memory),
    }
    mark_channels(&mut held.used, held.heads.as_slice());
    match keep_extra(alloc, &mut held.extras, op, reader.content()) {
        Ok(()) => {}
        Err(memory) => return Err(memory),
    }
    match keep_profile(alloc, &mut held.profile, offset, reader.content()) {
        Ok(()) => return Ok(()),
        Err(memory) => return Err(memory),
    }
}

/// Nothing is held yet.
pub fn hold_nothing(alloc: Global) -> Result<Holding, Memory>
    ensures { IfOk result HoldsNothing }
{
    let profile = match Text::copied(alloc, "") {
        Ok(profile) => profile,
        Err(memory) => return Err(memory),
    };
    match no_marks(alloc) {
        Ok(used) => {
            return Ok(Holding {
                profile,
                extras: Vec::new(alloc),
                spans: Vec::new(alloc),
                used,
                heads: Vec::new(alloc),
            });
        }
        Err(memory) => return Err(memory),
    }
}

/// What is held at the end, with the declarations.
pub fn input_of(held: Holding, reader: Reader) -> Input
    ensures { IsInputOf held (tables_of reader) result }
{
    let Holding {
        profile,
        extras,
        spans,
        used,
        heads: _,
    } = held;
    Input {
        profile,
        tables: reader.into_tables(),
        extras,
        spans,
        used,
    }
}

/// Reads a source to its Data End, and holds what it has.
pub(crate) fn read_input<S: Source>(alloc: Global, source: &mut S) -> Result<Input, ReadingRefused>
    ensures reads { ReadsInput (S.state source.old) (S.state source.new) result }
    ensures stays { S.stays source.old source.new }
{
    let mut reader = match Reader::new(alloc) {
        Ok(reader) => reader,
        Err(_) => return Err(ReadingRefused::Memory),
    };
    let mut held = match hold_nothing(alloc) {
        Ok(held) => held,
        Err(_) => return Err(ReadingRefused::Memory),
    };
    'records: loop {
        match reader.advance(source) {
            Step::Record { op, offset } => match hold(alloc, &mut held, &reader, op, offset) {
                Ok(()) => {}
                Err(_) => return Err(ReadingRefused::Memory),
            },
            Step::End { offset: _ } => return Ok(input_of(held, reader)),
            Step::Refused => return Err(refusal_of(reader)),
        }
    }
}
