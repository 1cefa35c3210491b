//! Keeping what records show, in a new file that is being written.
ghost use Rattle.std.specs.Prelude.{◌≡◌, ◌+◌, ◌∷◌, [], ℕ, List, IfErr, OnOk};
ghost use Rattle.mcap_wire.specs.Layout.{framed};
ghost use Rattle.rec_data.specs.declared.owned.Rec.{Rec};
ghost use Rattle.mcap_io.specs.Outside.{LiveState};
ghost use Rattle.rec_data.specs.Records.{schema_opcode, channel_opcode, message_opcode, ShowsSchema, ShowsChannel};
ghost use Rattle.rec_data.specs.Parsed.{schema_fields, channel_fields};
ghost use Rattle.mcap_model.specs.Tops.{Top};
ghost use Rattle.mcap_model.specs.Made.{top};
ghost use Rattle.mcap_model.specs.History.{is_message};
ghost use Rattle.mcap_model.specs.ReadBack.{IsExtra};
ghost use Rattle.mcap_model.specs.Repaired.{is_extra};
ghost use Rattle.mcap_model.specs.Rules.{V6, V10};
ghost use Rattle.chunk_build.specs.Chunker.{AreFramed, AreInner};
ghost use Rattle.chunk_writer.specs.declared.phase.Phase.TheVariants as phases;
ghost use Rattle.chunk_writer.specs.Stops.{Cause};
ghost use Rattle.chunk_writer.specs.Scribes.{ScribeGrows, GathersExtra, KeepsOn, store_of, phase_of};
ghost use Rattle.record_keeping.specs.Keeping.{AddsFlatRecords, AddsOneRecord, AddsRecords, CountsSo, IsFrame, counted, extras_of};

use crate::ids::declare;
use chunk_writer::Scribe;
use indexmap::IndexSet;
use mcap_io::LiveStore;
use mcap_model::{RecordView, Stop, view_record};
use mcap_wire::{HEAD_LENGTH, add_bytes, add_head, make_room};
use rec_data::{APPLICATION, ATTACHMENT, Channel, MESSAGE, METADATA, Schema};
use std::alloc::Global;

/// The scribe of the new file, the ids of the Schemas and of the Channels in it, and how many messages, records and extras it
/// was given.
#[derive(Drop)]
pub struct Keeping<L> {
    pub scribe: Scribe<L>,
    pub schemas: IndexSet<u16>,
    pub channels: IndexSet<u16>,
    pub messages: u64,
    pub records: u64,
    pub extras: u64,
}

/// Nothing is kept yet.
pub fn keeping_of<L>(alloc: Global, scribe: Scribe<L>) -> Keeping<L>
    ensures scribe { result.scribe ≡ scribe }
    ensures counts { CountsSo [] [] result }
{
    Keeping {
        scribe,
        schemas: IndexSet::new(alloc),
        channels: IndexSet::new(alloc),
        messages: 0,
        records: 0,
        extras: 0,
    }
}

// Puts a framed record that is no extra behind the others, and counts it.
fn put<L: LiveStore>(k: &mut Keeping<L>, framed: &[u8]) -> Result<(), Stop>
    requires going { phase_of k.old.scribe ≡ phases.Going }
    requires framed { (r : Rec) × AreInner framed.now r }
    ensures grows { (r : Rec) → AreFramed framed.now r → ScribeGrows L.state k.old.scribe k.new.scribe (r ∷ []) }
    ensures counts { phase_of k.new.scribe ≡ phases.Going → k.new.records ≡ counted (k.old.records + 1) }
    ensures same { (k.new.schemas ≡ k.old.schemas) × (k.new.channels ≡ k.old.channels)
        × (k.new.messages ≡ k.old.messages) × (k.new.extras ≡ k.old.extras) }
    ensures goes_on { OnOk result (phase_of k.new.scribe ≡ phases.Going) }
    ensures stopped { IfErr result (λ stop. phase_of k.new.scribe ≡ phases.Stopped stop) }
    ensures keeps { KeepsOn (L.state (store_of k.old.scribe)).held (L.state (store_of k.new.scribe)).held }
    ensures cause { Cause (L.state (store_of k.old.scribe)).faults (L.state (store_of k.new.scribe)).faults result }
{
    k.scribe.put_bytes(framed)?;
    k.records = k.records.saturating_add(1);
    return Ok(());
}

/// Keeps the Message that the bytes frame.
pub fn keep_message<L: LiveStore>(
    k: &mut Keeping<L>,
    bytes: &[u8],
    content: &[u8],
) -> Result<(), Stop>
    requires going { phase_of k.old.scribe ≡ phases.Going }
    requires v6 { V6 (top message_opcode content.now) }
    requires is { bytes.now ≡ framed message_opcode content.now }
    ensures takes { AddsFlatRecords L.state k.old k.new (top message_opcode content.now ∷ []) }
    ensures goes_on { OnOk result (phase_of k.new.scribe ≡ phases.Going) }
    ensures stopped { IfErr result (λ stop. phase_of k.new.scribe ≡ phases.Stopped stop) }
    ensures keeps { KeepsOn (L.state (store_of k.old.scribe)).held (L.state (store_of k.new.scribe)).held }
    ensures cause { Cause (L.state (store_of k.old.scribe)).faults (L.state (store_of k.new.scribe)).faults result }
{
    match put(k, bytes) {
        Ok(()) => {}
        Err(stop) => return Err(stop),
    }
    k.messages = k.messages.saturating_add(1);
    return Ok(());
}

/// Keeps the Message of that content, whose head isn't at hand.
pub fn keep_lone_message<L: LiveStore>(
    alloc: Global,
    k: &mut Keeping<L>,
    content: &[u8],
) -> Result<(), Stop>
    requires going { phase_of k.old.scribe ≡ phases.Going }
    requires v6 { V6 (top message_opcode content.now) }
    ensures takes { AddsFlatRecords L.state k.old k.new (top message_opcode content.now ∷ []) }
    ensures goes_on { OnOk result (phase_of k.new.scribe ≡ phases.Going) }
    ensures stopped { IfErr result (λ stop. phase_of k.new.scribe ≡ phases.Stopped stop) }
    ensures keeps { KeepsOn (L.state (store_of k.old.scribe)).held (L.state (store_of k.new.scribe)).held }
    ensures cause { Cause (L.state (store_of k.old.scribe)).faults (L.state (store_of k.new.scribe)).faults result }
{
    let mut bytes = Vec::new(alloc);
    match make_room(&mut bytes, HEAD_LENGTH as usize + content.len()) {
        Ok(()) => {}
        Err(_) => return Err(k.scribe.stop_for_memory()),
    }
    add_head(&mut bytes, MESSAGE, content.len() as u64);
    add_bytes(&mut bytes, content);
    return keep_message(k, bytes.as_slice(), content);
}

/// Keeps the Schema of that content, if it is the first of its id. Bytes behind its fields are dropped.
pub fn keep_schema<L: LiveStore>(
    alloc: Global,
    k: &mut Keeping<L>,
    schema: &Schema,
) -> Result<(), Stop>
    requires going { phase_of k.old.scribe ≡ phases.Going }
    requires shown { (content : List ℕ) × ShowsSchema content schema.now.id (schema_fields schema.now) }
    ensures takes { (content : List ℕ) → ShowsSchema content schema.now.id (schema_fields schema.now)
        → AddsFlatRecords L.state k.old k.new (top schema_opcode content ∷ []) }
    ensures goes_on { OnOk result (phase_of k.new.scribe ≡ phases.Going) }
    ensures stopped { IfErr result (λ stop. phase_of k.new.scribe ≡ phases.Stopped stop) }
    ensures keeps { KeepsOn (L.state (store_of k.old.scribe)).held (L.state (store_of k.new.scribe)).held }
    ensures cause { Cause (L.state (store_of k.old.scribe)).faults (L.state (store_of k.new.scribe)).faults result }
{
    match declare(&mut k.schemas, schema.id) {
        Ok(true) => {}
        Ok(false) => return Ok(()),
        Err(_) => return Err(k.scribe.stop_for_memory()),
    }
    let mut bytes = Vec::new(alloc);
    match schema.frame(&mut bytes) {
        Ok(()) => {}
        Err(_) => return Err(k.scribe.stop_for_memory()),
    }
    return put(k, bytes.as_slice());
}

/// Does the same with a Channel. The order of its metadata stays.
pub fn keep_channel<L: LiveStore>(
    alloc: Global,
    k: &mut Keeping<L>,
    channel: &Channel,
) -> Result<(), Stop>
    requires going { phase_of k.old.scribe ≡ phases.Going }
    requires shown { (content : List ℕ) × ShowsChannel content channel.now.id (channel_fields channel.now) }
    ensures takes { (content : List ℕ) → ShowsChannel content channel.now.id (channel_fields channel.now)
        → AddsFlatRecords L.state k.old k.new (top channel_opcode content ∷ []) }
    ensures goes_on { OnOk result (phase_of k.new.scribe ≡ phases.Going) }
    ensures stopped { IfErr result (λ stop. phase_of k.new.scribe ≡ phases.Stopped stop) }
    ensures keeps { KeepsOn (L.state (store_of k.old.scribe)).held (L.state (store_of k.new.scribe)).held }
    ensures cause { Cause (L.state (store_of k.old.scribe)).faults (L.state (store_of k.new.scribe)).faults result }
{
    match declare(&mut k.channels, channel.id) {
        Ok(true) => {}
        Ok(false) => return Ok(()),
        Err(_) => return Err(k.scribe.stop_for_memory()),
    }
    let mut bytes = Vec::new(alloc);
    match channel.frame(&mut bytes) {
        Ok(()) => {}
        Err(_) => return Err(k.scribe.stop_for_memory()),
    }
    return put(k, bytes.as_slice());
}

// Whether a record of that opcode is an extra at top level.
fn is_extra_kind(op: u8) -> bool
    ensures { result ≡ is_extra (top op []) }
{
    op == ATTACHMENT || op == METADATA || op >= APPLICATION
}

// Keeps an Attachment, a Metadata or a record of an application for the end of the file.
fn keep_extra<L: LiveStore>(k: &mut Keeping<L>, op: u8, content: &[u8]) -> Result<(), Stop>
    requires going { phase_of k.old.scribe ≡ phases.Going }
    requires meets { IsExtra (top op content.now) }
    ensures gathers { GathersExtra L.state k.old.scribe k.new.scribe (top op content.now) }
    ensures counts { phase_of k.new.scribe ≡ phases.Going → k.new.extras ≡ counted (k.old.extras + 1) }
    ensures same { (k.new.schemas ≡ k.old.schemas) × (k.new.channels ≡ k.old.channels)
        × (k.new.messages ≡ k.old.messages) × (k.new.records ≡ k.old.records) }
    ensures goes_on { OnOk result (phase_of k.new.scribe ≡ phases.Going) }
    ensures stopped { IfErr result (λ stop. phase_of k.new.scribe ≡ phases.Stopped stop) }
    ensures keeps { KeepsOn (L.state (store_of k.old.scribe)).held (L.state (store_of k.new.scribe)).held }
    ensures cause { Cause (L.state (store_of k.old.scribe)).faults (L.state (store_of k.new.scribe)).faults result }
{
    k.scribe.add_extra(op, content)?;
    k.extras = k.extras.saturating_add(1);
    return Ok(());
}

/// Keeps a record that shows no Schema, Channel or Message, where it is an extra and stands at top level.
pub fn keep_other<L: LiveStore>(
    k: &mut Keeping<L>,
    op: u8,
    content: &[u8],
    frame: Option<&[u8]>,
) -> Result<(), Stop>
    requires going { phase_of k.old.scribe ≡ phases.Going }
    requires v6 { V6 (top op content.now) }
    requires v10 { V10 (top op content.now) }
    ensures takes { AddsRecords L.state k.old k.new (extras_of frame.entry (top op content.now)) [] }
    ensures goes_on { OnOk result (phase_of k.new.scribe ≡ phases.Going) }
    ensures stopped { IfErr result (λ stop. phase_of k.new.scribe ≡ phases.Stopped stop) }
    ensures keeps { KeepsOn (L.state (store_of k.old.scribe)).held (L.state (store_of k.new.scribe)).held }
    ensures cause { Cause (L.state (store_of k.old.scribe)).faults (L.state (store_of k.new.scribe)).faults result }
{
    match frame {
        // No record of an application is kept from inside a chunk.
        Some(_) => return Ok(()),
        None => {
            if is_extra_kind(op) {
                return keep_extra(k, op, content);
            }
            return Ok(());
        }
    }
}

/// Keeps what a record shows. The frame is the record with its head, where it stands inside a chunk; at top level there is none, and
/// the record is kept where it is an extra.
pub fn keep_record<L: LiveStore>(
    alloc: Global,
    k: &mut Keeping<L>,
    op: u8,
    content: &[u8],
    frame: Option<&[u8]>,
) -> Result<(), Stop>
    requires going { phase_of k.old.scribe ≡ phases.Going }
    requires v6 { V6 (top op content.now) }
    requires v10 { V10 (top op content.now) }
    requires framed { IsFrame op content.now frame }
    ensures takes { AddsOneRecord L.state k.old k.new frame.entry (top op content.now) }
    ensures goes_on { OnOk result (phase_of k.new.scribe ≡ phases.Going) }
    ensures stopped { IfErr result (λ stop. phase_of k.new.scribe ≡ phases.Stopped stop) }
    ensures keeps { KeepsOn (L.state (store_of k.old.scribe)).held (L.state (store_of k.new.scribe)).held }
    ensures cause { Cause (L.state (store_of k.old.scribe)).faults (L.state (store_of k.new.scribe)).faults result }
{
    // Most records are Messages, whose fields aren't looked at.
    if op == MESSAGE {
        match frame {
            Some(bytes) => return keep_message(k, bytes, content),
            None => return keep_lone_message(alloc, k, content),
        }
    }
    match view_record(op, content) {
        RecordView::Message(_) => unreachable!(),
        RecordView::Schema(schema) => return keep_schema(alloc, k, &schema),
        RecordView::Channel(channel) => return keep_channel(alloc, k, &channel),
        RecordView::Header(_)
        | RecordView::Chunk(_)
        | RecordView::MessageIndex(_)
        | RecordView::Attachment(_)
        | RecordView::Metadata(_)
        | RecordView::Other => return keep_other(k, op, content, frame),
    }
}
