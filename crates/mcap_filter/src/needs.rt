//! Putting a message after what it needs, in a new file that is being written.
ghost use Rattle.std.specs.Prelude.{◌≡◌, ◌∷◌, [], ℕ, List, IfErr, OnOk};
ghost use Rattle.rec_data.specs.Records.{message_opcode, ShowsChannel};
ghost use Rattle.rec_data.specs.Parsed.{channel_fields};
ghost use Rattle.mcap_model.specs.Made.{top};
ghost use Rattle.mcap_model.specs.Rules.{V6};
ghost use Rattle.chunk_writer.specs.declared.phase.Phase.TheVariants as phases;
ghost use Rattle.chunk_writer.specs.Stops.{Cause};
ghost use Rattle.chunk_writer.specs.Scribes.{KeepsOn, store_of, phase_of};
ghost use Rattle.record_keeping.specs.Keeping.{AddsFlatRecords, IsFrame};
ghost use Rattle.mcap_filter.specs.Picking.{Notes, PutsNeeds, PutsSchema, PutsChannel};

use mcap_io::LiveStore;
use mcap_model::{Stop, Table};
use mcap_wire::Memory;
use rec_data::{Channel, Schema};
use record_keeping::{Keeping, keep_channel, keep_lone_message, keep_message, keep_schema};
use std::alloc::Global;

/// Notes the content of a declaration, if it is the first of its id.
pub(crate) fn note(alloc: Global, table: &mut Table, id: u16, content: &[u8]) -> Result<(), Memory>
    ensures { OnOk result (Notes table.old table.new id content.now) }
{
    match table.find(id) {
        Some(_) => return Ok(()),
        None => return table.add(alloc, id, content),
    }
}

// Puts the Schema of that id, unless it stands in the file; a Channel without one says 0.
fn put_schema<L: LiveStore>(
    alloc: Global,
    k: &mut Keeping<L>,
    schemas: &Table,
    id: u16,
) -> Result<(), Stop>
    requires going { phase_of k.old.scribe ≡ phases.Going }
    ensures takes { PutsSchema L.state k.old k.new schemas.now id }
    ensures goes_on { OnOk result (phase_of k.new.scribe ≡ phases.Going) }
    ensures stopped { IfErr result (λ stop. phase_of k.new.scribe ≡ phases.Stopped stop) }
    ensures keeps { KeepsOn (L.state (store_of k.old.scribe)).held (L.state (store_of k.new.scribe)).held }
    ensures cause { Cause (L.state (store_of k.old.scribe)).faults (L.state (store_of k.new.scribe)).faults result }
{
    if id == 0 {
        return Ok(());
    }
    let content = match schemas.find(id) {
        Some(content) => content,
        None => return Ok(()),
    };
    match Schema::parse(content) {
        Ok(schema) => return keep_schema(alloc, k, &schema),
        Err(_) => return Ok(()),
    }
}

/// Puts a Channel after its Schema, unless they stand in the file.
pub(crate) fn put_needs<L: LiveStore>(
    alloc: Global,
    k: &mut Keeping<L>,
    schemas: &Table,
    channel: &Channel,
) -> Result<(), Stop>
    requires going { phase_of k.old.scribe ≡ phases.Going }
    requires shown { (content : List ℕ) × ShowsChannel content channel.now.id (channel_fields channel.now) }
    ensures takes { (content : List ℕ) → ShowsChannel content channel.now.id (channel_fields channel.now)
        → PutsNeeds L.state k.old k.new schemas.now channel.now.schema_id content }
    ensures goes_on { OnOk result (phase_of k.new.scribe ≡ phases.Going) }
    ensures stopped { IfErr result (λ stop. phase_of k.new.scribe ≡ phases.Stopped stop) }
    ensures keeps { KeepsOn (L.state (store_of k.old.scribe)).held (L.state (store_of k.new.scribe)).held }
    ensures cause { Cause (L.state (store_of k.old.scribe)).faults (L.state (store_of k.new.scribe)).faults result }
{
    put_schema(alloc, k, schemas, channel.schema_id)?;
    return keep_channel(alloc, k, channel);
}

/// Puts the Channel of that id and content after its Schema, unless it was put before.
pub(crate) fn put_channel<L: LiveStore>(
    alloc: Global,
    k: &mut Keeping<L>,
    schemas: &Table,
    id: u16,
    content: &[u8],
) -> Result<(), Stop>
    requires going { phase_of k.old.scribe ≡ phases.Going }
    ensures takes { PutsChannel L.state k.old k.new schemas.now id content.now }
    ensures goes_on { OnOk result (phase_of k.new.scribe ≡ phases.Going) }
    ensures stopped { IfErr result (λ stop. phase_of k.new.scribe ≡ phases.Stopped stop) }
    ensures keeps { KeepsOn (L.state (store_of k.old.scribe)).held (L.state (store_of k.new.scribe)).held }
    ensures cause { Cause (L.state (store_of k.old.scribe)).faults (L.state (store_of k.new.scribe)).faults result }
{
    if k.channels.contains(&id) {
        return Ok(());
    }
    match Channel::parse(content) {
        Ok(channel) => return put_needs(alloc, k, schemas, &channel),
        Err(_) => return Ok(()),
    }
}

/// Puts the Message of that content, whose head may be at hand.
pub(crate) fn put_message<L: LiveStore>(
    alloc: Global,
    k: &mut Keeping<L>,
    content: &[u8],
    frame: Option<&[u8]>,
) -> Result<(), Stop>
    requires going { phase_of k.old.scribe ≡ phases.Going }
    requires v6 { V6 (top message_opcode content.now) }
    requires framed { IsFrame message_opcode content.now frame }
    ensures takes { AddsFlatRecords L.state k.old k.new (top message_opcode content.now ∷ []) }
    ensures goes_on { OnOk result (phase_of k.new.scribe ≡ phases.Going) }
    ensures stopped { IfErr result (λ stop. phase_of k.new.scribe ≡ phases.Stopped stop) }
    ensures keeps { KeepsOn (L.state (store_of k.old.scribe)).held (L.state (store_of k.new.scribe)).held }
    ensures cause { Cause (L.state (store_of k.old.scribe)).faults (L.state (store_of k.new.scribe)).faults result }
{
    match frame {
        Some(bytes) => return keep_message(k, bytes, content),
        None => return keep_lone_message(alloc, k, content),
    }
}
