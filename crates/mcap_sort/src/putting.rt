//! Putting a message after what it needs.
ghost use Rattle.std.specs.Prelude.{◌≡◌, [], IfErr, OnOk};
ghost use Rattle.chunk_writer.specs.declared.phase.Phase.TheVariants as phases;
ghost use Rattle.chunk_writer.specs.Stops.{Cause};
ghost use Rattle.chunk_writer.specs.Scribes.{store_of, phase_of};
ghost use Rattle.rec_data.specs.Records.{message_opcode};
ghost use Rattle.mcap_model.specs.Made.{top};
ghost use Rattle.mcap_model.specs.Places.{Each};
ghost use Rattle.mcap_model.specs.ReadBack.{IsExtra};
ghost use Rattle.mcap_model.specs.Rules.{V6};
ghost use Rattle.mcap_merge.specs.Inputs.{extra_top, extra_tops};
ghost use Rattle.record_keeping.specs.Keeping.{AddsRecords};
ghost use Rattle.mcap_sort.specs.Putting.{PutsSchema, PutsNeeds, PutsMessage};

use mcap_io::LiveStore;
use mcap_merge::Extra;
use mcap_model::{Stop, Table, Tables};
use mcap_wire::{HEAD_LENGTH, add_bytes, add_head, make_room};
use rec_data::{MESSAGE, Schema};
use record_keeping::{Keeping, keep_channel, keep_message, keep_other, keep_schema};
use std::alloc::Global;

// Puts the Schema of that id, unless it stands in the file; a Channel without one says 0.
fn put_schema<L: LiveStore>(
    alloc: Global,
    k: &mut Keeping<L>,
    schemas: &Table,
    id: u16,
) -> Result<(), Stop>
    requires going { phase_of k.old.scribe ≡ phases.Going }
    ensures takes { PutsSchema L.state k.old k.new schemas.now id }
    ensures goes_on { OnOk result (phase_of k.new.scribe ≡ phases.Going) }
    ensures stopped { IfErr result (λ stop. phase_of k.new.scribe ≡ phases.Stopped stop) }
    ensures cause { Cause (L.state (store_of k.old.scribe)).faults (L.state (store_of k.new.scribe)).faults result }
{
    if id == 0 {
        return Ok(());
    }
    let content = match schemas.find(id) {
        Some(content) => content,
        None => return Ok(()),
    };
    match Schema::parse(content) {
        Ok(schema) => return keep_schema(alloc, k, &schema),
        Err(_) => return Ok(()),
    }
}

// Puts the Channel of that id after its schema, unless they stand in the file.
fn put_needs<L: LiveStore>(
    alloc: Global,
    k: &mut Keeping<L>,
    declared: &Tables,
    id: u16,
) -> Result<(), Stop>
    requires going { phase_of k.old.scribe ≡ phases.Going }
    ensures takes { PutsNeeds L.state k.old k.new declared.now id }
    ensures goes_on { OnOk result (phase_of k.new.scribe ≡ phases.Going) }
    ensures stopped { IfErr result (λ stop. phase_of k.new.scribe ≡ phases.Stopped stop) }
    ensures cause { Cause (L.state (store_of k.old.scribe)).faults (L.state (store_of k.new.scribe)).faults result }
{
    let channel = match declared.channels.view(id) {
        Some(channel) => channel,
        None => return Ok(()),
    };
    match put_schema(alloc, k, &declared.schemas, channel.schema_id) {
        Ok(()) => {}
        Err(stop) => return Err(stop),
    }
    return keep_channel(alloc, k, &channel);
}

/// Puts the Message of that content on that channel after what it needs. What the vector held is replaced.
pub fn put_message<L: LiveStore>(
    alloc: Global,
    k: &mut Keeping<L>,
    declared: &Tables,
    framed: &mut Vec<u8>,
    id: u16,
    content: &[u8],
) -> Result<(), Stop>
    requires going { phase_of k.old.scribe ≡ phases.Going }
    requires v6 { V6 (top message_opcode content.now) }
    ensures takes { PutsMessage L.state k.old k.new declared.now id content.now }
    ensures goes_on { OnOk result (phase_of k.new.scribe ≡ phases.Going) }
    ensures stopped { IfErr result (λ stop. phase_of k.new.scribe ≡ phases.Stopped stop) }
    ensures cause { Cause (L.state (store_of k.old.scribe)).faults (L.state (store_of k.new.scribe)).faults result }
{
    match put_needs(alloc, k, declared, id) {
        Ok(()) => {}
        Err(stop) => return Err(stop),
    }
    framed.clear();
    match make_room(framed, HEAD_LENGTH as usize + content.len()) {
        Ok(()) => {}
        Err(_) => return Err(k.scribe.stop_for_memory()),
    }
    add_head(framed, MESSAGE, content.len() as u64);
    add_bytes(framed, content);
    return keep_message(k, framed.as_slice(), content);
}

/// Adds the extras, which wait for the end of the file.
pub fn put_extras<L: LiveStore>(extras: &[Extra], k: &mut Keeping<L>) -> Result<(), Stop>
    requires meet { Each (λ e. IsExtra (extra_top e)) extras.now }
    requires going { phase_of k.old.scribe ≡ phases.Going }
    ensures adds { AddsRecords L.state k.old k.new (extra_tops extras.now) [] }
    ensures goes_on { OnOk result (phase_of k.new.scribe ≡ phases.Going) }
    ensures stopped { IfErr result (λ stop. phase_of k.new.scribe ≡ phases.Stopped stop) }
    ensures cause { Cause (L.state (store_of k.old.scribe)).faults (L.state (store_of k.new.scribe)).faults result }
{
    'extras: for i in 0..extras.len() {
        let extra = &extras[i];
        match keep_other(k, extra.op, extra.content.as_slice(), None) {
            Ok(()) => {}
            Err(stop) => return Err(stop),
        }
    }
    return Ok(());
}
