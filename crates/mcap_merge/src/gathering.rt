//! All that is known of a merge before anything is written.
ghost use Rattle.std.specs.Prelude.{◌≡◌, ◌<◌, ◌≤◌, List, length, map, IfOk, IfErr, OnOk};
ghost use Rattle.std.specs.List.{AllZip};
ghost use Rattle.mcap_model.specs.Tops.{Top};
ghost use Rattle.mcap_merge.specs.Contents.{IdsSuffice};
ghost use Rattle.mcap_merge.specs.Joining.{LackMet, WhyLacks};
ghost use Rattle.mcap_merge.specs.Writing.{extras_of};
ghost use Rattle.mcap_merge.specs.Inputs.{HoldInputs};
ghost use Rattle.mcap_merge.specs.ReadInputs.{Read, read_tops};
ghost use Rattle.mcap_merge.specs.Reading.{FaultsStand};
ghost use Rattle.mcap_merge.specs.ReadingSteps.{StoreKeeps, SpansFit, AsksWithinLength};
ghost use Rattle.mcap_merge.specs.Gathering.{PrepareRefused, GatherRefused};
ghost use Rattle.mcap_merge.specs.GatheringSteps.{IsPrepared, IsGathered};

use crate::answers::MergeRefused;
use crate::checking::check_ids;
use crate::input::Input;
use crate::profile::common_profile;
use crate::reading::read_inputs;
use crate::schemas::see_schemas;
use id_table::IdRefused;
use mcap_io::Store;
use mcap_model::Stop;
use mcap_wire::Text;
use std::alloc::Global;

/// The inputs, and the profile that all have.
#[derive(Drop)]
pub(crate) struct Gathered {
    pub(crate) inputs: Vec<Input>,
    pub(crate) profile: Text,
}

// Why no ids are left.
fn id_refusal(why: IdRefused) -> MergeRefused
    ensures { (inputs : List (List Top)) → WhyLacks inputs why → PrepareRefused inputs result }
{
    match why {
        IdRefused::TooManySchemas => return MergeRefused::TooManySchemas,
        IdRefused::TooManyChannels => return MergeRefused::TooManyChannels,
        IdRefused::Memory => return MergeRefused::Stopped { stop: Stop::Memory },
    }
}

// Which lack is told. Schemas come before channels, so where an id of a channel lacked the channels are gone through for their
// schemas.
fn first_refusal(alloc: Global, inputs: &[Input], met: IdRefused) -> IdRefused
    requires few { length inputs.now ≤ 64 }
    requires held { (reads : List Read) × HoldInputs reads inputs.now }
    ensures { (reads : List Read) → HoldInputs reads inputs.now → LackMet (read_tops reads) met
        → WhyLacks (read_tops reads) result }
{
    match met {
        IdRefused::TooManySchemas => return IdRefused::TooManySchemas,
        IdRefused::TooManyChannels => match see_schemas(alloc, inputs) {
            Ok(()) => return IdRefused::TooManyChannels,
            Err(refused) => return refused,
        },
        IdRefused::Memory => return IdRefused::Memory,
    }
}

// Whether there are ids for the channels of all messages.
fn see_ids(alloc: Global, inputs: &[Input]) -> Result<(), IdRefused>
    requires few { length inputs.now ≤ 64 }
    requires held { (reads : List Read) × HoldInputs reads inputs.now }
    ensures suffice { OnOk result ((reads : List Read) → HoldInputs reads inputs.now → IdsSuffice (read_tops reads)) }
    ensures refused { IfErr result (λ why. (reads : List Read) → HoldInputs reads inputs.now
        → WhyLacks (read_tops reads) why) }
{
    match check_ids(alloc, inputs) {
        Ok(()) => return Ok(()),
        Err(met) => return Err(first_refusal(alloc, inputs, met)),
    }
}

// The common profile, where there are ids for the channels of all messages.
fn prepare(alloc: Global, inputs: &[Input]) -> Result<Text, MergeRefused>
    requires some { 0 < length inputs.now }
    requires few { length inputs.now ≤ 64 }
    requires held { (reads : List Read) × HoldInputs reads inputs.now }
    ensures prepared { IfOk result (λ profile. (reads : List Read) → HoldInputs reads inputs.now
        → IsPrepared reads profile (extras_of inputs.now)) }
    ensures refused { IfErr result (λ why. (reads : List Read) → HoldInputs reads inputs.now
        → PrepareRefused (read_tops reads) why) }
{
    match see_ids(alloc, inputs) {
        Ok(()) => {}
        Err(why) => return Err(id_refusal(why)),
    }
    match common_profile(alloc, inputs) {
        Ok(profile) => return Ok(profile),
        Err(_) => return Err(MergeRefused::Stopped { stop: Stop::Memory }),
    }
}

/// Reads all inputs, and prepares their merge.
pub(crate) fn gather<T: Store>(alloc: Global, stores: &mut Vec<T>) -> Result<Gathered, MergeRefused>
    requires some { 0 < length stores.old.items }
    requires few { length stores.old.items ≤ 64 }
    ensures gathered { IfOk result (λ g. IsGathered (map (λ s. T.state s) stores.old.items) g) }
    ensures still { OnOk result (AllZip FaultsStand (map (λ s. T.state s) stores.old.items)
        (map (λ s. T.state s) stores.new.items)) }
    ensures refused { IfErr result (λ why. GatherRefused (map (λ s. T.state s) stores.old.items)
        (map (λ s. T.state s) stores.new.items) why) }
    ensures keeps { AllZip StoreKeeps (map (λ s. T.state s) stores.old.items) (map (λ s. T.state s) stores.new.items) }
    ensures fits { IfOk result (λ g. AllZip SpansFit (map (λ s. T.state s) stores.new.items) g.inputs.items) }
    ensures asked { AllZip AsksWithinLength (map (λ s. T.state s) stores.old.items)
        (map (λ s. T.state s) stores.new.items) }
{
    let inputs = match read_inputs(alloc, stores) {
        Ok(inputs) => inputs,
        Err(why) => return Err(why),
    };
    match prepare(alloc, inputs.as_slice()) {
        Ok(profile) => return Ok(Gathered { inputs, profile }),
        Err(why) => return Err(why),
    }
}
