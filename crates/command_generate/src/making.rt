//! Recording generated feeds into the file under a name.
ghost use Rattle.std.specs.Prelude.{◌≡◌, ◌≤◌, ◌<◌, ◌^◌, ◌∷◌, ◌++◌, [], map, vec_len, IfOk, OnOk};
ghost use Rattle.mcap_io.specs.OutsideCalls.{went_well};
ghost use Rattle.recorder.specs.Lanes.{AreMessagesListed};
ghost use Rattle.command_generate.specs.Making.{generated_source, sources_of, NameWritten};
ghost use Rattle.command_generate.specs.Allowed.{OptionsAllowed};

use crate::GeneratedFeed;
use mcap_io::{Failed, OutsideRefused, Source, World};
use mcap_model::RecordOptions;
use mcap_wire::Memory;
use recorder::{Recording, Report, record};
use std::alloc::Global;
use std::sync::Wait;
use std::thread::Threads;

/// What feeds are made of: a number from which their messages follow, how many feeds there are, and how many messages each
/// has.
#[derive(Clone, Copy)]
pub struct Numbers {
    pub seed: u64,
    pub feeds: u64,
    pub messages: u32,
}

/// What became of the name of an output: the report of the recording, if there is one, and whether the output was kept.
#[derive(Drop)]
pub struct Written {
    pub report: Option<Report>,
    pub kept: bool,
}

// Makes the feed of that number.
fn add_feed(
    alloc: Global,
    feeds: &mut Vec<GeneratedFeed>,
    numbers: Numbers,
    feed: u64,
) -> Result<(), Memory>
    ensures { OnOk result (map (λ f. ⟦<GeneratedFeed as Source>⟧.state f) feeds.new.items
        ≡ map (λ f. ⟦<GeneratedFeed as Source>⟧.state f) feeds.old.items ++ generated_source numbers feed ∷ []) }
{
    let made = match GeneratedFeed::new(alloc, numbers.seed, feed, numbers.messages) {
        Ok(made) => made,
        Err(memory) => return Err(memory),
    };
    match feeds.push(made) {
        Ok(()) => return Ok(()),
        Err(_) => return Err(Memory),
    }
}

// Makes the feeds, from that of number 0 on.
fn make_feeds(alloc: Global, numbers: Numbers) -> Result<Vec<GeneratedFeed>, Memory>
    ensures { IfOk result (λ feeds. map (λ f. ⟦<GeneratedFeed as Source>⟧.state f) feeds.items ≡ sources_of numbers) }
{
    let mut feeds = Vec::new(alloc);
    'feeds: for feed in 0..numbers.feeds {
        match add_feed(alloc, &mut feeds, numbers, feed) {
            Ok(()) => {}
            Err(memory) => return Err(memory),
        }
    }
    return Ok(feeds);
}

// Whether a keeping went well.
fn is_kept(kept: Result<(), Failed>) -> bool
    ensures { result ≡ went_well kept }
{
    match kept {
        Ok(()) => true,
        Err(Failed) => false,
    }
}

// Opens the output, records the feeds into it, and keeps it.
fn write_feeds<R: Threads + Wait + Sync, W: World>(
    rt: &R,
    alloc: Global,
    options: &RecordOptions,
    feeds: Vec<GeneratedFeed>,
    out: &str,
    world: &mut W,
    listed: bool,
) -> Written
    requires allowed { OptionsAllowed options.now }
    requires few { (1 ≤ vec_len feeds) × (vec_len feeds ≤ 64) }
    requires world_fits { (W.state world.old).faults < 2 ^ 64 }
    requires inputs_fit { (W.state world.old).input_faults < 2 ^ 64 }
    requires outputs_fit { (W.state world.old).output_faults < 2 ^ 64 }
    ensures written { NameWritten options.now (map (λ f. ⟦<GeneratedFeed as Source>⟧.state f) feeds.items) out.now
        (W.state world.old) (W.state world.new) result }
    ensures listed { AreMessagesListed result.report listed }
{
    let live = match world.live(out) {
        Ok(live) => live,
        Err(OutsideRefused::Failed) => {
            return Written {
                report: None,
                kept: false,
            };
        }
        Err(OutsideRefused::Memory) => {
            return Written {
                report: None,
                kept: false,
            };
        }
    };
    let Recording {
        report,
        feeds: _,
        live,
    } = record(rt, alloc, options, feeds, live, listed);
    let kept = world.keep_live(out, live);
    Written {
        report,
        kept: is_kept(kept),
    }
}

/// Makes the feeds and records them into the file under the name, which is opened as a live store and kept. There is no report
/// where the name couldn't be opened or memory lacked before anything was written. A report lists the messages where `listed` says
/// so, and else only counts them.
pub fn write_generated<R: Threads + Wait + Sync, W: World>(
    rt: &R,
    alloc: Global,
    options: &RecordOptions,
    numbers: Numbers,
    out: &str,
    world: &mut W,
    listed: bool,
) -> Written
    requires allowed { OptionsAllowed options.now }
    requires few { (1 ≤ numbers.feeds) × (numbers.feeds ≤ 64) }
    requires world_fits { (W.state world.old).faults < 2 ^ 64 }
    requires inputs_fit { (W.state world.old).input_faults < 2 ^ 64 }
    requires outputs_fit { (W.state world.old).output_faults < 2 ^ 64 }
    ensures written { NameWritten options.now (sources_of numbers) out.now (W.state world.old) (W.state world.new)
        result }
    ensures listed { AreMessagesListed result.report listed }
{
    match make_feeds(alloc, numbers) {
        Ok(feeds) => return write_feeds(rt, alloc, options, feeds, out, world, listed),
        Err(_) => return Written {
            report: None,
            kept: false,
        },
    }
}
