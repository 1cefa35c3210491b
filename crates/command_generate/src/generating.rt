//! The command: recording generated feeds, reading the file back, and telling of both.
ghost use Rattle.std.specs.Prelude.{◌≡◌, ◌≤◌, ◌<◌, ◌^◌, ◌↔◌, ◌||◌, ◌⊎◌, ◌++◌, List, ℕ, Some, true, IsTrue};
ghost use Rattle.mcap_io.specs.Outside.{Rose};
ghost use Rattle.recorder.specs.Lanes.{AreMessagesListed};
ghost use Rattle.command_base.specs.Texts.{fault, output_limit, output_fault, no_memory};
ghost use Rattle.command_base.specs.ComplaintTroubles.{complained};
ghost use Rattle.command_base.specs.Printing.{Takes};
ghost use Rattle.command_base.specs.Ran.{AnyRose, when, Complains};
ghost use Rattle.command_base.specs.Scenes.{scene};
ghost use Rattle.command_generate.specs.Allowed.{OptionsAllowed};
ghost use Rattle.recorder.specs.Findings.{limit_passed, lacks_memory as names_lack};
ghost use Rattle.command_generate.specs.Generating.{writer_closed as closes, is_sound as stands_whole, ReadsBack, text_after, halts_after, is_lack_after, LackIsTold, Generates};

use crate::back::{Back, Summing};
use crate::making::{Numbers, Written, write_generated};
use command_base::{
    Complaint, Counts, Status, complain_of, due_when, halt_of, has_lacked, print_reading,
    read_source_name, rose,
};
use mcap_io::{Sink, World};
use mcap_model::{End, RecordOptions};
use recorder::{Report, has_limit, names_memory};
use std::alloc::Global;
use std::sync::Wait;
use std::thread::Threads;

/// How a generation ended: its status, and the report of the recording.
pub struct Generated {
    pub status: Status,
    pub report: Option<Report>,
}

// Whether the writer closed its file.
fn is_closed(end: End) -> bool
    ensures { result ≡ closes end }
{
    match end {
        End::Closed => true,
        End::Stopped { .. } => false,
    }
}

// Whether the file is whole and stands under its name.
fn is_sound(written: &Written) -> bool
    ensures { result ≡ stands_whole written.now.report written.now.kept }
{
    match &written.report {
        Some(report) => return is_closed(report.writer.end) && written.kept,
        None => return false,
    }
}

// Whether a count of the world rose.
fn world_rose(before: &Counts, now: &Counts) -> bool
    ensures { IsTrue result
        ↔ Rose before.now.world now.now.world
        ⊎ (Rose before.now.inputs now.now.inputs ⊎ Rose before.now.outputs now.now.outputs) }
{
    rose(before.world, now.world)
        || rose(before.inputs, now.inputs)
        || rose(before.outputs, now.outputs)
}

// Whether any count rose.
fn any_rose(before: &Counts, now: &Counts) -> bool
    ensures { IsTrue result ↔ AnyRose before.now now.now }
{
    world_rose(before, now) || rose(before.printing, now.printing)
}

// Whether memory lacked for the reading back.
fn back_lacked(what: &Summing, back: &Option<Back>) -> bool
    ensures { (out : List ℕ) → result ≡ is_lack_after what.now.feeds out back.now }
{
    match back {
        Some(back) => return has_lacked(what, &back.reading),
        None => return false,
    }
}

// Whether memory lacked: the report or the reading back tells of it, or there is no report though nothing failed.
fn is_lack(
    what: &Summing,
    before: &Counts,
    now: &Counts,
    report: &Option<Report>,
    back: &Option<Back>,
) -> bool
    ensures { (out : List ℕ) → LackIsTold before.now now.now what.now.feeds out report.now back.now result }
{
    match report {
        Some(report) => return names_memory(report) || back_lacked(what, back),
        None => return !any_rose(before, now),
    }
}

// The complaint of the reading back.
fn back_complaint<'a>(what: &Summing, out: &'a str, back: &'a Option<Back>) -> Option<Complaint<'a>>
    ensures { complained result ≡ halts_after what.now.feeds out.now back.now }
{
    match back {
        Some(back) => return halt_of(what, out, &back.reading),
        None => return None,
    }
}

// Reads the file back, if it is whole and stands under its name.
#[tactic(auto, using(crate::proofs::Backs::read_back))]
fn read_written<W: World>(
    what: &Summing,
    out: &str,
    world: &mut W,
    written: &Written,
) -> Option<Back>
    requires world_fits { (W.state world.old).faults < 2 ^ 64 }
    requires inputs_fit { (W.state world.old).input_faults < 2 ^ 64 }
    requires outputs_fit { (W.state world.old).output_faults < 2 ^ 64 }
    ensures { ReadsBack (stands_whole written.now.report written.now.kept) out.now (W.state world.old)
        (W.state world.new) result }
{
    if is_sound(written) {
        return Some(read_source_name(what, out, world));
    }
    return None;
}

// Prints the line of what was read back, if something was.
fn print_back<O: Sink>(what: &Summing, out: &mut O, back: &mut Option<Back>)
    ensures takes { (file : List ℕ)
        → Takes (O.state out.old) (O.state out.new) (text_after what.now.feeds file back.old) }
    ensures halts { (file : List ℕ)
        → halts_after what.now.feeds file back.new ≡ halts_after what.now.feeds file back.old }
    ensures lacks { (file : List ℕ)
        → is_lack_after what.now.feeds file back.new ≡ is_lack_after what.now.feeds file back.old }
{
    match back {
        Some(back) => {
            let _ = print_reading(what, out, &mut back.reading);
            return;
        }
        None => return,
    }
}

// Complains of what halted the reading back, of faults, of a limit and of a want of memory, and answers the status that this asks
// for.
fn answer<'a, E: Sink>(
    err: &mut E,
    out: &'a str,
    halt: Option<Complaint<'a>>,
    blamed: bool,
    limited: bool,
    printing: bool,
    lacked: bool,
) -> Status
    ensures { Complains
        (complained halt.entry
        ++ (when blamed (fault out.now) ++ (when limited (output_limit out.now) ++ (when printing output_fault ++ when lacked no_memory))))
        (E.state err.old) (E.state err.new) result }
{
    let complaints = [
        halt,
        due_when(blamed, Complaint::Fault { name: out }),
        due_when(limited, Complaint::OutputLimit { name: out }),
        due_when(printing, Complaint::OutputFault),
        due_when(lacked, Complaint::NoMemory),
    ];
    complain_of(err, &complaints)
}

/// Makes feeds of these numbers, records them into the file under the name, reads that back, prints on `out` sums of the messages
/// that were read, and answers how that ended. Where the writer stopped or the file couldn't be kept nothing is
/// read back and nothing printed; nor is anything printed where the reading is refused. The report lists the messages where `listed`
/// says so, and else only counts them.
pub fn generate_file<R: AllocGlobal + Threads + Wait + Sync, W: World, O: Sink, E: Sink>(
    rt: &R,
    options: &RecordOptions,
    numbers: Numbers,
    out_name: &str,
    world: &mut W,
    out: &mut O,
    err: &mut E,
    listed: bool,
) -> Generated
    requires allowed { OptionsAllowed options.now }
    requires few { (1 ≤ numbers.feeds) × (numbers.feeds ≤ 64) }
    ensures generates { Generates options.now numbers out_name.now
        (scene (W.state world.old) (O.state out.old) (E.state err.old))
        (scene (W.state world.new) (O.state out.new) (E.state err.new))
        result.report result.status }
    ensures listed { AreMessagesListed result.report listed }
{
    let before = Counts::of(world, out);
    let written = write_generated(rt, rt.alloc(), options, numbers, out_name, world, listed);
    let _middle = Counts::of(world, out);
    let what = Summing {
        alloc: rt.alloc(),
        feeds: numbers.feeds,
    };
    let mut back = read_written(&what, out_name, world, &written);
    print_back(&what, out, &mut back);
    let now = Counts::of(world, out);
    let status = answer(
        err,
        out_name,
        back_complaint(&what, out_name, &back),
        world_rose(&before, &now),
        has_limit(&written.report),
        rose(before.printing, now.printing),
        is_lack(&what, &before, &now, &written.report, &back),
    );
    Generated {
        status,
        report: written.report,
    }
}
