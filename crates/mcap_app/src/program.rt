//! The program: what each command does to the world and to both outputs.
ghost use Rattle.std.specs.Prelude.{◌≡◌, ◌⊎◌, ◌++◌, [], ◌∷◌, length, None, Some};
ghost use Rattle.std.specs.Option.{option_map};
ghost use Rattle.command_record.specs.RecordSteps.{AreListed};
ghost use Rattle.command_words.specs.declared.command.Command.{Command as Asked};
ghost use Rattle.command_words.specs.declared.command.Command.TheVariants as commands;
ghost use Rattle.command_words.specs.Commands.{AreBad, Derives, usage_text};
ghost use Rattle.command_base.specs.declared.statuses.Status.TheVariants as statuses;
ghost use Rattle.command_base.specs.Texts.{no_memory, said, status_number};
ghost use Rattle.command_base.specs.ComplaintTroubles.{bad_words_line};
ghost use Rattle.command_base.specs.Printing.{Takes};
ghost use Rattle.command_base.specs.Scenes.{scene};
ghost use Rattle.mcap_app.specs.Runs.{Does, LacksForWords, Runs, HasNoWatchers, generate_options};
ghost use Rattle.mcap_app.specs.Allowed.{IsAllowed};

use command_base::{BAD_WORDS_STATUS, Status, refuse_for_memory, refuse_words};
use command_generate::{Generated, Numbers, generate_file};
use command_read::{play_file, print_file, print_indexed, run_file_command};
use command_record::{Ended, RecordingReport, record_file};
use command_words::{
    Command, FileFilter, FileMerge, FileRecovery, FileSort, Generation, Inspection, Playing,
    Printing, Recording, USUAL_CHUNK, USUAL_LIMIT, WordsRefused, parse_words, usage, watch_names,
};
use command_write::{Wanted, filter_file, merge_file, recover_file, sort_file};
use mcap_io::{Sink, World};
use mcap_model::{FileOptions, RecordOptions};
use mcap_wire::{Memory, Text};
use recorder::Report;
use std::alloc::Global;
use std::sync::Wait;
use std::thread::Threads;

/// What the program ends with: the number of the command's status or, of words that are none, `BAD_WORDS_STATUS`; and the report
/// of a recording.
pub struct Exit {
    pub number: u8,
    pub report: Option<RecordingReport>,
}

// A command that made no report.
fn unreported(status: Status) -> Ended
    ensures { result ≡ record { status = status; report = None } }
{
    Ended {
        status,
        report: None,
    }
}

// How generated feeds are recorded: without loss, with no profile and the usual sizes.
fn generated_options(alloc: Global) -> RecordOptions
    ensures { result ≡ generate_options }
{
    RecordOptions {
        file: FileOptions {
            profile: Text::new(String::new(alloc)),
            chunk: Some(USUAL_CHUNK),
            span: None,
        },
        limit: USUAL_LIMIT,
        lossless: true,
    }
}

// The report of a recording without watchers.
fn unwatched(alloc: Global, report: Option<Report>) -> Option<RecordingReport>
    ensures recorded { option_map (λ r. r.recorded) result ≡ report }
    ensures none { HasNoWatchers result }
{
    match report {
        Some(recorded) => {
            return Some(RecordingReport {
                recorded,
                sealed: true,
                watchers: Vec::new(alloc),
            });
        }
        None => return None,
    }
}

// Records generated feeds, and reads the file back.
#[tactic(auto, using(crate::proofs::Running::generate_allowed))]
fn run_generate<R: AllocGlobal + Threads + Wait + Sync, W: World, O: Sink, E: Sink>(
    rt: &R,
    generation: &Generation,
    world: &mut W,
    out: &mut O,
    err: &mut E,
    listed: bool,
) -> Ended
    requires { IsAllowed (commands.Generate generation.now) }
    ensures runs { Does (commands.Generate generation.now)
        (scene (W.state world.old) (O.state out.old) (E.state err.old))
        (scene (W.state world.new) (O.state out.new) (E.state err.new))
        result.report result.status }
    ensures listed { AreListed result.report listed }
{
    let numbers = Numbers {
        seed: generation.seed,
        feeds: generation.feeds,
        messages: generation.messages,
    };
    let options = generated_options(rt.alloc());
    let name = generation.out.as_str();
    let Generated { status, report } = generate_file(
        rt, &options, numbers, name, world, out, err, listed,
    );
    Ended {
        status,
        report: unwatched(rt.alloc(), report),
    }
}

// Records feeds, beside watchers where there are any. Where memory lacks for the names of their files nothing is opened.
fn run_record<R: AllocGlobal + Threads + Wait + Sync, W: World, O: Sink, E: Sink>(
    rt: &R,
    recording: &Recording,
    world: &mut W,
    out: &mut O,
    err: &mut E,
    listed: bool,
) -> Ended
    requires { IsAllowed (commands.Record recording.now) }
    ensures runs { Does (commands.Record recording.now)
        (scene (W.state world.old) (O.state out.old) (E.state err.old))
        (scene (W.state world.new) (O.state out.new) (E.state err.new)) result.report result.status
        ⊎ LacksForWords (scene (W.state world.old) (O.state out.old) (E.state err.old))
        (scene (W.state world.new) (O.state out.new) (E.state err.new)) result.report result.status }
    ensures listed { AreListed result.report listed }
{
    let (options, range) = (&recording.options, recording.range);
    let (name, feeds) = (recording.out.as_str(), recording.feeds.as_slice());
    if recording.watchers == 0 {
        return record_file(
            rt,
            options,
            range,
            name,
            &[],
            feeds,
            world,
            out,
            err,
            listed,
        );
    }
    match watch_names(rt.alloc(), name, recording.watchers) {
        Ok(names) => {
            let names = names.as_slice();
            return record_file(
                rt, options, range, name, names, feeds, world, out, err, listed,
            );
        }
        Err(Memory) => {
            refuse_for_memory(err);
            return unreported(Status::Memory);
        }
    }
}

// Prints the messages of a file, by its indexes where they are asked for.
fn run_cat<W: World, O: Sink, E: Sink>(
    alloc: Global,
    printing: &Printing,
    world: &mut W,
    out: &mut O,
    err: &mut E,
) -> Status
    ensures { Does (commands.Cat printing.now)
        (scene (W.state world.old) (O.state out.old) (E.state err.old))
        (scene (W.state world.new) (O.state out.new) (E.state err.new))
        None result }
{
    let (name, range) = (printing.file.as_str(), printing.range);
    let topic = printing.topic.as_ref();
    if printing.indexed {
        return print_indexed(alloc, name, range, topic, world, out, err);
    }
    print_file(alloc, name, range, topic, world, out, err)
}

// Writes the messages of a file that are asked for as a new file.
fn run_filter<W: World, O: Sink, E: Sink>(
    alloc: Global,
    filtering: &FileFilter,
    world: &mut W,
    out: &mut O,
    err: &mut E,
) -> Status
    requires { IsAllowed (commands.Filter filtering.now) }
    ensures { Does (commands.Filter filtering.now)
        (scene (W.state world.old) (O.state out.old) (E.state err.old))
        (scene (W.state world.new) (O.state out.new) (E.state err.new))
        None result }
{
    let wanted = Wanted {
        range: filtering.range,
        topic: filtering.topic.as_ref(),
        chunk: filtering.chunk,
    };
    let name = filtering.out.as_str();
    filter_file(alloc, &wanted, &filtering.input, name, world, out, err)
}

// Plays the messages of a file by a script.
fn run_play<W: World, O: Sink, E: Sink>(
    alloc: Global,
    playing: &Playing,
    world: &mut W,
    out: &mut O,
    err: &mut E,
) -> Status
    ensures { Does (commands.Play playing.now)
        (scene (W.state world.old) (O.state out.old) (E.state err.old))
        (scene (W.state world.new) (O.state out.new) (E.state err.new))
        None result }
{
    let (file, script) = (playing.file.as_str(), playing.script.as_str());
    let (range, topic) = (playing.range, playing.topic.as_ref());
    play_file(alloc, file, script, range, topic, world, out, err)
}

// Does what the command says, or nothing where memory lacks for the names of watchers' files.
fn run_command<R: AllocGlobal + Threads + Wait + Sync, W: World, O: Sink, E: Sink>(
    rt: &R,
    command: Command,
    world: &mut W,
    out: &mut O,
    err: &mut E,
    listed: bool,
) -> Ended
    requires { IsAllowed command }
    ensures runs { Does command
        (scene (W.state world.old) (O.state out.old) (E.state err.old))
        (scene (W.state world.new) (O.state out.new) (E.state err.new))
        result.report result.status
        ⊎ LacksForWords
        (scene (W.state world.old) (O.state out.old) (E.state err.old))
        (scene (W.state world.new) (O.state out.new) (E.state err.new))
        result.report result.status }
    ensures listed { AreListed result.report listed }
{
    let alloc = rt.alloc();
    match command {
        Command::Record(recording) => return run_record(rt, &recording, world, out, err, listed),
        Command::OfFile(Inspection { what, file }) => {
            return unreported(run_file_command(alloc, what, file.as_str(), world, out, err));
        }
        Command::Cat(printing) => return unreported(run_cat(alloc, &printing, world, out, err)),
        Command::Recover(
            FileRecovery {
                input,
                out: name,
                chunk,
            },
        ) => {
            return unreported(recover_file(alloc, chunk, &input, name.as_str(), world, out, err));
        }
        Command::Merge(
            FileMerge {
                out: name,
                inputs,
                chunk,
            },
        ) => {
            let (inputs, name) = (inputs.as_slice(), name.as_str());
            return unreported(merge_file(alloc, chunk, inputs, name, world, out, err));
        }
        Command::Generate(generation) => {
            return run_generate(rt, &generation, world, out, err, listed);
        }
        Command::Filter(filtering) => {
            return unreported(run_filter(alloc, &filtering, world, out, err));
        }
        Command::Sort(
            FileSort {
                input,
                out: name,
                chunk,
            },
        ) => {
            return unreported(sort_file(alloc, chunk, &input, name.as_str(), world, out, err));
        }
        Command::Play(playing) => return unreported(run_play(alloc, &playing, world, out, err)),
    }
}

// The program ends with that number, and without a report.
fn exit_with(number: u8) -> Exit
    ensures { result ≡ record { number = number; report = None } }
{
    Exit {
        number,
        report: None,
    }
}

// The program ends as the command did.
fn exit_of(ended: Ended) -> Exit
    ensures number { result.number ≡ status_number ended.status }
    ensures report { result.report ≡ ended.report }
{
    let Ended { status, report } = ended;
    Exit {
        number: status.number(),
        report,
    }
}

/// Does what the words say: reads and writes the names of the world, prints on `out`, complains on `err`, and
/// answers how it ended. The words are those behind the program's own name. The report of a recording lists its messages, or only
/// counts them and takes no memory for them.
pub fn run<R: AllocGlobal + Threads + Wait + Sync, W: World, O: Sink, E: Sink>(
    rt: &R,
    words: &[Text],
    world: &mut W,
    out: &mut O,
    err: &mut E,
    listed: bool,
) -> Exit
    // That of bad words is the number only for words that are no command.
    ensures bad { result.number ≡ BAD_WORDS_STATUS → AreBad words.now }

    // These do nothing but complain: of the words, or of a want of memory for reading them.
    ensures world { AreBad words.now → world.new ≡ world.old }
    ensures out { AreBad words.now → out.new ≡ out.old }
    ensures report { AreBad words.now → result.report ≡ None }
    ensures err { AreBad words.now
        → ((result.number ≡ BAD_WORDS_STATUS) × Takes (E.state err.old) (E.state err.new) (bad_words_line ++ usage_text))
        ⊎ ((result.number ≡ status_number statuses.Memory) × Takes (E.state err.old) (E.state err.new) (said (no_memory ∷ []))) }

    // The words of a command do what it does, or memory lacks for reading them or for the names of watchers' files.
    ensures runs { (command : Asked) → Derives words.now command
        → Runs command
        (scene (W.state world.old) (O.state out.old) (E.state err.old))
        (scene (W.state world.new) (O.state out.new) (E.state err.new))
        result.report result.number }

    // A report lists messages, or only counts them.
    ensures listed { AreListed result.report listed }
{
    match parse_words(rt.alloc(), words) {
        Ok(command) => return exit_of(run_command(rt, command, world, out, err, listed)),
        Err(WordsRefused::BadWords) => {
            refuse_words(err, usage());
            return exit_with(BAD_WORDS_STATUS);
        }
        Err(WordsRefused::Memory) => {
            refuse_for_memory(err);
            return exit_of(unreported(Status::Memory));
        }
    }
}
