//! The command line as `clap` is told of it.
ghost use Rattle.std.specs.Prelude.{◌≡◌, false, fold, IfOk};
ghost use Rattle.clap.specs.Words.{App, new_rule, with_rule, with_subcommand};
ghost use Rattle.command_words.specs.CommandLine.{IsMade, bare_top, app_given, flag_given, option_given, program, rest_given, verb_app, with_command};
ghost use Rattle.command_words.specs.Commands.{command_name, file_synopsis};
ghost use Rattle.command_words.specs.declared.verbs.Verb.TheVariants as verb;

use crate::command::{FILE_COMMANDS, FileCommand};
use clap::{Arg, ArgAction, Command};
use std::alloc::{AllocError, Global};

// Adds `--name`, which takes no value.
fn with_flag<'a>(
    made: Result<Command<'a>, AllocError>,
    alloc: Global,
    name: &'a str,
) -> Result<Command<'a>, AllocError>
    ensures { (app : App) → IfOk made.entry (IsMade app)
        → IfOk result (IsMade (with_rule app (flag_given name.entry.now))) }
{
    made?.arg(Arg::new(alloc, name).long(name).action(ArgAction::SetTrue))
}

// Adds `--name` with a value.
fn with_option<'a>(
    made: Result<Command<'a>, AllocError>,
    alloc: Global,
    name: &'a str,
) -> Result<Command<'a>, AllocError>
    ensures { (app : App) → IfOk made.entry (IsMade app)
        → IfOk result (IsMade (with_rule app (option_given name.entry.now))) }
{
    made?.arg(Arg::new(alloc, name).long(name))
}

// Adds a positional.
fn with_place<'a>(
    made: Result<Command<'a>, AllocError>,
    alloc: Global,
    name: &'a str,
) -> Result<Command<'a>, AllocError>
    ensures { (app : App) → IfOk made.entry (IsMade app)
        → IfOk result (IsMade (with_rule app (new_rule name.entry.now))) }
{
    made?.arg(Arg::new(alloc, name))
}

// Adds a positional that takes every word from its place on.
fn with_rest<'a>(
    made: Result<Command<'a>, AllocError>,
    alloc: Global,
    name: &'a str,
) -> Result<Command<'a>, AllocError>
    ensures { (app : App) → IfOk made.entry (IsMade app)
        → IfOk result (IsMade (with_rule app (rest_given name.entry.now))) }
{
    made?.arg(Arg::new(alloc, name).action(ArgAction::Append))
}

// `record`.
fn record<'a>(alloc: Global) -> Result<Command<'a>, AllocError>
    ensures { IfOk result (IsMade (verb_app verb.Record)) }
{
    let command = with_flag(Ok(Command::new(alloc, "record")), alloc, "plain");
    let command = with_flag(command, alloc, "lossless");
    let command = with_option(command, alloc, "limit");
    let command = with_option(command, alloc, "chunk");
    let command = with_option(command, alloc, "profile");
    let command = with_option(command, alloc, "watch");
    let command = with_option(command, alloc, "watchers");
    let command = with_place(command, alloc, "out");
    with_rest(command, alloc, "feed")
}

// A command of one file, without options.
fn of_file<'a>(alloc: Global, what: FileCommand) -> Result<Command<'a>, AllocError>
    ensures { IfOk result (IsMade (app_given (file_synopsis (command_name what)))) }
{
    let name: &'a str = what.name();
    with_place(Ok(Command::new(alloc, name)), alloc, "file")
}

// `cat`.
fn cat<'a>(alloc: Global) -> Result<Command<'a>, AllocError>
    ensures { IfOk result (IsMade (verb_app verb.Cat)) }
{
    let command = with_flag(Ok(Command::new(alloc, "cat")), alloc, "indexed");
    let command = with_option(command, alloc, "start");
    let command = with_option(command, alloc, "end");
    let command = with_option(command, alloc, "topic");
    with_place(command, alloc, "file")
}

// `recover`.
fn recover<'a>(alloc: Global) -> Result<Command<'a>, AllocError>
    ensures { IfOk result (IsMade (verb_app verb.Recover)) }
{
    let command = with_option(Ok(Command::new(alloc, "recover")), alloc, "chunk");
    let command = with_place(command, alloc, "in");
    with_rest(command, alloc, "out")
}

// `merge`.
fn merge<'a>(alloc: Global) -> Result<Command<'a>, AllocError>
    ensures { IfOk result (IsMade (verb_app verb.Merge)) }
{
    let command = with_option(Ok(Command::new(alloc, "merge")), alloc, "chunk");
    let command = with_place(command, alloc, "out");
    with_rest(command, alloc, "in")
}

// `gen`. The positional behind the first takes the three others.
fn generate<'a>(alloc: Global) -> Result<Command<'a>, AllocError>
    ensures { IfOk result (IsMade (verb_app verb.Generate)) }
{
    let command = with_place(Ok(Command::new(alloc, "gen")), alloc, "seed");
    with_rest(command, alloc, "rest")
}

// `filter`.
fn filter<'a>(alloc: Global) -> Result<Command<'a>, AllocError>
    ensures { IfOk result (IsMade (verb_app verb.Filter)) }
{
    let command = with_option(Ok(Command::new(alloc, "filter")), alloc, "start");
    let command = with_option(command, alloc, "end");
    let command = with_option(command, alloc, "topic");
    let command = with_option(command, alloc, "chunk");
    let command = with_place(command, alloc, "in");
    with_rest(command, alloc, "out")
}

// `sort`.
fn sort<'a>(alloc: Global) -> Result<Command<'a>, AllocError>
    ensures { IfOk result (IsMade (verb_app verb.Sort)) }
{
    let command = with_option(Ok(Command::new(alloc, "sort")), alloc, "chunk");
    let command = with_place(command, alloc, "in");
    with_rest(command, alloc, "out")
}

// `play`.
fn play<'a>(alloc: Global) -> Result<Command<'a>, AllocError>
    ensures { IfOk result (IsMade (verb_app verb.Play)) }
{
    let command = with_option(Ok(Command::new(alloc, "play")), alloc, "start");
    let command = with_option(command, alloc, "end");
    let command = with_option(command, alloc, "topic");
    let command = with_place(command, alloc, "file");
    with_rest(command, alloc, "script")
}

// The program without its commands, and without help or a version.
fn bare_program<'a>(alloc: Global) -> Command<'a>
    ensures { IsMade bare_top result }
{
    Command::new(alloc, "mcaprec")
        .no_binary_name(true)
        .disable_help_flag(true)
        .disable_help_subcommand(true)
        .subcommand_required(true)
}

// Adds a command that was made.
fn with_made<'a>(
    made: Result<Command<'a>, AllocError>,
    verb: Command<'a>,
) -> Result<Command<'a>, AllocError>
    ensures { (app below : App) → IfOk made.entry (IsMade app) → IsMade below verb.entry
        → IfOk result (IsMade (with_subcommand app below.top)) }
{
    match made {
        Ok(made) => return made.subcommand(verb),
        Err(error) => return Err(error),
    }
}

// Adds a command, if there is memory for it. Each of the two commands is owned by itself at the one way out.
fn with_verb<'a>(
    made: Result<Command<'a>, AllocError>,
    verb: Result<Command<'a>, AllocError>,
) -> Result<Command<'a>, AllocError>
    ensures { (app below : App) → IfOk made.entry (IsMade app) → IfOk verb.entry (IsMade below)
        → IfOk result (IsMade (with_subcommand app below.top)) }
{
    match verb {
        Ok(verb) => return with_made(made, verb),
        Err(error) => return Err(error),
    }
}

// Adds the commands of one file without options.
fn with_file_commands<'a>(
    made: Result<Command<'a>, AllocError>,
    alloc: Global,
) -> Result<Command<'a>, AllocError>
    ensures { (app : App) → IfOk made.entry (IsMade app) → IfOk result (IsMade (fold with_command app FILE_COMMANDS)) }
{
    let mut made = made;
    'commands: for what in FILE_COMMANDS {
        made = with_verb(made, of_file(alloc, what));
    }
    made
}

/// The program with its commands, without help or a version. That a positional is there is looked at where it is
/// read, as is what stands in it.
pub fn program_command<'a>(alloc: Global) -> Result<Command<'a>, AllocError>
    ensures { IfOk result (IsMade program) }
{
    let command = with_verb(Ok(bare_program(alloc)), record(alloc));
    let command = with_file_commands(command, alloc);
    let command = with_verb(command, cat(alloc));
    let command = with_verb(command, recover(alloc));
    let command = with_verb(command, merge(alloc));
    let command = with_verb(command, generate(alloc));
    let command = with_verb(command, filter(alloc));
    let command = with_verb(command, sort(alloc));
    with_verb(command, play(alloc))
}
