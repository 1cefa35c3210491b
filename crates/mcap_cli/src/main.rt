//! The program `mcaprec` over files, standard output and standard error.
#![tactic(auto)]

use io_files::{FileWorld, WriterSink};
use mcap_app::{Exit, Status, refuse_for_memory, run};
use mcap_wire::{Memory, Text};
use std::env;
use std::io::{ErrorKind, Write};
use std::process::ExitCode;
use std::rt::Env;

/// A recording's messages are only counted, so that its memory doesn't grow with them.
const LISTED: bool = false;

// The words behind the program's name. Arguments that aren't all text are no words.
fn words_of<R: Env + AllocGlobal>(rt: &R) -> Result<Vec<Text>, Memory> {
    let mut words = Vec::new(rt.alloc());
    match env::args(rt) {
        Ok(args) => {
            for word in args.skip(1) {
                words.push(Text::new(word))?;
            }
            Ok(words)
        }
        Err(why) if why.kind() == ErrorKind::OutOfMemory => Err(Memory),
        Err(_) => Ok(words),
    }
}

// Says that memory lacked before the words were known.
fn lacked<W: Write + Drop>(err: &mut WriterSink<W>) -> ExitCode {
    refuse_for_memory(err);
    ExitCode::from(Status::Memory.number())
}

fn main(rt: HostRuntime) -> ExitCode {
    let mut err = WriterSink::new(rt.stderr());
    let Ok(words) = words_of(&rt) else {
        return lacked(&mut err);
    };
    let mut out = WriterSink::new(rt.stdout());
    let mut world = FileWorld::new(&rt);
    let Exit { number, report: _ } = run(&rt, &words, &mut world, &mut out, &mut err, LISTED);
    ExitCode::from(number)
}
