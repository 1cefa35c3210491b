//! The commands of one file without options.
ghost use Rattle.command_base.specs.Scenes.{scene};
ghost use Rattle.command_read.specs.FileCommand.{RunsOnFile};

use crate::checking::check_file;
use crate::describing::describe_file;
use command_base::Status;
use command_words::FileCommand;
use mcap_io::{Sink, World};
use std::alloc::Global;

/// Does with the file under the name what the command says, and answers the command's status.
pub fn run_file_command<W: World, O: Sink, E: Sink>(
    alloc: Global,
    what: FileCommand,
    file: &str,
    world: &mut W,
    out: &mut O,
    err: &mut E,
) -> Status
    ensures { RunsOnFile what file.now
        (scene (W.state world.old) (O.state out.old) (E.state err.old))
        (scene (W.state world.new) (O.state out.new) (E.state err.new))
        result }
{
    match what {
        FileCommand::Info => return describe_file(alloc, file, world, out, err),
        FileCommand::Check => return check_file(alloc, file, world, out, err),
    }
}
