//! The words, read by `clap`.
ghost use Rattle.std.specs.Prelude.{◌≡◌, ◌≢◌, ◌↔◌, List, map, IfOk, IsTrue, codes, OnErr};
ghost use Rattle.std.specs.List.{All};
ghost use Rattle.std.specs.Str.{IsUtf8};
ghost use Rattle.clap.specs.Words.{subcommand_rows_of};
ghost use Rattle.command_words.specs.Items.{texts};
ghost use Rattle.command_words.specs.Matches.{AreFine, EntersSubcommand, AreNoCommand};

use crate::command::WordsRefused;
use crate::command_line::program_command;
use clap::ArgMatches;
use clap::error::ErrorKind;
use mcap_wire::{Memory, Text};
use std::alloc::Global;

/// Whether each of the words is more than `-`, which stands for nothing here.
pub fn are_whole(words: &[Text]) -> bool
    ensures { IsTrue result ↔ All (λ word. word ≢ codes "-") words.now }
{
    words.iter().all(|word| !word.is("-"))
}

/// The texts of the words.
pub fn plain_words<'a>(alloc: Global, words: &'a [Text]) -> Result<Vec<&'a str>, Memory>
    ensures same { IfOk result (λ plain. texts plain.items ≡ words.now) }
    ensures utf8 { IfOk result (λ plain. All IsUtf8 words.now) }
{
    let mut plain = Vec::new(alloc);
    for word in words {
        match plain.push(word.as_str()) {
            Ok(()) => {}
            Err(_) => return Err(Memory),
        }
    }
    Ok(plain)
}

/// What `clap` finds in the words.
pub fn read_words<'a>(alloc: Global, words: &'a [&'a str]) -> Result<ArgMatches<'a>, WordsRefused>
    requires { AreFine (texts words.now) }
    ensures read { IfOk result (λ found. EntersSubcommand (texts words.now) (subcommand_rows_of found)) }
    ensures bad { result ≡ Err WordsRefused.BadWords → AreNoCommand (texts words.now) }
{
    let Ok(program) = program_command(alloc) else {
        return Err(WordsRefused::Memory);
    };
    match program.try_get_matches_from(words) {
        Ok(found) => return Ok(found),
        Err(error) => match error.kind() {
            ErrorKind::OutOfMemory => return Err(WordsRefused::Memory),
            _ => return Err(WordsRefused::BadWords),
        },
    }
}
