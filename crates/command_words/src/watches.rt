//! The names of the files of watchers.
ghost use Rattle.std.specs.Prelude.{◌≡◌, ◌≢◌, ◌≤◌, ◌↔◌, ◌++◌, ℕ, List, IsTrue, IfOk, MatchOption, codes, decimal};
ghost use Rattle.std.specs.List.{All};
ghost use Rattle.command_words.specs.Commands.{NamesDiffer, IsUnwatched, watcher_limit};
ghost use Rattle.command_words.specs.Defaults.{watch_name, watch_names as names_of_watches};
ghost use Rattle.command_words.specs.Items.{Word};
ghost use Rattle.command_words.specs.Matches.{AreUnwatched, values_in};

use crate::found::values_of;
use clap::ArgMatches;
use itoa::Buffer;
use mcap_wire::{Memory, Text};
use std::alloc::Global;

// What stands behind a text in another that begins with it.
fn behind<'a>(front: &str, text: &'a str) -> Option<&'a str>
    ensures { MatchOption result ((rest : Word) → text.now ≢ front.now ++ rest) (λ rest. text.now
        ≡ front.now ++ rest.now) }
{
    text.strip_prefix(front)
}

// What stands in a name in the place of a watcher's number.
fn place_of_number<'a>(out: &str, name: &'a str) -> Option<&'a str>
    ensures { MatchOption result ((rest : Word) → name.now ≢ out.now ++ (codes ".watch" ++ rest))
        (λ rest. name.now ≡ out.now ++ (codes ".watch" ++ rest.now)) }
{
    match behind(out, name) {
        Some(rest) => return behind(".watch", rest),
        None => return None,
    }
}

// Whether a text is a number as it is printed.
fn is_number(text: &str, number: u32) -> bool
    ensures { IsTrue result ↔ (text.now ≡ decimal number) }
{
    let mut buffer = Buffer::new();
    text == buffer.format(number)
}

// Whether a name isn't that of one of so many watchers' files.
fn is_unwatched(out: &str, watchers: u32, name: &str) -> bool
    ensures { IsTrue result ↔ IsUnwatched out.now watchers name.now }
{
    let Some(text) = place_of_number(out, name) else {
        return true;
    };
    'numbers: for number in 0..watchers {
        if is_number(text, number + 1) {
            return false;
        }
    }
    true
}

// Whether none of the names is.
fn are_unwatched(out: &str, watchers: u32, names: &[&str]) -> bool
    ensures { IsTrue result ↔ All (λ name. IsUnwatched out.now watchers name.now) names.now }
{
    names.iter().all(|name| is_unwatched(out, watchers, name))
}

/// Whether no feed that was found has the name of one of so many watchers' files.
pub fn feeds_are_unwatched(found: &ArgMatches, out: &str, watchers: u32) -> bool
    ensures { IsTrue result ↔ AreUnwatched out.now watchers (values_in found.now (codes "feed")) }
{
    match values_of(found, "feed") {
        Some(feeds) => return are_unwatched(out, watchers, feeds),
        None => return true,
    }
}

// The name of the file of a watcher.
fn watch_name_of(alloc: Global, out: &str, number: u32) -> Result<Text, Memory>
    ensures { IfOk result (λ name. name ≡ watch_name out.now number) }
{
    match format!(in alloc; "{out}.watch{number}") {
        Ok(name) => return Ok(Text::new(name)),
        Err(_) => return Err(Memory),
    }
}

/// The names of the files of so many watchers of a recording to that output, in order: the output's, `.watch` and the
/// watcher's number, from 1 on. No two are equal, and none is the output's. The answer is Memory where there is none for them.
pub fn watch_names(alloc: Global, out: &str, many: u32) -> Result<Vec<Text>, Memory>
    requires { many ≤ watcher_limit }
    ensures names { IfOk result (λ names. names.items ≡ names_of_watches out.now many) }
    ensures apart { IfOk result (λ names. NamesDiffer out.now names.items) }
{
    let mut names = Vec::new(alloc);
    'numbers: for number in 0..many {
        let name = match watch_name_of(alloc, out, number + 1) {
            Ok(name) => name,
            Err(memory) => return Err(memory),
        };
        match names.push(name) {
            Ok(()) => {}
            Err(_) => return Err(Memory),
        }
    }
    Ok(names)
}
