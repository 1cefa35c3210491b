//! The commands by their names.
ghost use Rattle.std.specs.Prelude.{◌≡◌, ◌≢◌, MatchOption};
ghost use Rattle.command_words.specs.Commands.{name_of};
ghost use Rattle.command_words.specs.declared.verbs.Verb.{Verb as Named};

use crate::command::FileCommand;

/// A command by its name.
#[derive(Clone, Copy)]
pub enum Verb {
    Record,
    OfFile { what: FileCommand },
    Cat,
    Recover,
    Merge,
    Generate,
    Filter,
    Sort,
    Play,
}

/// The command of this name.
pub fn named_verb(name: &str) -> Option<Verb>
    ensures { MatchOption result ((verb : Named) → name.now ≢ name_of verb) (λ verb. name.now ≡ name_of verb) }
{
    if name == "record" {
        return Some(Verb::Record);
    }
    if name == "cat" {
        return Some(Verb::Cat);
    }
    if name == "recover" {
        return Some(Verb::Recover);
    }
    if name == "merge" {
        return Some(Verb::Merge);
    }
    if name == "gen" {
        return Some(Verb::Generate);
    }
    if name == "filter" {
        return Some(Verb::Filter);
    }
    if name == "sort" {
        return Some(Verb::Sort);
    }
    if name == "play" {
        return Some(Verb::Play);
    }
    match FileCommand::named(name) {
        Some(what) => return Some(Verb::OfFile { what }),
        None => return None,
    }
}
