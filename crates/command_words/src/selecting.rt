//! Which messages are asked for.
ghost use Rattle.std.specs.Prelude.{◌≡◌, ◌≢◌, List, Some, IfOk, IfErr, OnErr, codes, option_map};
ghost use Rattle.command_words.specs.Commands.{IsRange};
ghost use Rattle.command_words.specs.Items.{Item, Word};
ghost use Rattle.command_words.specs.Matches.{ParsesInto, Selects, rows_found, value_in};
ghost use Rattle.command_words.specs.Synopses.{Synopsis};
ghost use Rattle.mcap_model.specs.declared.replay.Range.{Range as Times};

use crate::command::WordsRefused;
use crate::found::{is_dash, value_of};
use crate::options::{copy_of, range_of};
use clap::ArgMatches;
use mcap_model::Range;
use mcap_wire::Text;
use std::alloc::Global;

/// The log times of messages, and their topic where one is named.
#[derive(Drop)]
pub struct Selected {
    pub range: Range,
    pub topic: Option<Text>,
}

// A copy of a word that may be there.
fn maybe_copy(alloc: Global, word: Option<&str>) -> Result<Option<Text>, WordsRefused>
    ensures copy { IfOk result (λ copy. copy ≡ option_map (λ text. text.now) word.entry) }
    ensures want { OnErr result (result ≡ Err WordsRefused.Memory) }
{
    match word {
        Some(word) => match copy_of(alloc, word) {
            Ok(copy) => return Ok(Some(copy)),
            Err(refused) => return Err(refused),
        },
        None => return Ok(None),
    }
}

/// --start, --end and --topic of a command that takes them.
pub fn selection_of(alloc: Global, found: &ArgMatches) -> Result<Selected, WordsRefused>
    ensures selected { (v : Synopsis) (items : List Item) (places : List Word) → Selects v
        → ParsesInto v items places (rows_found found.now)
        → IfOk result (λ selected. IsRange items selected.range × (selected.topic ≡ value_in found.now (codes "topic"))
        × (value_in found.now (codes "topic") ≢ Some (codes "-"))) }
    ensures bad { (v : Synopsis) (items : List Item) (places : List Word) → Selects v
        → ParsesInto v items places (rows_found found.now)
        → IfErr result (λ refused. refused ≡ WordsRefused.BadWords → (range : Times) → IsRange items range
        → value_in found.now (codes "topic") ≢ Some (codes "-") → ⊥) }
{
    if is_dash(found, "topic") {
        return Err(WordsRefused::BadWords);
    }
    let range = match range_of(found) {
        Ok(range) => range,
        Err(_) => return Err(WordsRefused::BadWords),
    };
    match maybe_copy(alloc, value_of(found, "topic")) {
        Ok(topic) => return Ok(Selected { range, topic }),
        Err(refused) => return Err(refused),
    }
}
