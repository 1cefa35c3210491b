//! The compressions of a summary's chunks as JSON.
ghost use Rattle.std.specs.Prelude.{List, ℕ, ◌∷◌, [], map, IfOk, OnOk};
ghost use Rattle.std.specs.BTreeSet.{keys};
ghost use Rattle.json.specs.Token.{string};
ghost use Rattle.json.specs.Tree.{json_tokens};
ghost use Rattle.command_read.specs.Json.{names_value};
ghost use Rattle.command_read.specs.Told.{AreNames};
ghost use Rattle.command_read.specs.Writing.{AddsTokens};

use crate::members::{close_array, open_array};
use json::Writer;
use mcap_wire::Memory;
use std::alloc::Global;
use std::collections::BTreeSet;
use summary_read::Loaded;

// The compressions that the Chunk Indexes name.
fn names_of<'a>(alloc: Global, loaded: &'a Loaded) -> Result<BTreeSet<&'a str>, Memory>
    ensures { IfOk result (λ names. AreNames loaded.now.chunk_indexes (map (λ n. n.now) (keys names))) }
{
    let mut names = BTreeSet::new(alloc);
    'indexes: for i in 0..loaded.chunk_indexes() {
        match names.insert(loaded.chunk_index(i).compression) {
            Ok(_) => {}
            Err(_) => return Err(Memory),
        }
    }
    return Ok(names);
}

fn put_string(out: &mut Writer, text: &str) -> Result<(), Memory>
    ensures { OnOk result (AddsTokens out.old out.new (string text.now ∷ [])) }
{
    match out.string(text) {
        Ok(()) => return Ok(()),
        Err(_) => return Err(Memory),
    }
}

// Writes texts in their order as an array.
fn put_all(out: &mut Writer, names: &BTreeSet<&str>) -> Result<(), Memory>
    ensures { OnOk result (AddsTokens out.old out.new (json_tokens (names_value (map (λ n. n.now) (keys names.now))))) }
{
    open_array(out)?;
    'names: for name in names {
        match put_string(out, name) {
            Ok(()) => {}
            Err(memory) => return Err(memory),
        }
    }
    close_array(out)?;
    return Ok(());
}

/// Writes the compressions that the Chunk Indexes name, each once, in the ascending order of their bytes.
pub(crate) fn put_names(alloc: Global, out: &mut Writer, loaded: &Loaded) -> Result<(), Memory>
    ensures { OnOk result ((names : List (List ℕ)) × AreNames loaded.now.chunk_indexes names
        × AddsTokens out.old out.new (json_tokens (names_value names))) }
{
    let names = names_of(alloc, loaded)?;
    put_all(out, &names)?;
    return Ok(());
}
