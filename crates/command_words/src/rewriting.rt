//! The names and the size of a command that writes a file of one.
ghost use Rattle.std.specs.Prelude.{◌≡◌, ◌≢◌, ◌↔◌, ℕ, [], ◌∷◌, IsTrue, MatchOption, codes, IfOk, IfErr};
ghost use Rattle.command_words.specs.Items.{Word};
ghost use Rattle.command_words.specs.Matches.{FindsRewriting, rows_found, values_in};

use crate::command::WordsRefused;
use crate::found::{BadValue, name_of_file, number_of, values_of};
use crate::options::{LARGEST_CHUNK, USUAL_CHUNK, copy_of};
use clap::ArgMatches;
use mcap_wire::Text;
use std::alloc::Global;

/// A file that is read, one that is written, and the size of its chunks.
#[derive(Drop)]
pub struct Rewriting {
    pub input: Text,
    pub out: Text,
    pub chunk: u64,
}

/// Whether a name may be a feed's beside that output.
pub fn may_be_feed(out: &str, feed: &str) -> bool
    ensures { IsTrue result ↔ ((feed.now ≢ []) × (out.now ≢ feed.now)) }
{
    !feed.is_empty() && out != feed
}

/// The one name at that place, which isn't empty.
pub fn only_name<'a>(found: &ArgMatches<'a>, place: &str) -> Option<&'a str>
    ensures { MatchOption result ((name : Word) → name ≢ [] → values_in found.now place.now ≢ name ∷ [])
        (λ name. (name.now ≢ []) × (values_in found.now place.now ≡ name.now ∷ [])) }
{
    let Some(names) = values_of(found, place) else {
        return None;
    };
    if names.len() != 1 || names[0].is_empty() {
        return None;
    }
    Some(names[0])
}

// The one name of the output beside that input.
fn only_output<'a>(found: &ArgMatches<'a>, input: &str) -> Option<&'a str>
    ensures { MatchOption result
        ((out : Word) → out ≢ [] → input.now ≢ out → values_in found.now (codes "out") ≢ out ∷ [])
        (λ out. (out.now ≢ []) × (input.now ≢ out.now) × (values_in found.now (codes "out") ≡ out.now ∷ [])) }
{
    let Some(names) = values_of(found, "out") else {
        return None;
    };
    if names.len() != 1 || !may_be_feed(input, names[0]) {
        return None;
    }
    Some(names[0])
}

/// --chunk, IN and OUT.
pub fn rewriting_of(alloc: Global, found: &ArgMatches) -> Result<Rewriting, WordsRefused>
    ensures found { IfOk result (λ r. FindsRewriting (rows_found found.now) r.input r.out r.chunk) }
    ensures bad { IfErr result (λ refused. refused ≡ WordsRefused.BadWords → (input out : Word) (chunk : ℕ)
        → FindsRewriting (rows_found found.now) input out chunk → ⊥) }
{
    let Some(input) = name_of_file(found, "in") else {
        return Err(WordsRefused::BadWords);
    };
    let Some(out) = only_output(found, input) else {
        return Err(WordsRefused::BadWords);
    };
    let chunk = match number_of(found, "chunk", 1, LARGEST_CHUNK) {
        Ok(chunk) => chunk.unwrap_or(USUAL_CHUNK),
        Err(BadValue) => return Err(WordsRefused::BadWords),
    };
    let input = match copy_of(alloc, input) {
        Ok(input) => input,
        Err(refused) => return Err(refused),
    };
    match copy_of(alloc, out) {
        Ok(out) => return Ok(Rewriting { input, out, chunk }),
        Err(refused) => return Err(refused),
    }
}
