//! What was found for the names of a command.
ghost use Rattle.std.specs.Prelude.{◌≡◌, ◌≢◌, ◌↔◌, ℕ, [], Some, Bool, Option, IsTrue, IfOk, OnErr, MatchOption, codes, option_map};
ghost use Rattle.std.specs.Option.{option_to_list};
ghost use Rattle.clap.specs.Words.{one_of};
ghost use Rattle.clap.specs.Values.{bool_text};
ghost use Rattle.command_words.specs.Commands.{GivesNumber, IsNumber};
ghost use Rattle.command_words.specs.Items.{Word, texts};
ghost use Rattle.command_words.specs.Matches.{rows_found, value_in, values_in};

use clap::ArgMatches;

/// No command has these values.
#[derive(Clone, Copy)]
pub struct BadValue;

/// The value of a name.
pub fn value_of<'a>(found: &ArgMatches<'a>, name: &str) -> Option<&'a str>
    ensures { option_map (λ value. value.now) result ≡ value_in found.now name.now }
{
    found.get_str(name)
}

/// All the values of a name, from left to right, where there is one.
pub fn values_of<'f, 'a>(found: &'f ArgMatches<'a>, name: &str) -> Option<&'f [&'a str]>
    ensures { MatchOption result (values_in found.now name.now ≡ []) (λ values. texts values.now
        ≡ values_in found.now name.now) }
{
    found.get_strs(name)
}

/// Whether the value of a name is `-`, which no option takes.
pub fn is_dash(found: &ArgMatches, name: &str) -> bool
    ensures { IsTrue result ↔ (value_in found.now name.now ≡ Some (codes "-")) }
{
    match value_of(found, name) {
        Some(value) => return value == "-",
        None => return false,
    }
}

/// Whether a flag stands.
pub fn has_flag(found: &ArgMatches, name: &str) -> bool
    ensures { (is_there : Bool) → one_of name.now (rows_found found.now) ≡ Some (bool_text is_there)
        → result ≡ is_there }
{
    found.get_flag(name)
}

/// The name of a file, which isn't empty.
pub fn name_of_file<'a>(found: &ArgMatches<'a>, place: &str) -> Option<&'a str>
    ensures { MatchOption result ((name : Word) → name ≢ [] → value_in found.now place.now ≢ Some name)
        (λ name. (name.now ≢ []) × (value_in found.now place.now ≡ Some name.now)) }
{
    match value_of(found, place) {
        Some(name) => {
            if name.is_empty() {
                return None;
            }
            return Some(name);
        }
        None => return None,
    }
}

/// A number in up to 20 digits, without a sign, from `least` to `most`.
pub fn parse_number(word: &str, least: u64, most: u64) -> Result<u64, BadValue>
    ensures number { IfOk result (λ number. IsNumber least most word.now number) }
    ensures bad { OnErr result ((number : ℕ) → IsNumber least most word.now number → ⊥) }
{
    if word.is_empty() || word.len() > 20 || word.as_bytes()[0] == b'+' {
        return Err(BadValue);
    }
    match word.parse::<u64>() {
        Ok(number) => {
            if number < least || most < number {
                return Err(BadValue);
            }
            return Ok(number);
        }
        Err(_) => return Err(BadValue),
    }
}

/// The number of a name, from `least` to `most`.
pub fn number_of(
    found: &ArgMatches,
    name: &str,
    least: u64,
    most: u64,
) -> Result<Option<u64>, BadValue>
    ensures number { IfOk result (λ number. GivesNumber least most (option_to_list (value_in found.now name.now))
        number) }
    ensures bad { OnErr result ((number : Option ℕ)
        → GivesNumber least most (option_to_list (value_in found.now name.now)) number → ⊥) }
{
    match value_of(found, name) {
        Some(word) => match parse_number(word, least, most) {
            Ok(number) => return Ok(Some(number)),
            Err(BadValue) => return Err(BadValue),
        },
        None => return Ok(None),
    }
}

/// The number of a positional, from `least` to `most`.
pub fn number_at(found: &ArgMatches, place: &str, least: u64, most: u64) -> Result<u64, BadValue>
    ensures number { IfOk result (λ number. (word : Word) × (value_in found.now place.now ≡ Some word)
        × IsNumber least most word number) }
    ensures bad { OnErr result ((word : Word) (number : ℕ) → value_in found.now place.now ≡ Some word
        → IsNumber least most word number → ⊥) }
{
    match value_of(found, place) {
        Some(word) => match parse_number(word, least, most) {
            Ok(number) => return Ok(number),
            Err(BadValue) => return Err(BadValue),
        },
        None => return Err(BadValue),
    }
}
