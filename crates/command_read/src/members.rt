//! Arrays and objects of JSON, and the members of objects.
ghost use Rattle.std.specs.Prelude.{◌∷◌, [], decimal, None, OnOk};
ghost use Rattle.json.specs.Token.{begin_object, end_object, begin_array, end_array, key, number, string};
ghost use Rattle.json.specs.Tree.{json_tokens};
ghost use Rattle.command_read.specs.Json.{count_value};
ghost use Rattle.command_read.specs.Writing.{AddsTokens};

use json::Writer;
use mcap_wire::Memory;

pub(crate) fn open_object(out: &mut Writer) -> Result<(), Memory>
    ensures { OnOk result (AddsTokens out.old out.new (begin_object ∷ [])) }
{
    match out.begin_object() {
        Ok(()) => return Ok(()),
        Err(_) => return Err(Memory),
    }
}

pub(crate) fn close_object(out: &mut Writer) -> Result<(), Memory>
    ensures { OnOk result (AddsTokens out.old out.new (end_object ∷ [])) }
{
    match out.end_object() {
        Ok(()) => return Ok(()),
        Err(_) => return Err(Memory),
    }
}

pub(crate) fn open_array(out: &mut Writer) -> Result<(), Memory>
    ensures { OnOk result (AddsTokens out.old out.new (begin_array ∷ [])) }
{
    match out.begin_array() {
        Ok(()) => return Ok(()),
        Err(_) => return Err(Memory),
    }
}

pub(crate) fn close_array(out: &mut Writer) -> Result<(), Memory>
    ensures { OnOk result (AddsTokens out.old out.new (end_array ∷ [])) }
{
    match out.end_array() {
        Ok(()) => return Ok(()),
        Err(_) => return Err(Memory),
    }
}

// Writes a name, before an array.
pub(crate) fn put_name(out: &mut Writer, name: &str) -> Result<(), Memory>
    ensures { OnOk result (AddsTokens out.old out.new (key name.now ∷ [])) }
{
    match out.key(name) {
        Ok(()) => return Ok(()),
        Err(_) => return Err(Memory),
    }
}

// Writes a name and a number.
pub(crate) fn put_number(out: &mut Writer, name: &str, n: u64) -> Result<(), Memory>
    ensures { OnOk result (AddsTokens out.old out.new (key name.now ∷ number (decimal n) ∷ [])) }
{
    match out.key(name) {
        Ok(()) => {}
        Err(_) => return Err(Memory),
    }
    match out.u64(n) {
        Ok(()) => return Ok(()),
        Err(_) => return Err(Memory),
    }
}

// Writes a name and a text.
pub(crate) fn put_text(out: &mut Writer, name: &str, text: &str) -> Result<(), Memory>
    ensures { OnOk result (AddsTokens out.old out.new (key name.now ∷ string text.now ∷ [])) }
{
    match out.key(name) {
        Ok(()) => {}
        Err(_) => return Err(Memory),
    }
    match out.string(text) {
        Ok(()) => return Ok(()),
        Err(_) => return Err(Memory),
    }
}

// Writes a name and a number, or null where it isn't known.
pub(crate) fn put_count(out: &mut Writer, name: &str, n: Option<u64>) -> Result<(), Memory>
    ensures { OnOk result (AddsTokens out.old out.new (key name.now ∷ json_tokens (count_value n))) }
{
    let n = match n {
        Some(n) => n,
        None => return put_null(out, name),
    };
    return put_number(out, name, n);
}

// Writes a name and null.
fn put_null(out: &mut Writer, name: &str) -> Result<(), Memory>
    ensures { OnOk result (AddsTokens out.old out.new (key name.now ∷ json_tokens (count_value None))) }
{
    match out.key(name) {
        Ok(()) => {}
        Err(_) => return Err(Memory),
    }
    match out.null() {
        Ok(()) => return Ok(()),
        Err(_) => return Err(Memory),
    }
}
