//! A text that owns its bytes.
ghost use Rattle.std.specs.Prelude.{◌≡◌, ◌↔◌, IsTrue, IfOk, IsUtf8, string_bytes};

use crate::faults::Memory;
use std::alloc::Global;
use std::marker::Model;

/// A text of its own. Contracts see the list of its bytes.
#[derive(Debug, Drop)]
pub struct Text {
    text: String,
}

impl Model for Text {
    ghost use Rattle.std.specs.Prelude.{List, ℕ, string_bytes};

    ghost Value = { List ℕ };

    ghost view = { λ t. string_bytes t.text };
}

impl Text {
    /// The text of a string, which it takes over.
    pub fn new(text: String) -> Text
        ensures { result ≡ string_bytes text }
    {
        Text { text }
    }

    /// A copy of a text.
    pub fn copied(alloc: Global, text: &str) -> Result<Text, Memory>
        ensures { IfOk result (λ copy. copy ≡ text.now) }
    {
        match String::from_str(alloc, text) {
            Ok(text) => Ok(Text { text }),
            Err(_) => Err(Memory),
        }
    }

    pub fn as_str(&self) -> &str
        ensures same { result.now ≡ self.now }
        ensures utf8 { IsUtf8 self.now }
    {
        self.text.as_str()
    }

    /// Whether it has the bytes of another text.
    pub fn is(&self, other: &str) -> bool
        ensures { IsTrue result ↔ (self.now ≡ other.now) }
    {
        self.text.as_str() == other
    }

    /// Its bytes, given back with their room.
    pub fn into_vec(self) -> Vec<u8>
        ensures same { result.items ≡ self }
        ensures utf8 { IsUtf8 self }
    {
        self.text.into_bytes()
    }
}

// Copies of a key and its value.
pub(crate) fn copy_pair(alloc: Global, key: &str, value: &str) -> Result<(Text, Text), Memory>
    ensures { IfOk result (λ pair. pair ≡ (key.now, value.now)) }
{
    let key = Text::copied(alloc, key)?;
    let value = Text::copied(alloc, value)?;
    Ok((key, value))
}
