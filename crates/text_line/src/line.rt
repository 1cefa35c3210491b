//! A line of text of fixed room, so that printing takes no memory.
ghost use Rattle.std.specs.Prelude.{◌≡◌, ◌+◌, ◌≤◌, ◌++◌, [], length, decimal};

use arrayvec::ArrayString;
use itoa::Buffer;
use std::marker::Model;

/// The bytes that a line has room for: the longest, of a verdict with the largest numbers, takes all of them.
pub const LINE_ROOM: usize = 191;

/// A line that is being put together. Contracts see the list of its bytes.
#[derive(Drop)]
pub struct Line {
    text: ArrayString<LINE_ROOM>,
}

impl Model for Line {
    ghost use Rattle.std.specs.Prelude.{List, ℕ};

    ghost Value = { List ℕ };

    ghost view = { λ line. line.text.bytes };
}

impl Line {
    /// An empty line.
    pub fn new() -> Line
        ensures { result ≡ [] }
    {
        Line {
            text: ArrayString::new(),
        }
    }

    /// Puts a text behind the line.
    pub fn push_text(&mut self, text: &str)
        requires { length self.old + length text.now ≤ LINE_ROOM }
        ensures text { self.new ≡ self.old ++ text.now }
        ensures len { length self.new ≡ length self.old + length text.now }
    {
        self.text.push_str(text);
    }

    /// Puts a number behind the line, in decimal digits: at most 20 of them.
    pub fn push_number(&mut self, number: u64)
        requires { length self.old + 20 ≤ LINE_ROOM }
        ensures text { self.new ≡ self.old ++ decimal number }
        ensures len { length self.new ≤ length self.old + 20 }
    {
        let mut buffer = Buffer::new();
        self.text.push_str(buffer.format(number));
    }

    /// The bytes of the line.
    pub fn as_bytes(&self) -> &[u8]
        ensures { result.now ≡ self.now }
    {
        self.text.as_str().as_bytes()
    }
}
