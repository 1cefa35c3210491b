//! Writing a text that is put together piece by piece, without taking memory.
ghost use Rattle.std.specs.Prelude.{◌≡◌, ◌<◌, [], ◌∷◌, false, decimal};
ghost use Rattle.std.specs.Char.{digit_char};
ghost use Rattle.arrayvec.specs.ArrayVec.{array_vec_len};
ghost use Rattle.json.specs.Print.{escape_letter, escape_byte, escape, quoted};
ghost use Rattle.command_base.specs.Putting.{PutsText};

use arrayvec::ArrayVec;
use itoa::Buffer;
use mcap_io::{Sink, write_all_of};

/// How many bytes may wait.
const ROOM: usize = 512;

/// Below this a byte is a control character (RFC 8259, section 7).
const FIRST_PRINTED: u8 = 0x20;

/// Bytes that wait to be written, so that a short text takes one write. Once a write has failed nothing more is written.
#[derive(Drop)]
pub(crate) struct Waiting {
    bytes: ArrayVec<u8, ROOM>,
    broken: bool,
}

// The letter of a byte's short escape in a JSON string (RFC 8259, section 7), or 0 where it has none.
fn short_escape(byte: u8) -> u8
    ensures { result ≡ escape_letter byte }
{
    match byte {
        b'"' | b'\\' => byte,
        8 => b'b',
        12 => b'f',
        b'\n' => b'n',
        b'\r' => b'r',
        b'\t' => b't',
        _ => 0,
    }
}

fn hex_digit(digit: u8) -> u8
    requires { digit < 16 }
    ensures { result ≡ digit_char digit }
{
    if digit < 10 {
        b'0' + digit
    } else {
        b'a' - 10 + digit
    }
}

impl Waiting {
    /// Nothing waits.
    pub(crate) fn new() -> Waiting
        ensures bytes { result.bytes.items ≡ [] }
        ensures broken { result.broken ≡ false }
    {
        Waiting {
            bytes: ArrayVec::new(),
            broken: false,
        }
    }

    /// Writes what waits, if anything does.
    pub(crate) fn write_out<E: Sink>(&mut self, err: &mut E)
        ensures puts { PutsText (E.state err.old) self.old (E.state err.new) self.new [] }
        ensures none { self.new.broken ≡ false → self.new.bytes.items ≡ [] }
    {
        if self.broken || self.bytes.is_empty() {
            return;
        }
        match write_all_of(err, self.bytes.as_slice()) {
            Ok(()) => {
                self.bytes.clear();
                return;
            }
            Err(_) => {
                self.broken = true;
                return;
            }
        }
    }

    // Makes room for a byte.
    fn make_room<E: Sink>(&mut self, err: &mut E)
        ensures puts { PutsText (E.state err.old) self.old (E.state err.new) self.new [] }
        ensures room { self.new.broken ≡ false → array_vec_len self.new.bytes < ROOM }
    {
        if self.bytes.is_full() {
            self.write_out(err);
            return;
        }
    }

    // Puts a byte behind what waits.
    fn put_byte<E: Sink>(&mut self, err: &mut E, byte: u8)
        ensures { PutsText (E.state err.old) self.old (E.state err.new) self.new (byte ∷ []) }
    {
        self.make_room(err);
        if self.broken {
            return;
        }
        self.bytes.push(byte);
    }

    // Puts bytes behind what waits.
    fn put<E: Sink>(&mut self, err: &mut E, text: &[u8])
        ensures { PutsText (E.state err.old) self.old (E.state err.new) self.new text.now }
    {
        'text: for byte in text {
            self.put_byte(err, *byte);
        }
    }

    /// Puts a text behind what waits.
    pub(crate) fn put_text<E: Sink>(&mut self, err: &mut E, text: &str)
        ensures { PutsText (E.state err.old) self.old (E.state err.new) self.new text.now }
    {
        self.put(err, text.as_bytes());
    }

    /// Puts a number behind what waits, in decimal digits.
    pub(crate) fn put_number<E: Sink>(&mut self, err: &mut E, number: u64)
        ensures { PutsText (E.state err.old) self.old (E.state err.new) self.new (decimal number) }
    {
        let mut buffer = Buffer::new();
        self.put_text(err, buffer.format(number));
    }

    // Puts what stands for a byte in a JSON string.
    fn put_escaped<E: Sink>(&mut self, err: &mut E, byte: u8)
        ensures { PutsText (E.state err.old) self.old (E.state err.new) self.new (escape_byte byte) }
    {
        let letter = short_escape(byte);
        if letter > 0 {
            self.put(err, &[b'\\', letter]);
            return;
        }
        if byte < FIRST_PRINTED {
            let (high, low) = (hex_digit(byte / 16), hex_digit(byte % 16));
            self.put(err, &[b'\\', b'u', b'0', b'0', high, low]);
            return;
        }
        self.put_byte(err, byte);
    }

    // Puts what stands for bytes in a JSON string.
    fn put_escapes<E: Sink>(&mut self, err: &mut E, text: &[u8])
        ensures { PutsText (E.state err.old) self.old (E.state err.new) self.new (escape text.now) }
    {
        'text: for byte in text {
            self.put_escaped(err, *byte);
        }
    }

    /// Puts a text as a JSON string (RFC 8259, section 7), which is one line whatever the text holds.
    pub(crate) fn put_quoted<E: Sink>(&mut self, err: &mut E, text: &str)
        ensures { PutsText (E.state err.old) self.old (E.state err.new) self.new (quoted text.now) }
    {
        self.put_byte(err, b'"');
        self.put_escapes(err, text.as_bytes());
        self.put_byte(err, b'"');
    }
}
