//! Bytes as a script writes them: numbers, texts, framed records and pieces that have names.
use crate::halt::{Halt, unread};
use crate::tokens::{Token, number_of, parts_of, tokens_of};
use std::alloc::Global;
use std::collections::BTreeMap;

/// Bytes under names.
pub(crate) type Pieces = BTreeMap<String, Vec<u8>>;

/// What stands under the name.
pub(crate) fn piece<'a>(pieces: &'a Pieces, name: &str) -> Result<&'a [u8], Halt> {
    match pieces.get(name) {
        Some(bytes) => Ok(bytes.as_slice()),
        None => unread("no piece has this name"),
    }
}

/// Puts the bytes under the name.
pub(crate) fn put(
    alloc: Global,
    pieces: &mut Pieces,
    name: &str,
    bytes: Vec<u8>,
) -> Result<(), Halt> {
    let key = String::from_str(alloc, name)?;
    pieces.insert(key, bytes)?;
    Ok(())
}

/// Bytes under these names.
pub(crate) fn pieces_of(alloc: Global, rows: &[(&str, &[u8])]) -> Result<Pieces, Halt> {
    let mut pieces = Pieces::new(alloc);
    for (name, bytes) in rows {
        put(alloc, &mut pieces, name, Vec::from_slice(alloc, bytes)?)?;
    }
    Ok(pieces)
}

/// Adds a text, in which a backquote stands for a quote, and a bar for a line feed.
pub(crate) fn add_text(bytes: &mut Vec<u8>, text: &str) -> Result<(), Halt> {
    for byte in text.as_bytes() {
        bytes.push(match *byte {
            b'`' => b'"',
            b'|' => b'\n',
            other => other,
        })?;
    }
    Ok(())
}

// Adds the first bytes of a number that is at most the largest of so many.
fn add_number(bytes: &mut Vec<u8>, width: usize, most: u64, number: u64) -> Result<(), Halt> {
    match number.to_le_bytes().get(..width) {
        Some(low) if number <= most => Ok(bytes.extend_from_slice(low)?),
        _ => unread("a number has too many bytes"),
    }
}

// Puts bytes in the place of those that stand at an offset, or behind the last.
fn add_hex(alloc: Global, bytes: &mut Vec<u8>, from: u64, digits: &str) -> Result<(), Halt> {
    let Ok(new) = hex::decode(alloc, digits) else {
        return unread("no hexadecimal digits stand where they belong");
    };
    let mut at = from;
    for byte in new.as_slice() {
        match bytes.get_mut(at as usize) {
            Some(slot) => *slot = *byte,
            None => bytes.push(*byte)?,
        }
        at = at.saturating_add(1);
    }
    Ok(())
}

// Puts a length of so many bytes before what stands behind the last bracket that is open.
fn close(bytes: &mut Vec<u8>, open: &mut Vec<usize>, width: usize) -> Result<(), Halt> {
    let Some(from) = open.pop() else {
        return unread("a bracket closes nothing");
    };
    let content = bytes.split_off(from.min(bytes.len()))?;
    add_number(bytes, width, u64::MAX, content.len() as u64)?;
    Ok(bytes.extend_from_slice(&content)?)
}

// A piece, as often as is said.
fn add_times(bytes: &mut Vec<u8>, pieces: &Pieces, said: &str) -> Result<(), Halt> {
    let (count, name) = parts_of(said);
    let piece = piece(pieces, name)?;
    for _ in 0..number_of(count)? {
        bytes.extend_from_slice(piece)?;
    }
    Ok(())
}

// What stands in a piece from an offset on, before another.
fn add_part(bytes: &mut Vec<u8>, pieces: &Pieces, said: &str) -> Result<(), Halt> {
    let (name, offsets) = parts_of(said);
    let (from, to) = parts_of(offsets);
    let piece = piece(pieces, name)?;
    match piece.get(number_of(from)? as usize..number_of(to)? as usize) {
        Some(part) => Ok(bytes.extend_from_slice(part)?),
        None => unread("a piece has no such part"),
    }
}

// A Channel of no id without a schema, on a topic of four letters, and a Message without data on it: 29 and 31 bytes.
const PAIR: &[u8; 60] =
    b"\x04\x14\0\0\0\0\0\0\0\0\0\0\0\x04\0\0\0aaaa\0\0\0\0\0\0\0\0\x05\x16\0\0\0\0\0\0\0\0\0\0\0\0\0\0\0\0\0\0\0\0\0\0\0\0\0\0\0\0\0";

// So many of them, of ids from one on, on topics that are numbers from 0 on.
fn add_pairs(bytes: &mut Vec<u8>, said: &str) -> Result<(), Halt> {
    let (count, first) = parts_of(said);
    let first = number_of(first)?;
    for number in 0..number_of(count)? {
        let [low, high, _, _, _, _, _, _] = first.saturating_add(number).to_le_bytes();
        let mut pair = *PAIR;
        (pair[9], pair[10], pair[38], pair[39]) = (low, high, low, high);
        pair[17] = b'a' + (number / 4096 % 16) as u8;
        pair[18] = b'a' + (number / 256 % 16) as u8;
        pair[19] = b'a' + (number / 16 % 16) as u8;
        pair[20] = b'a' + (number % 16) as u8;
        bytes.extend_from_slice(&pair)?;
    }
    Ok(())
}

// Refuses what hasn't so many bytes.
fn measure(bytes: &[u8], said: &str) -> Result<(), Halt> {
    if bytes.len() as u64 == number_of(said)? {
        Ok(())
    } else {
        unread("there aren't as many bytes as is said")
    }
}

fn add_named(alloc: Global, bytes: &mut Vec<u8>, pieces: &Pieces, word: &str) -> Result<(), Halt> {
    let (verb, said) = parts_of(word);
    match verb {
        "part" => add_part(bytes, pieces, said),
        "times" => add_times(bytes, pieces, said),
        "pairs" => add_pairs(bytes, said),
        "size" => measure(bytes, said),
        "at" => {
            let (from, digits) = parts_of(said);
            add_hex(alloc, bytes, number_of(from)?, digits)
        }
        _ => Ok(bytes.extend_from_slice(piece(pieces, word)?)?),
    }
}

fn add_item(
    alloc: Global,
    bytes: &mut Vec<u8>,
    open: &mut Vec<usize>,
    pieces: &Pieces,
    word: &str,
) -> Result<(), Halt> {
    let (verb, said) = parts_of(word);
    match verb {
        "u8" => add_number(bytes, 1, 0xff, number_of(said)?),
        "u16" => add_number(bytes, 2, 0xffff, number_of(said)?),
        "u32" => add_number(bytes, 4, 0xffff_ffff, number_of(said)?),
        "u64" => add_number(bytes, 8, u64::MAX, number_of(said)?),
        "hex" | "record" => add_hex(alloc, bytes, bytes.len() as u64, said),
        "(" | "[" => Ok(open.push(bytes.len())?),
        ")" => close(bytes, open, 4),
        "]" => close(bytes, open, 8),
        _ => add_named(alloc, bytes, pieces, word),
    }
}

/// Adds what a line says. Each bracket that it opens it closes.
pub(crate) fn add_line(
    alloc: Global,
    bytes: &mut Vec<u8>,
    pieces: &Pieces,
    line: &[Token<'_>],
) -> Result<(), Halt> {
    let mut open = Vec::new(alloc);
    for token in line {
        if token.quoted {
            add_text(bytes, token.text)?;
        } else {
            add_item(alloc, bytes, &mut open, pieces, token.text)?;
        }
    }
    if open.is_empty() {
        Ok(())
    } else {
        unread("a bracket is left open")
    }
}

/// The bytes that a line says.
pub(crate) fn built(alloc: Global, pieces: &Pieces, line: &[Token<'_>]) -> Result<Vec<u8>, Halt> {
    let mut bytes = Vec::new(alloc);
    add_line(alloc, &mut bytes, pieces, line)?;
    Ok(bytes)
}

/// The bytes that a line without tokens yet says.
pub(crate) fn built_in(alloc: Global, pieces: &Pieces, line: &str) -> Result<Vec<u8>, Halt> {
    let tokens = tokens_of(alloc, line)?;
    built(alloc, pieces, &tokens)
}
