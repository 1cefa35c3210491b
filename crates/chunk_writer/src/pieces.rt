//! The front and the back of a file.
ghost use Rattle.std.specs.Prelude.{◌≡◌, ◌≤◌, ◌+◌, ◌++◌, ℕ, Option, length, IfOk, OnOk};
ghost use Rattle.mcap_wire.specs.Layout.{content_limit, framed};
ghost use Rattle.mcap_wire.specs.Limits.{file_limit};
ghost use Rattle.mcap_model.specs.Summary.{Noted};
ghost use Rattle.mcap_model.specs.File.{front, data_end, tail_by};
ghost use Rattle.chunk_writer.specs.Bodies.{SummaryFor, plain_tail};

use crate::body::Body;
use mcap_wire::{Bytes, HEAD_LENGTH, MAGIC, Memory, add_bytes, add_head, make_room, put_bytes};
use rec_data::{DataEnd, Footer, Header};
use std::alloc::Global;

/// What the Header says of the program that wrote the file.
const LIBRARY: &str = "mcaprec 1";

/// The magic and the Header.
#[tactic(auto, unfolding(mcap_model::specs::File::front))]
pub(crate) fn front_piece(alloc: Global, profile: &str) -> Result<Vec<u8>, Memory>
    requires { length profile.now ≤ content_limit }
    ensures piece { IfOk result (λ piece. piece.items ≡ front profile.now) }
{
    let header = Header {
        profile,
        library: LIBRARY,
    };
    let mut piece = Vec::new(alloc);
    put_bytes(&mut piece, &MAGIC)?;
    header.frame(&mut piece)?;
    Ok(piece)
}

// The Data End.
#[tactic(auto, unfolding(mcap_model::specs::File::data_end))]
fn end_piece(alloc: Global) -> Result<Vec<u8>, Memory>
    ensures { IfOk result (λ piece. piece.items ≡ data_end) }
{
    let data_end = DataEnd {
        data_section_crc: 0,
    };
    let mut piece = Vec::new(alloc);
    data_end.frame(&mut piece)?;
    Ok(piece)
}

// Adds the Footer of a file without a summary, and the magic.
fn add_footer(piece: &mut Vec<u8>) -> Result<(), Memory>
    ensures { OnOk result (piece.new.items ≡ piece.old.items ++ plain_tail) }
{
    let footer = Footer {
        summary_start: 0,
        summary_offset_start: 0,
        summary_crc: 0,
    };
    footer.frame(piece)?;
    put_bytes(piece, &MAGIC)?;
    Ok(())
}

/// The Data End and all behind it, where so many bytes stand before it.
pub(crate) fn back_piece(alloc: Global, body: &Option<Body>, bytes: u64) -> Result<Bytes, Memory>
    requires { bytes ≤ file_limit }
    ensures { IfOk result (λ piece. (size : Option ℕ) (n : Noted) → SummaryFor size n body.now
        → piece ≡ data_end ++ tail_by size n (bytes + length data_end)) }
{
    let mut piece = end_piece(alloc)?;
    let at = bytes + piece.len() as u64;
    match body {
        None => match add_footer(&mut piece) {
            Ok(()) => return Ok(Bytes::new(piece)),
            Err(memory) => return Err(memory),
        },
        Some(body) => {
            let text = match body.summary.text(at) {
                Ok(text) => text,
                Err(memory) => return Err(memory),
            };
            match put_bytes(&mut piece, text.as_slice()) {
                Ok(()) => return Ok(Bytes::new(piece)),
                Err(memory) => return Err(memory),
            }
        }
    }
}

/// The framed bytes of a record of that opcode and that content.
pub(crate) fn framed_extra(alloc: Global, op: u8, content: &[u8]) -> Result<Bytes, Memory>
    ensures { IfOk result (λ piece. piece ≡ framed op content.now) }
{
    let mut piece = Vec::new(alloc);
    make_room(&mut piece, HEAD_LENGTH as usize + content.len())?;
    add_head(&mut piece, op, content.len() as u64);
    add_bytes(&mut piece, content);
    Ok(Bytes::new(piece))
}
