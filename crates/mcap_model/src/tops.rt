//! Records of the top level behind those before them.
ghost use Rattle.std.specs.Prelude.{◌≡◌, ◌∷◌, List};
ghost use Rattle.rec_index.specs.Records.{chunk_opcode};
ghost use Rattle.mcap_model.specs.Tops.{Top, flat};
ghost use Rattle.mcap_model.specs.Rules.{HasDataEnd};
ghost use Rattle.mcap_model.specs.Declarations.{TablesOf};
ghost use Rattle.mcap_model.specs.Made.{top};
ghost use Rattle.mcap_model.specs.Judging.{as_judged, kept_or_breaks, JudgedAs, FirstJudged};

use crate::chunks::take_chunk;
use crate::contents::{attachment_breaks, is_data_end, is_header, is_message_index, is_metadata};
use crate::rules::Rule;
use crate::tables::{Ruling, Tables};
use rec_data::{ATTACHMENT, CHANNEL, DATA_END, HEADER, MESSAGE, METADATA, SCHEMA};
use rec_index::{CHUNK, Chunk, MESSAGE_INDEX};
use std::alloc::Global;

/// Whether a record may stand where it does.
#[derive(Clone, Copy)]
pub enum Judged<'a> {
    Fits,
    /// It breaks that rule.
    Breaks { rule: Rule },
    /// It is a chunk that names that compression.
    Compressed { name: &'a str },
    /// Memory lacked, and nothing is wrong that is told without it.
    Memory,
}

// What a ruling on a record comes to.
fn of_ruling<'a>(ruling: Ruling) -> Judged<'a>
    ensures { result ≡ as_judged ruling }
{
    match ruling {
        Ruling::Fits => return Judged::Fits,
        Ruling::Breaks { rule } => return Judged::Breaks { rule },
        Ruling::Memory => return Judged::Memory,
    }
}

// The record breaks that rule unless it keeps it.
fn kept_or<'a>(keeps: bool, rule: Rule) -> Judged<'a>
    ensures { result ≡ kept_or_breaks keeps rule }
{
    if keeps {
        return Judged::Fits;
    }
    return Judged::Breaks { rule };
}

/// Judges the first record, which is to be a Header.
pub fn judge_first<'a>(op: u8, content: &'a [u8]) -> Judged<'a>
    ensures { FirstJudged (top op content.now) result }
{
    kept_or(op == HEADER && is_header(content), Rule::V3)
}

// Judges a chunk.
fn judge_chunk<'a>(alloc: Global, tables: &mut Tables, content: &'a [u8]) -> Judged<'a>
    ensures { (first : Top) (more : List Top) → TablesOf (flat (first ∷ more)) tables.old
        → JudgedAs (first ∷ more) (top chunk_opcode content.now) tables.new result }
{
    let chunk = match Chunk::parse(content) {
        Ok(chunk) => chunk,
        Err(_) => return Judged::Breaks { rule: Rule::V6 },
    };
    if chunk.compression.len() > 0 {
        return Judged::Compressed {
            name: chunk.compression,
        };
    }
    return of_ruling(take_chunk(alloc, tables, &chunk));
}

/// Judges a record behind the Header.
pub fn judge<'a>(alloc: Global, tables: &mut Tables, op: u8, content: &'a [u8]) -> Judged<'a>
    ensures { (first : Top) (more : List Top) → (HasDataEnd (first ∷ more) → ⊥)
        → TablesOf (flat (first ∷ more)) tables.old → JudgedAs (first ∷ more) (top op content.now) tables.new result }
{
    match op {
        SCHEMA => return of_ruling(tables.take_schema(alloc, content)),
        CHANNEL => return of_ruling(tables.take_channel(alloc, content)),
        MESSAGE => match tables.take_message(content) {
            Ok(_) => return Judged::Fits,
            Err(rule) => return Judged::Breaks { rule },
        },
        CHUNK => return judge_chunk(alloc, tables, content),
        MESSAGE_INDEX => return kept_or(is_message_index(content), Rule::V6),
        ATTACHMENT => match attachment_breaks(content) {
            None => return Judged::Fits,
            Some(rule) => return Judged::Breaks { rule },
        },
        METADATA => return kept_or(is_metadata(content), Rule::V6),
        DATA_END => return kept_or(is_data_end(content), Rule::V6),
        16..=255 => return Judged::Fits,
        _ => return Judged::Breaks { rule: Rule::V5 },
    }
}
