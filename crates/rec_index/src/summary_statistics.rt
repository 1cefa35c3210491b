//! The record Statistics (MCAP specification, "Statistics (op=0x0B)").
ghost use Rattle.std.specs.Prelude.{◌≡◌, ◌+◌, ◌^◌, ◌<◌, ◌≤◌, ℕ, List, ◌++◌, length, vec_capacity, IfOk, IfErr, OnOk, OnErr};
ghost use Rattle.mcap_wire.specs.Arrays.{entry_texts};
ghost use Rattle.mcap_wire.specs.Layout.{framed};
ghost use Rattle.mcap_wire.specs.Writing.{LacksRoom};
ghost use Rattle.rec_index.specs.Fields.{StatisticsFields};
ghost use Rattle.rec_index.specs.Parsed.{statistics_fields};
ghost use Rattle.rec_index.specs.Records.{statistics_opcode, statistics_text, ShowsStatistics};
ghost use Rattle.rec_index.specs.RecordReading.{StatisticsFails};

use crate::opcodes::STATISTICS;
use mcap_wire::{
    Bad, CountsRef, HEAD_LENGTH, Memory, add_counts, add_head, add_u16, add_u32, add_u64, at_field,
    make_room, take_counts, take_u16, take_u32, take_u64,
};

/// How many records of each kind the file has, the first and the last log time of its messages in nanoseconds, and how many
/// messages each channel has.
#[derive(Drop)]
pub struct Statistics<'a> {
    pub message_count: u64,
    pub schema_count: u16,
    pub channel_count: u32,
    pub attachment_count: u32,
    pub metadata_count: u32,
    pub chunk_count: u32,
    pub message_start_time: u64,
    pub message_end_time: u64,
    pub channel_message_counts: CountsRef<'a>,
}

impl<'a> Statistics<'a> {
    /// Reads the fields from a content. Bytes after the last field are allowed.
    pub fn parse(content: &'a [u8]) -> Result<Self, Bad>
        ensures shown { IfOk result (λ i. ShowsStatistics content.now (statistics_fields i)) }
        ensures none { OnErr result ((f : StatisticsFields) → ShowsStatistics content.now f → ⊥) }
        ensures first_fault { IfErr result (λ bad. StatisticsFails content.now bad.field bad.why) }
    {
        let (message_count, at) = at_field(1, take_u64(content, 0))?;
        let (schema_count, at) = at_field(2, take_u16(content, at))?;
        let (channel_count, at) = at_field(3, take_u32(content, at))?;
        let (attachment_count, at) = at_field(4, take_u32(content, at))?;
        let (metadata_count, at) = at_field(5, take_u32(content, at))?;
        let (chunk_count, at) = at_field(6, take_u32(content, at))?;
        let (message_start_time, at) = at_field(7, take_u64(content, at))?;
        let (message_end_time, at) = at_field(8, take_u64(content, at))?;
        let (channel_message_counts, _after) = at_field(9, take_counts(content, at))?;
        Ok(Statistics {
            message_count,
            schema_count,
            channel_count,
            attachment_count,
            metadata_count,
            chunk_count,
            message_start_time,
            message_end_time,
            channel_message_counts,
        })
    }

    /// Appends the whole record. Memory is lacking only where the vector has no room for it, and then the vector keeps its
    /// bytes.
    pub fn frame(&self, out: &mut Vec<u8>) -> Result<(), Memory>
        requires { length (entry_texts 2 self.now.channel_message_counts) < 2 ^ 32 }
        ensures ok { OnOk result (out.new.items ≡ out.old.items ++ framed statistics_opcode
            (statistics_text (statistics_fields self.now))) }
        ensures err { OnErr result (out.new.items ≡ out.old.items) }
        ensures full { OnErr result (LacksRoom out.old
            (55 + length (entry_texts 2 self.now.channel_message_counts))) }
        ensures capacity { vec_capacity out.old ≤ vec_capacity out.new }
    {
        let len = 46 + self.channel_message_counts.byte_len();
        make_room(out, HEAD_LENGTH as usize + len)?;
        add_head(out, STATISTICS, len as u64);
        add_u64(out, self.message_count);
        add_u16(out, self.schema_count);
        add_u32(out, self.channel_count);
        add_u32(out, self.attachment_count);
        add_u32(out, self.metadata_count);
        add_u32(out, self.chunk_count);
        add_u64(out, self.message_start_time);
        add_u64(out, self.message_end_time);
        add_counts(out, &self.channel_message_counts);
        Ok(())
    }
}
