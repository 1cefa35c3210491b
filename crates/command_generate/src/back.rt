//! Reading back the file that was recorded.
ghost use Rattle.command_base.specs.OneFile.{refusal_ending};
ghost use Rattle.command_base.proofs.Refusals.{refusal_is};
ghost use Rattle.command_generate.specs.Lines.{sums_line};
ghost use Rattle.command_generate.specs.Back.{SumsComeTo};
ghost use Rattle.command_generate.specs.Laws.{back_fails};

use crate::line::line_of_sums;
use crate::{Sums, sum_messages};
use command_base::{
    Complaint, FileReading, ReadName, SourceReading, lacks_memory, reading_complaint,
};
use mcap_io::{Sink, Source, write_all_of};
use mcap_model::ReadingRefused;
use std::alloc::Global;

/// The sums of the messages of a file, whose line tells of so many feeds.
#[derive(Clone, Copy)]
pub struct Summing {
    pub alloc: Global,
    pub feeds: u64,
}

/// What became of the file's name, and the sums of its messages.
pub type Back = ReadName<Sums, ReadingRefused>;

impl FileReading for Summing {
    type Read = Sums;

    type Refused = ReadingRefused;

    ghost text = { λ s sums. sums_line s.feeds sums };

    ghost ending = { λ s file why. refusal_ending file why };

    // It takes no memory.
    fn print<O: Sink>(&self, out: &mut O, read: &mut Sums) -> bool {
        let line = line_of_sums(self.feeds, *read);
        match write_all_of(out, line.as_bytes()) {
            Ok(()) => return false,
            Err(_) => return true,
        }
    }

    fn complaint<'a>(&self, file: &'a str, why: &'a ReadingRefused) -> Option<Complaint<'a>> {
        reading_complaint(file, why)
    }

    fn lacks_memory(&self, why: &ReadingRefused) -> bool {
        lacks_memory(why)
    }

    ghost refuses = { λ s file why. refusal_is file why };
}

impl SourceReading for Summing {
    ghost comes = { λ s before now came. SumsComeTo before now came };

    fn read_source<S: Source>(&self, source: &mut S) -> Result<Sums, ReadingRefused> {
        sum_messages(self.alloc, source)
    }

    ghost fails = { λ s before now file why comes unused e. back_fails before now file why comes unused e };
}
