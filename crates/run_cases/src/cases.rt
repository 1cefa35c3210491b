//! What a case says: what stands under each name, what is to fail, and what is wanted.
use crate::building::{Pieces, built, pieces_of, put};
use crate::halt::{Halt, unread};
use crate::tokens::{Token, number_of, parts_of};
use io_memory::{FailingWrite, Plan};
use std::alloc::Global;

/// What is to fail in the next run: calls of the world, and writes of standard output and standard error.
#[derive(Drop)]
pub(crate) struct Failing {
    pub plan: Plan,
    pub out: Vec<FailingWrite>,
    pub err: Vec<FailingWrite>,
}

/// What a case says of its next run.
#[derive(Drop)]
pub(crate) struct Case {
    /// What stands under each name before a run, and what is to stand there behind it, if that is something else.
    pub given: Pieces,
    pub left: Pieces,
    /// What is to stand under a name behind the lines on fronts.
    pub watched: Pieces,
    /// What is wanted of a run, by its name in the script.
    pub wanted: Pieces,
    pub failing: Failing,
}

impl Failing {
    pub fn nothing(alloc: Global) -> Self {
        Failing {
            plan: Plan {
                openings: Vec::new(alloc),
                keepings: Vec::new(alloc),
                reads: Vec::new(alloc),
                appends: Vec::new(alloc),
                writes: Vec::new(alloc),
            },
            out: Vec::new(alloc),
            err: Vec::new(alloc),
        }
    }

    /// Takes a call, and how many bytes it takes if it is a write.
    pub fn take(&mut self, said: &str) -> Result<(), Halt> {
        let (what, call) = parts_of(said);
        let (call, taken) = parts_of(call);
        let call = number_of(call)?;
        match what {
            "opening" => Ok(self.plan.openings.push(call)?),
            "keeping" => Ok(self.plan.keepings.push(call)?),
            "read" => Ok(self.plan.reads.push(call)?),
            "append" => fail_write(&mut self.plan.appends, call, taken),
            "write" => fail_write(&mut self.plan.writes, call, taken),
            "out" => fail_write(&mut self.out, call, taken),
            "err" => fail_write(&mut self.err, call, taken),
            _ => unread("no such call can fail"),
        }
    }
}

fn fail_write(writes: &mut Vec<FailingWrite>, call: u64, taken: &str) -> Result<(), Halt> {
    let taken = number_of(taken)?;
    Ok(writes.push(FailingWrite { call, taken })?)
}

impl Case {
    /// What holds in each case that doesn't say otherwise: two files beside the one that the case is about, and a run that is
    /// answered 0 and writes nothing.
    pub fn usual(alloc: Global) -> Result<Self, Halt> {
        let given = pieces_of(alloc, &[("OUT", b"before"), ("other", b"kept")])?;
        let wanted = pieces_of(
            alloc,
            &[
                ("status", b"0"),
                ("reports", b"0"),
                ("out", b""),
                ("err", b""),
            ],
        )?;
        Ok(Case {
            given,
            left: Pieces::new(alloc),
            watched: Pieces::new(alloc),
            wanted,
            failing: Failing::nothing(alloc),
        })
    }

    /// Takes what a line says of the runs behind it.
    pub fn take(
        &mut self,
        alloc: Global,
        pieces: &Pieces,
        word: &str,
        line: &[Token<'_>],
    ) -> Result<(), Halt> {
        let bytes = built(alloc, pieces, line)?;
        let (what, name) = parts_of(word);
        match what {
            "given" => put(alloc, &mut self.given, name, bytes),
            "left" => put(alloc, &mut self.left, name, bytes),
            "watched" => put(alloc, &mut self.watched, name, bytes),
            _ => put(alloc, &mut self.wanted, word, bytes),
        }
    }
}
