//! A script, block by block.
use crate::building::{Pieces, add_line, built_in, piece, pieces_of, put};
use crate::cases::Case;
use crate::halt::{Halt, unread};
use crate::reports::are_told;
use crate::running::{Ran, run_once};
use crate::telling::Telling;
use crate::tokens::{Token, number_of, parts_of, tokens_of};
use crate::words::{command_in, words_of};
use mcap_wire::Text;
use std::alloc::{AllocGlobal, Global};
use std::mem;
use std::sync::Wait;
use std::thread::Threads;

// The statuses of a fault and of a want of memory, and one that no run answers.
const FAULT: u8 = 3;

const NO_MEMORY: u8 = 5;

const NO_STATUS: u8 = 255;

// What the indented lines of a block say.
#[derive(Drop)]
enum Kind {
    Bytes,
    Words,
    Runs,
}

// What is wanted of a run in which a read fails: this complaint, and nothing that is printed.
fn wanted_of_failing(alloc: Global, fault: &[u8]) -> Result<Pieces, Halt> {
    let mut wanted = pieces_of(alloc, &[("status", b"3"), ("reports", b"0"), ("out", b"")])?;
    put(alloc, &mut wanted, "err", Vec::from_slice(alloc, fault)?)?;
    Ok(wanted)
}

/// What a script said so far, and what its cases came to.
#[derive(Drop)]
pub(crate) struct Session {
    alloc: Global,
    pub telling: Telling,
    /// How many cases differ from what is wanted.
    pub wrong: u64,
    cases: u64,
    runs: u64,
    pieces: Pieces,
    // The block at hand.
    kind: Kind,
    name: String,
    bytes: Vec<u8>,
    case: Case,
}

impl Session {
    pub fn new(alloc: Global) -> Result<Self, Halt> {
        Ok(Session {
            alloc,
            telling: Telling {
                alloc,
                text: String::new(alloc),
                line: 0,
                differs: false,
            },
            wrong: 0,
            cases: 0,
            runs: 0,
            pieces: Pieces::new(alloc),
            kind: Kind::Bytes,
            name: String::new(alloc),
            bytes: Vec::new(alloc),
            case: Case::usual(alloc)?,
        })
    }

    fn end_case(&mut self) -> Result<(), Halt> {
        self.cases = self.cases.saturating_add(1);
        let mut said = "ok";
        if self.telling.differs {
            self.wrong = self.wrong.saturating_add(1);
            said = "differs";
        }
        let name = self.name.as_str();
        let line = format!(in self.alloc; "{name}: {said}\n")?;
        Ok(self.telling.text.push_str(line.as_str())?)
    }

    // Ends the block at hand.
    fn end_block(&mut self) -> Result<(), Halt> {
        match self.kind {
            Kind::Bytes => {
                let bytes = mem::replace(&mut self.bytes, Vec::new(self.alloc));
                put(self.alloc, &mut self.pieces, self.name.as_str(), bytes)
            }
            Kind::Words | Kind::Runs => self.end_case(),
        }
    }

    // Begins the block of a line that isn't indented.
    fn take_head(&mut self, line: &str) -> Result<(), Halt> {
        self.end_block()?;
        let Some((word, name)) = line.split_once(' ') else {
            return unread("no block begins so");
        };
        self.kind = match word {
            "bytes" => Kind::Bytes,
            "words" => Kind::Words,
            "case" => Kind::Runs,
            _ => return unread("no block begins so"),
        };
        self.name = String::from_str(self.alloc, name)?;
        self.telling.differs = false;
        self.case = Case::usual(self.alloc)?;
        Ok(())
    }

    // Compares, and answers whether the status is that of `otherwise`, where what stands there is wanted.
    fn see(&mut self, ran: &Ran, otherwise: u8, wanted: &Pieces) -> Result<bool, Halt> {
        if ran.status == otherwise {
            self.telling.see_all(
                &self.case.given,
                &self.case.left,
                &self.case.watched,
                wanted,
                ran,
            )?;
            return Ok(true);
        }
        let usual = &self.case.wanted;
        self.telling.see_all(
            &self.case.given,
            &self.case.left,
            &self.case.watched,
            usual,
            ran,
        )?;
        Ok(false)
    }

    // Runs the words, and compares so.
    fn run_once(
        &mut self,
        rt: &(impl AllocGlobal + Threads + Wait + Sync),
        words: &[Text],
        otherwise: u8,
        wanted: &Pieces,
    ) -> Result<bool, Halt> {
        self.runs = self.runs.saturating_add(1);
        let ran = run_once(rt, &mut self.case, words)?;
        self.see(&ran, otherwise, wanted)
    }

    // Where the status is that of `otherwise`, all that is wanted is that nothing is printed.
    fn run(
        &mut self,
        rt: &(impl AllocGlobal + Threads + Wait + Sync),
        line: &[Token<'_>],
        otherwise: u8,
    ) -> Result<(), Halt> {
        let words = words_of(self.alloc, &self.pieces, line)?;
        let wanted = pieces_of(self.alloc, &[("out", b"")])?;
        let _is_other = self.run_once(rt, &words, otherwise, &wanted)?;
        Ok(())
    }

    // The reads fail in turn, one in each run, as long as there are so many. Answers how many runs tell of that.
    fn run_each(
        &mut self,
        rt: &(impl AllocGlobal + Threads + Wait + Sync),
        tries: u64,
        words: &[Text],
        wanted: &Pieces,
    ) -> Result<u64, Halt> {
        let mut failed = 0u64;
        for read in 0..tries {
            self.case.failing.plan.reads.push(read)?;
            if self.run_once(rt, words, FAULT, wanted)? {
                failed = failed.saturating_add(1);
                if failed <= read {
                    self.telling.note("a read failed behind one that didn't")?;
                }
            }
        }
        Ok(failed)
    }

    fn each_read(
        &mut self,
        rt: &(impl AllocGlobal + Threads + Wait + Sync),
        said: &str,
        line: &[Token<'_>],
    ) -> Result<(), Halt> {
        let (tries, said) = parts_of(said);
        let (least, most) = parts_of(said);
        let (tries, least, most) = (number_of(tries)?, number_of(least)?, number_of(most)?);
        let Some((fault, words)) = line.split_first() else {
            return unread("no complaint stands where one belongs");
        };
        let fault = piece(&self.pieces, fault.text)?;
        let wanted = wanted_of_failing(self.alloc, fault)?;
        let words = words_of(self.alloc, &self.pieces, words)?;
        let failed = self.run_each(rt, tries, &words, &wanted)?;
        if failed < least || failed > most {
            return self.telling.note("not as many reads failed as is said");
        }
        Ok(())
    }

    // Calls what a run left under OUT as is said.
    fn keep(&mut self, name: &str, ran: &Ran) -> Result<(), Halt> {
        match ran.world.bytes("OUT") {
            Some(bytes) if ran.status == 0 => {
                let bytes = Vec::from_slice(self.alloc, bytes)?;
                put(self.alloc, &mut self.pieces, name, bytes)
            }
            _ => self.telling.note("nothing was made"),
        }
    }

    // Runs the words, and calls what they leave under OUT as is said.
    fn make(
        &mut self,
        rt: &(impl AllocGlobal + Threads + Wait + Sync),
        name: &str,
        line: &[Token<'_>],
    ) -> Result<(), Halt> {
        let words = words_of(self.alloc, &self.pieces, line)?;
        let ran = run_once(rt, &mut self.case, &words)?;
        self.keep(name, &ran)
    }

    // Takes a directive of a case.
    fn take_directive(
        &mut self,
        rt: &(impl AllocGlobal + Threads + Wait + Sync),
        line: &[Token<'_>],
    ) -> Result<(), Halt> {
        let Some((word, rest)) = line.split_first() else {
            return Ok(());
        };
        let (verb, said) = parts_of(word.text);
        match verb {
            "run" => self.run(rt, rest, NO_STATUS),
            "run_or_lack" => self.run(rt, rest, NO_MEMORY),
            "each_read" => self.each_read(rt, said, rest),
            "make" => self.make(rt, said, rest),
            "fail" => self.case.failing.take(said),
            _ => self.case.take(self.alloc, &self.pieces, word.text, rest),
        }
    }

    // Compares the command that words are with the one that is wanted.
    fn take_words(&mut self, line: &str) -> Result<(), Halt> {
        let Some((words, wanted)) = line.split_once("=>") else {
            return unread("no command is wanted");
        };
        self.runs = self.runs.saturating_add(1);
        let got = command_in(self.alloc, &self.pieces, words)?;
        let wanted = built_in(self.alloc, &self.pieces, wanted)?;
        self.telling.compare("words", &wanted, got.as_bytes())
    }

    // Takes what an indented line says, or one part of it.
    fn take_part(
        &mut self,
        rt: &(impl AllocGlobal + Threads + Wait + Sync),
        part: &str,
    ) -> Result<(), Halt> {
        match self.kind {
            Kind::Words => self.take_words(part),
            Kind::Bytes => {
                let tokens = tokens_of(self.alloc, part)?;
                add_line(self.alloc, &mut self.bytes, &self.pieces, &tokens)
            }
            Kind::Runs => {
                let tokens = tokens_of(self.alloc, part)?;
                self.take_directive(rt, &tokens)
            }
        }
    }

    /// Takes a line.
    pub fn take(
        &mut self,
        rt: &(impl AllocGlobal + Threads + Wait + Sync),
        line: &str,
    ) -> Result<(), Halt> {
        self.telling.line = self.telling.line.saturating_add(1);
        let said = match line.split_once('#') {
            Some((said, _)) => said.trim_end(),
            None => line,
        };
        if said.is_empty() {
            return Ok(());
        }
        if !said.starts_with(' ') {
            return self.take_head(said);
        }
        for part in said.split(';') {
            self.take_part(rt, part)?;
        }
        Ok(())
    }

    // The case of reports that no run brings about. No script has it.
    fn end_reports(&mut self) -> Result<(), Halt> {
        self.name = String::from_str(self.alloc, "reports that no run makes are told")?;
        self.telling.differs = !are_told(self.alloc)?;
        self.end_case()
    }

    /// Ends the script, and says how much it had.
    pub fn end(&mut self) -> Result<(), Halt> {
        self.end_block()?;
        self.end_reports()?;
        let (cases, runs, wrong) = (self.cases, self.runs, self.wrong);
        let line = format!(in self.alloc;
            "{cases} cases, {wrong} of which differ, in {runs} runs and lists of words\n"
        )?;
        Ok(self.telling.text.push_str(line.as_str())?)
    }
}
