//! Stores over files. What a file gives no clause can say, so they tell nothing.
ghost use Rattle.std.specs.Prelude.{◌≡◌, ◌+◌, ◌≤◌, ◌^◌, length, min, IsErr};
ghost use Rattle.io_files.specs.Files.{nothing};
ghost use Rattle.mcap_io.specs.Stores.{IsUnused};
ghost use Rattle.mcap_io.specs.StoreAnswers.{Measures, ReadsPart};

use crate::blocks::Blocks;
use crate::inputs::FileId;
use mcap_io::{Failed, Store};
use std::alloc::Global;
use std::fs::OpenFile;
use std::os::unix::fs::FileExt;

/// A store over a file. It reads at offsets, and leaves the file's own position where it is. A short part is copied from
/// blocks of 16,384 bytes, of which it keeps 64; a longer one is read as it is asked for.
pub struct FileStore<F> {
    file: F,
    id: FileId,
    blocks: Blocks,
    known: u64,
    asked: u128,
    faults: u64,
}

impl<F: OpenFile + FileExt + Drop> FileStore<F> {
    // The store of an opened file, none of whose bytes was asked for.
    pub(crate) fn new(alloc: Global, file: F, id: FileId) -> Self
        ensures unused { IsUnused (⟦<FileStore<F> as Store>⟧.state result) }
        ensures id { result.id ≡ id }
    {
        FileStore {
            file,
            id,
            blocks: Blocks::new(alloc),
            known: 0,
            asked: 0,
            faults: 0,
        }
    }

    // Closes the file, and says which it was.
    pub(crate) fn close(self) -> FileId
        ensures { result ≡ self.id }
    {
        let FileStore {
            file: _,
            id,
            blocks: _,
            known: _,
            asked: _,
            faults: _,
        } = self;
        id
    }
}

impl<F: OpenFile + FileExt + Drop> Store for FileStore<F> {
    ghost state = { λ s. record { bytes = nothing; known = s.known; faults = s.faults; asked = s.asked } };

    fn len(&mut self) -> Result<u64, Failed>
        ensures measures { Measures
            (record { bytes = nothing; known = self.old.known; faults = self.old.faults; asked = self.old.asked })
            (record { bytes = nothing; known = self.new.known; faults = self.new.faults; asked = self.new.asked })
            result }
        ensures id { self.new.id ≡ self.old.id }
    {
        match self.file.metadata() {
            Ok(metadata) => {
                let len = metadata.len();
                self.known = self.known.max(len);
                return Ok(len);
            }
            Err(_) => {
                self.faults = self.faults.saturating_add(1);
                return Err(Failed);
            }
        }
    }

    fn read_at(&mut self, at: u64, out: &mut [u8]) -> Result<(), Failed>
        requires { at + length out.old ≤ self.old.known }
        ensures reads { ReadsPart
            (record { bytes = nothing; known = self.old.known; faults = self.old.faults; asked = self.old.asked })
            (record { bytes = nothing; known = self.new.known; faults = self.new.faults; asked = self.new.asked }) at
            out.new result }
        ensures id { self.new.id ≡ self.old.id }
    {
        self.asked = self.asked.saturating_add(out.len() as u128);
        if self.blocks.read(&self.file, at, out) {
            return Ok(());
        }
        match self.file.read_exact_at(out, at) {
            Ok(()) => return Ok(()),
            Err(_) => {
                self.faults = self.faults.saturating_add(1);
                return Err(Failed);
            }
        }
    }

    fn asked(&self) -> u128 {
        self.asked
    }

    fn faults(&self) -> u64 {
        self.faults
    }

    ghost within = { λ s bytes told. Prim.cc };
}
