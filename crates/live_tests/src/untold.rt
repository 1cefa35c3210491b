//! Blocks that tell nothing, as those of files, and a view of the file.
use mcap_io::{Extent, Failed, LiveView};

/// The place of a block in its file.
#[derive(Clone, Copy)]
pub(crate) struct Untold {
    pub from: u64,
    pub len: u64,
}

impl Extent for Untold {
    ghost use Rattle.std.specs.Prelude.{None};

    ghost tells = { λ _. None };

    ghost size = { λ it. it.len };

    fn same(&self) -> Self {
        *self
    }

    fn len(&self) -> u64 {
        self.len
    }

    ghost sized = { λ it bytes told. Prim.cc };
}

/// A view of a file. One of its reads may fail.
#[derive(Drop)]
pub(crate) struct FileView {
    file: Vec<u8>,
    failing: Option<u64>,
    reads: u64,
    faults: u64,
}

impl FileView {
    /// The reads are numbered from 0.
    pub(crate) fn new(file: Vec<u8>, failing: Option<u64>) -> FileView {
        FileView {
            file,
            failing,
            reads: 0,
            faults: 0,
        }
    }

    // Fills `out` with what stands there in the file, if all of it does.
    fn fill(&self, at: usize, out: &mut [u8]) -> bool {
        let Some(part) = self.file.get(at..at.saturating_add(out.len())) else {
            return false;
        };
        if part.len() != out.len() {
            return false;
        }
        out.copy_from_slice(part);
        true
    }
}

impl LiveView<Untold> for FileView {
    ghost failures = { λ view. view.faults };

    fn read_part(&mut self, extent: &Untold, from: u64, out: &mut [u8]) -> Result<(), Failed> {
        let fails = self.failing == Some(self.reads);
        self.reads = self.reads.saturating_add(1);
        if !fails && self.fill(extent.from.saturating_add(from) as usize, out) {
            return Ok(());
        }
        self.faults = self.faults.saturating_add(1);
        return Err(Failed);
    }

    fn faults(&self) -> u64 {
        self.faults
    }
}
