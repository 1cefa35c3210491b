//! Blocks of a file that were read, kept for the next read.
ghost use Rattle.std.specs.Prelude.{◌≤◌, vec_len};

use std::alloc::Global;
use std::os::unix::fs::FileExt;

/// The size of a block. A block begins at a multiple of it.
const SIZE: usize = 16_384;

/// How many blocks are kept: together they are longer than a chunk of the usual size with its Message Indexes.
const COUNT: usize = 64;

// The first `filled` bytes of the room are those of the file from `start` on.
#[derive(Drop)]
struct Block {
    start: u64,
    filled: usize,
    room: Vec<u8>,
    ghost within: { filled ≤ vec_len room },
}

impl Block {
    // A block of nothing, which takes its room at its first reading.
    fn new(alloc: Global) -> Self {
        Block {
            start: 0,
            filled: 0,
            room: Vec::new(alloc),
        }
    }

    // Reads the block that starts there, as much of it as one read gives. Without room it holds nothing.
    fn fill<F: FileExt>(&mut self, file: &F, start: u64) {
        self.filled = 0;
        self.start = start;
        if self.room.resize(SIZE, 0).is_err() {
            return;
        }
        match file.read_at(self.room.as_mut_slice(), start) {
            Ok(n) => self.filled = n,
            Err(_) => {}
        }
    }

    // Copies the bytes at that place of the block, if it holds them all.
    fn give(&self, from: usize, out: &mut [u8]) -> bool {
        if from > self.filled || out.len() > self.filled - from {
            return false;
        }
        out.copy_from_slice(&self.room[from..from + out.len()]);
        true
    }
}

/// Blocks of a file, each in the place that its offset gives it.
#[derive(Drop)]
pub(crate) struct Blocks {
    kept: Vec<Block>,
}

impl Blocks {
    /// Fewer are kept where memory lacks for them.
    pub(crate) fn new(alloc: Global) -> Self {
        let mut kept = Vec::new(alloc);
        'blocks: for _ in 0..COUNT {
            match kept.push(Block::new(alloc)) {
                Ok(()) => {}
                Err(_) => break,
            }
        }
        Blocks { kept }
    }

    // Copies a part of the block that starts there, which is read where it isn't kept.
    fn give<F: FileExt>(&mut self, file: &F, start: u64, from: usize, out: &mut [u8]) -> bool {
        let count = self.kept.len();
        if count == 0 {
            return false;
        }
        let place = (start / SIZE as u64 % count as u64) as usize;
        let block = &mut self.kept[place];
        if block.filled == 0 || block.start != start {
            block.fill(file, start);
        }
        block.give(from, out)
    }

    /// Copies the bytes from that offset on, out of blocks. It doesn't where they are longer than a block, or where a
    /// block can't be read up to their end: then they have to be read from the file itself.
    pub(crate) fn read<F: FileExt>(&mut self, file: &F, at: u64, out: &mut [u8]) -> bool {
        if out.len() > SIZE || at > u64::MAX - SIZE as u64 {
            return false;
        }
        let mut done = 0;
        'pieces: while done < out.len() {
            let place = at + done as u64;
            let from = (place % SIZE as u64) as usize;
            let end = (done + SIZE - from).min(out.len());
            if !self.give(file, place - from as u64, from, &mut out[done..end]) {
                return false;
            }
            done = end;
        }
        true
    }
}
