//! A sink over a writer of std.
ghost use Rattle.std.specs.Prelude.{◌≡◌, ◌≤◌, ◌<◌, length, IfOk};
ghost use Rattle.mcap_io.specs.OutsideCalls.{Writes};

use mcap_io::{Failed, Sink};
use std::io::{ErrorKind, Write};

/// A sink over a writer, such as standard output. It tells its bytes where the writer does. A write that takes
/// nothing is a fault, and each write is flushed.
#[derive(Drop)]
pub struct WriterSink<W> {
    writer: W,
    faults: u64,
}

impl<W: Write> WriterSink<W> {
    /// A sink over the writer. What the writer holds already counts as taken.
    pub fn new(writer: W) -> Self
        ensures { ⟦<WriterSink<W> as Sink>⟧.state result ≡ record { took = W.contents writer; faults = 0 } }
    {
        WriterSink { writer, faults: 0 }
    }

    /// The writer.
    pub fn into_inner(self) -> W
        ensures { (⟦<WriterSink<W> as Sink>⟧.state self).took ≡ W.contents result }
    {
        let WriterSink { writer, faults: _ } = self;
        writer
    }
}

impl<W: Write> Sink for WriterSink<W> {
    ghost state = { λ s. record { took = W.contents s.writer; faults = s.faults } };

    fn write(&mut self, bytes: &[u8]) -> Result<usize, Failed> {
        if bytes.is_empty() {
            return Ok(0);
        }
        match write_some(&mut self.writer, bytes) {
            Ok(n) => Ok(n),
            Err(Failed) => {
                self.faults = self.faults.saturating_add(1);
                Err(Failed)
            }
        }
    }

    fn faults(&self) -> u64 {
        self.faults
    }
}

// One write and a flush. A write that was interrupted is tried again.
fn write_some<W: Write>(writer: &mut W, bytes: &[u8]) -> Result<usize, Failed>
    ensures bound { IfOk result (λ n. (0 < n) × (n ≤ length bytes.now)) }
    ensures writes { Writes (W.contents writer.old) (W.contents writer.new) bytes.now result }
{
    'tries: for _ in 0..u64::MAX {
        match writer.write(bytes) {
            Ok(0) => return Err(Failed),
            Ok(n) => match writer.flush() {
                Ok(()) => return Ok(n),
                Err(_) => return Err(Failed),
            },
            Err(e) => {
                if e.kind() != ErrorKind::Interrupted {
                    return Err(Failed);
                }
            }
        }
    }
    Err(Failed)
}
