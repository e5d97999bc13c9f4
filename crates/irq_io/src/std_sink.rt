//! A sink over std's writers.
ghost use Rattle.std.specs.Prelude.{◌≡◌, ◌<◌, length};
ghost use Rattle.std.specs.Io.Buffered.{writer_buffer, writer_contents, writer_inner};
ghost use Rattle.irq_io.specs.Faults.{Counts, count_after};
ghost use Rattle.irq_io.specs.Told.{Stays};
ghost use Rattle.irq_io.specs.Writes.{LeavesNone, TookWithin, Writes, flush_failed};
ghost use Rattle.irq_io.specs.Writes.{write_failed};

use crate::sinks::{FlushAnswer, Sink, WriteAnswer};
use std::io::{BufWriter, Write};
use std::marker::Model;

/// A sink over a writer of std, with std's buffer in front of it. Each `Err` is a fault, also an
/// interrupted write, and so is a write that takes nothing. Its content is what the writer tells
/// and then the buffer's bytes: all of it was handed to std, and the bytes in the buffer are `kept`
/// back. After a flush that is done the buffer is empty, and all is in the writer. Contracts see
/// the `writer` with its buffer, and `faults`.
#[derive(Drop)]
pub struct StdSink<W: Write + Drop> {
    writer: BufWriter<W>,
    faults: u64,
}

impl<W: Write + Drop> Model for StdSink<W> {
    ghost use Rattle.std.specs.Global.{Global};
    ghost use Rattle.std.specs.declared.io.buffered.BufWriter.{BufWriter};
    ghost use Rattle.irq_io.specs.StdStreams.{StdSinkSeen};

    ghost Value = { StdSinkSeen (BufWriter W Global) };

    ghost view = { λ s. record { writer = s.writer; faults = s.faults } };
}

impl<W: Write + Drop> StdSink<W> {
    /// The sink over this writer.
    pub fn new(writer: BufWriter<W>) -> StdSink<W>
        ensures writer { result.writer ≡ writer }
        ensures counts { result.faults ≡ 0 }
    {
        StdSink { writer, faults: 0 }
    }

    /// The number of faults so far; at the greatest u64 it rises no more.
    pub fn faults(&self) -> u64
        ensures { result ≡ self.now.faults }
    {
        self.faults
    }

    /// The writer. The bytes still kept back are dropped, and nothing is written.
    pub fn into_writer(self) -> W
        ensures { result ≡ writer_inner self.writer }
    {
        let (writer, _) = self.writer.into_parts();
        writer
    }
}

impl<W: Write + Drop> Sink for StdSink<W> {
    ghost written = { λ s. writer_contents W.contents s.writer };

    ghost kept = { λ s. writer_buffer s.writer };

    ghost faults = { λ s. s.faults };

    fn write(&mut self, bytes: &[u8]) -> WriteAnswer
        requires { 0 < length bytes.now }
        ensures bound { TookWithin (length bytes.now) result }
        ensures content { Writes (writer_contents W.contents self.old.writer)
            (writer_contents W.contents self.new.writer) bytes.now result }
        ensures cause { Counts self.old.faults self.new.faults (write_failed result) }

        ensures faults { self.new.faults ≡ count_after self.old.faults (write_failed result) }
    {
        match self.writer.write(bytes) {
            Ok(0) | Err(_) => {
                self.faults = self.faults.saturating_add(1);
                WriteAnswer::Failed
            }
            Ok(count) => WriteAnswer::Took(count),
        }
    }

    fn flush(&mut self) -> FlushAnswer
        ensures content { Stays (writer_contents W.contents self.old.writer)
            (writer_contents W.contents self.new.writer) }
        ensures emptied { LeavesNone (writer_buffer self.new.writer) result }
        ensures cause { Counts self.old.faults self.new.faults (flush_failed result) }

        ensures faults { self.new.faults ≡ count_after self.old.faults (flush_failed result) }
    {
        match self.writer.flush() {
            Ok(()) => FlushAnswer::Done,
            Err(_) => {
                self.faults = self.faults.saturating_add(1);
                FlushAnswer::Failed
            }
        }
    }
}
