//! A source over std's readers.
ghost use Rattle.std.specs.Prelude.{◌≡◌, ◌<◌, length};
ghost use Rattle.irq_io.specs.Faults.{Counts, count_after};
ghost use Rattle.irq_io.specs.Reads.{GotWithin, Reads, read_failed};

use crate::sources::{ReadAnswer, Source};
use std::io::Read;
use std::marker::Model;

/// A source over a reader of std. Each `Err` is a fault, also an interrupted read. The source tells
/// what the reader tells: a slice tells its bytes; standard input tells nothing, since no contract
/// knows what an operating system gives. Contracts see the `reader` and `faults`.
#[derive(Drop)]
pub struct StdSource<R> {
    reader: R,
    faults: u64,
}

impl<R> Model for StdSource<R> {
    ghost use Rattle.irq_io.specs.StdStreams.{StdSourceSeen};

    ghost Value = { StdSourceSeen R };

    ghost view = { λ s. record { reader = s.reader; faults = s.faults } };
}

impl<R> StdSource<R> {
    /// The source over this reader.
    pub fn new(reader: R) -> StdSource<R>
        ensures reader { result.reader ≡ reader }
        ensures counts { result.faults ≡ 0 }
    {
        StdSource { reader, faults: 0 }
    }

    /// The number of faults so far; at the greatest u64 it rises no more.
    pub fn faults(&self) -> u64
        ensures { result ≡ self.now.faults }
    {
        self.faults
    }
}

impl<R: Read> Source for StdSource<R> {
    ghost left = { λ s. R.remaining s.reader };

    ghost faults = { λ s. s.faults };

    fn read(&mut self, buf: &mut [u8]) -> ReadAnswer
        requires { 0 < length buf.old }
        ensures bound { GotWithin (length buf.old) result }
        ensures content { Reads (R.remaining self.old.reader) (R.remaining self.new.reader)
            buf.new result }
        ensures cause { Counts self.old.faults self.new.faults (read_failed result) }

        ensures faults { self.new.faults ≡ count_after self.old.faults (read_failed result) }
    {
        match self.reader.read(buf) {
            Ok(0) => ReadAnswer::End,
            Ok(count) => ReadAnswer::Got(count),
            Err(_) => {
                self.faults = self.faults.saturating_add(1);
                ReadAnswer::Failed
            }
        }
    }
}
