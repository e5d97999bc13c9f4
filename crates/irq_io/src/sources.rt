//! Where bytes come from.

/// What a read answers.
#[derive(Clone, Copy, Debug, PartialEq, Eq)]
pub enum ReadAnswer {
    /// This many bytes came, at least one. They stand at the front of the buffer.
    Got(usize),
    /// Nothing is left.
    End,
    /// A fault. Nothing was taken.
    Failed,
}

/// A source of bytes, which counts its faults.
pub trait Source {
    ghost use Rattle.std.specs.Prelude.{ℕ, Option, List, ◌<◌, length};
    ghost use Rattle.irq_io.specs.Faults.{Counts};
    ghost use Rattle.irq_io.specs.Reads.{GotWithin, Reads, read_failed};

    /// What is left to read, if the source tells it.
    ghost left: { Self → Option (List ℕ) };

    /// The number of faults so far.
    ghost faults: { Self → ℕ };

    /// Reads into the front of the buffer, which must not be empty.
    fn read(&mut self, buf: &mut [u8]) -> ReadAnswer
        requires { 0 < length buf.old }
        ensures bound { GotWithin (length buf.old) result }
        ensures content { Reads (left self.old) (left self.new) buf.new result }
        ensures cause { Counts (faults self.old) (faults self.new) (read_failed result) };
}
