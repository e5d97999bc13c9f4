//! Where bytes go to.

/// What a write answers.
#[derive(Clone, Copy, Debug, PartialEq, Eq)]
pub enum WriteAnswer {
    /// The first bytes were taken: this many, at least one.
    Took(usize),
    /// A fault. Nothing was taken.
    Failed,
}

/// What a flush answers.
#[derive(Clone, Copy, Debug, PartialEq, Eq)]
pub enum FlushAnswer {
    /// All that was written has been handed on.
    Done,
    /// A fault.
    Failed,
}

/// A sink of bytes, which counts its faults. It may keep bytes back until it is flushed.
pub trait Sink {
    ghost use Rattle.std.specs.Prelude.{◌≡◌, ℕ, Option, List, ◌<◌, length};
    ghost use Rattle.irq_io.specs.Faults.{Counts};
    ghost use Rattle.irq_io.specs.Told.{Stays};
    ghost use Rattle.irq_io.specs.Writes.{LeavesNone, TookWithin, Writes};
    ghost use Rattle.irq_io.specs.Writes.{flush_failed, write_failed};

    /// The bytes that it took so far, if the sink tells them.
    ghost written: { Self → Option (List ℕ) };

    /// The bytes that it keeps back in a buffer of its own.
    ghost kept: { Self → List ℕ };

    /// The number of faults so far.
    ghost faults: { Self → ℕ };

    /// Takes some bytes from the front of the given ones, which must not be empty. How many of them
    /// it keeps back is left open.
    fn write(&mut self, bytes: &[u8]) -> WriteAnswer
        requires { 0 < length bytes.now }
        ensures bound { TookWithin (length bytes.now) result }
        ensures content { Writes (written self.old) (written self.new) bytes.now result }
        ensures cause { Counts (faults self.old) (faults self.new) (write_failed result) };

    /// Hands on all that was taken.
    fn flush(&mut self) -> FlushAnswer
        ensures content { Stays (written self.old) (written self.new) }
        ensures emptied { LeavesNone (kept self.new) result }
        ensures cause { Counts (faults self.old) (faults self.new) (flush_failed result) };
}
