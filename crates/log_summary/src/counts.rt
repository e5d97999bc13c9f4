//! How many entries of each kind there are.
ghost use Rattle.std.specs.Prelude.{◌≡◌, ◌+◌, ◌^◌, ◌<◌, []};
ghost use Rattle.log_summary.specs.Gained.{AreCountsOf, counts_with};

use irq_base::EntryKind;

/// What is counted of a history.
#[derive(Clone, Copy)]
pub(crate) struct Counts {
    /// Asks of devices.
    pub(crate) asks: u64,
    /// Interrupts that a processor took.
    pub(crate) takes: u64,
    /// Runs of handlers.
    pub(crate) runs: u64,
    /// Runs of threads.
    pub(crate) threads: u64,
    /// Asks that all these runs, and calls, served.
    pub(crate) served: u64,
}

impl Counts {
    /// The counts of no entry.
    pub(crate) fn new() -> Counts
        ensures { AreCountsOf [] result }
    {
        Counts {
            asks: 0,
            takes: 0,
            runs: 0,
            threads: 0,
            served: 0,
        }
    }

    /// Counts one more entry of this kind.
    pub(crate) fn add(&mut self, kind: EntryKind)
        requires runs { (self.old.runs < 2 ^ 32) × (self.old.threads < 2 ^ 32) }
        requires others { (self.old.asks < 2 ^ 32) × (self.old.takes < 2 ^ 32) }
        requires served { self.old.served < 2 ^ 63 }
        ensures with { self.new ≡ counts_with self.old kind }
        ensures few { self.new.served < self.old.served + 2 ^ 32 }
    {
        match kind {
            EntryKind::Ask => self.asks += 1,
            EntryKind::Take => self.takes += 1,
            EntryKind::Begin => self.runs += 1,
            EntryKind::ThreadBegin => self.threads += 1,
            EntryKind::Return { served }
            | EntryKind::ThreadReturn { served }
            | EntryKind::Serve { served } => self.served += u64::from(served),
            EntryKind::Standing | EntryKind::Other => {}
        }
    }
}
