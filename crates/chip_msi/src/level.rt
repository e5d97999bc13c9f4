//! The level of one message.
ghost use Rattle.std.specs.Prelude.{◌≡◌, true, false, not};
ghost use Rattle.chip_msi.specs.Messages.{LevelSeen, level_after_edge, level_after_mask};
ghost use Rattle.chip_msi.specs.Messages.{level_after_unmask};

use std::marker::Model;

/// The level of one message, between a device and the root of its path: a mask bit, and a pending
/// bit for an edge that comes while the mask is closed (the callbacks `irq_mask` and `irq_unmask`
/// of `struct irq_chip` that `kernel/irq/msi.c` asks of a domain's chip).
#[derive(Drop)]
pub struct MsiLevel {
    masked: bool,
    pending: bool,
}

impl Model for MsiLevel {
    ghost use Rattle.chip_msi.specs.Messages.{LevelSeen};

    ghost Value = { LevelSeen };

    ghost view = { λ l. record { masked = l.masked; pending = l.pending } };
}

impl MsiLevel {
    /// A level to which nothing has been done: it is masked, and nothing waits.
    pub fn new() -> MsiLevel
        ensures { result ≡ record { masked = true; pending = false } }
    {
        MsiLevel {
            masked: true,
            pending: false,
        }
    }

    /// The device raises an edge. Answers whether it is passed on; else it waits.
    pub fn edge(&mut self) -> bool
        ensures passed { result ≡ not self.old.masked }
        ensures level { self.new ≡ level_after_edge self.old }
    {
        if self.masked {
            self.pending = true;
            return false;
        }
        true
    }

    /// Closes the mask (`irq_mask`). What waits goes on waiting.
    pub fn mask(&mut self)
        ensures { self.new ≡ level_after_mask self.old }
    {
        self.masked = true;
    }

    /// Opens the mask (`irq_unmask`). Answers whether an edge waited; if so, it is passed on now.
    pub fn unmask(&mut self) -> bool
        ensures passed { result ≡ self.old.pending }
        ensures level { self.new ≡ level_after_unmask self.old }
    {
        let waited = self.pending;
        self.masked = false;
        self.pending = false;
        waited
    }
}
