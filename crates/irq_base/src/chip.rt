//! What a line asks of its chips (`struct irq_chip`, `include/linux/irq.h`).
ghost use Rattle.std.specs.Prelude.{◌≡◌, ℕ, ◌<◌, Bool, true, false};
ghost use Rattle.irq_base.specs.Wiring.{Wiring};
ghost use Rattle.irq_base.specs.Cell.{Cell, is_edge_cell, after_edge, after_high, after_mask};
ghost use Rattle.irq_base.specs.Cell.{after_unmask, after_accept, after_ack, after_eoi};
ghost use Rattle.irq_base.specs.Cell.{after_retrigger, can_retrigger, signals};

use crate::numbers::CpuNo;

/// The chips of one line, from its device up to the processors, as one. Contracts see four things:
/// the signal cell, whether the interrupt is active, the processor that it is aimed at, and how the
/// chips are wired. Each call changes what its clauses say and leaves the rest.
pub trait Chip {
    /// All that the chips keep of the line's signal.
    ghost cell: { Self → Cell };

    /// Whether the domains have activated the interrupt (`irqd_is_activated`).
    ghost active: { Self → Bool };

    /// The processor that it is aimed at (`effective_affinity` of `struct irq_common_data`).
    ghost aimed: { Self → ℕ };

    /// How the chips are wired, which no call changes: how many levels the path has, and the number
    /// that its messages carry.
    ghost wiring: { Self → Wiring };

    /// The device of an edge line raises an edge: the wire, which Linux doesn't see.
    fn edge(&mut self)
        requires { is_edge_cell (cell self.old) ≡ true }
        ensures cell { cell self.new ≡ after_edge (cell self.old) }
        ensures active { active self.new ≡ active self.old }
        ensures aimed { aimed self.new ≡ aimed self.old }
        ensures wiring { wiring self.new ≡ wiring self.old };

    /// The level of a level line is high or low from now on: the wire, which Linux doesn't see.
    fn set_high(&mut self, high: bool)
        requires { is_edge_cell (cell self.old) ≡ false }
        ensures cell { cell self.new ≡ after_high high (cell self.old) }
        ensures active { active self.new ≡ active self.old }
        ensures aimed { aimed self.new ≡ aimed self.old }
        ensures wiring { wiring self.new ≡ wiring self.old };

    /// Closes the mask (`irq_mask`).
    fn mask(&mut self)
        ensures cell { cell self.new ≡ after_mask (cell self.old) }
        ensures active { active self.new ≡ active self.old }
        ensures aimed { aimed self.new ≡ aimed self.old }
        ensures wiring { wiring self.new ≡ wiring self.old };

    /// Opens the mask (`irq_unmask`). Only of an active interrupt.
    fn unmask(&mut self)
        requires activated { active self.old ≡ true }
        ensures cell { cell self.new ≡ after_unmask (cell self.old) }
        ensures active { active self.new ≡ active self.old }
        ensures aimed { aimed self.new ≡ aimed self.old }
        ensures wiring { wiring self.new ≡ wiring self.old };

    /// A processor takes the interrupt that is presented to it, as its entry code reads the number
    /// from the controller before it calls `generic_handle_domain_irq` (`kernel/irq/irqdesc.c`).
    fn accept(&mut self)
        ensures cell { cell self.new ≡ after_accept (cell self.old) }
        ensures active { active self.new ≡ active self.old }
        ensures aimed { aimed self.new ≡ aimed self.old }
        ensures wiring { wiring self.new ≡ wiring self.old };

    /// Acknowledges the edge (`irq_ack`).
    fn ack(&mut self)
        ensures cell { cell self.new ≡ after_ack (cell self.old) }
        ensures active { active self.new ≡ active self.old }
        ensures aimed { aimed self.new ≡ aimed self.old }
        ensures wiring { wiring self.new ≡ wiring self.old };

    /// Ends the interrupt (`irq_eoi`).
    fn eoi(&mut self)
        ensures cell { cell self.new ≡ after_eoi (cell self.old) }
        ensures active { active self.new ≡ active self.old }
        ensures aimed { aimed self.new ≡ aimed self.old }
        ensures wiring { wiring self.new ≡ wiring self.old };

    /// Sends the interrupt again, and answers whether the chips can (`irq_retrigger`). The
    /// interrupt is active, and the mask open.
    fn retrigger(&mut self) -> bool
        requires activated { active self.old ≡ true }
        requires open { (cell self.old).masked ≡ false }
        ensures answer { result ≡ can_retrigger (cell self.old) }
        ensures cell { cell self.new ≡ after_retrigger (cell self.old) }
        ensures active { active self.new ≡ active self.old }
        ensures aimed { aimed self.new ≡ aimed self.old }
        ensures wiring { wiring self.new ≡ wiring self.old };

    /// Activates the interrupt in its domains (`irq_domain_activate_irq`,
    /// `kernel/irq/irqdomain.c`).
    fn activate(&mut self)
        ensures cell { cell self.new ≡ cell self.old }
        ensures active { active self.new ≡ true }
        ensures aimed { aimed self.new ≡ aimed self.old }
        ensures wiring { wiring self.new ≡ wiring self.old };

    /// Gives up what the activation made (`irq_domain_deactivate_irq`, `kernel/irq/irqdomain.c`).
    fn deactivate(&mut self)
        ensures cell { cell self.new ≡ cell self.old }
        ensures active { active self.new ≡ false }
        ensures aimed { aimed self.new ≡ aimed self.old }
        ensures wiring { wiring self.new ≡ wiring self.old };

    /// Aims the interrupt at a processor (`irq_set_affinity`).
    fn aim(&mut self, cpu: CpuNo)
        requires { cpu.0 < 32 }
        ensures cell { cell self.new ≡ cell self.old }
        ensures active { active self.new ≡ active self.old }
        ensures aimed { aimed self.new ≡ cpu.0 }
        ensures wiring { wiring self.new ≡ wiring self.old };

    /// Whether an interrupt is presented: the pending state behind the mask
    /// (`irq_get_irqchip_state` with `IRQCHIP_STATE_PENDING`).
    fn signal(&self) -> bool
        ensures { result ≡ signals (cell self.now) };
}
