//! The vector level.
ghost use Rattle.std.specs.Prelude.{◌≡◌, true, false};
ghost use Rattle.irq_base.specs.Cell.{fresh_cell, after_edge, after_unmask, after_ack};
ghost use Rattle.irq_base.specs.Cell.{after_retrigger, can_retrigger, signals};
ghost use Rattle.irq_base.specs.declared.lines.Trigger.TheVariants as triggers;
ghost use Rattle.chip_kinds.specs.Vector.{vector_cell};

use std::marker::Model;

/// The vector level at the root of a path, like a vector of a local interrupt controller: an edge
/// input without a mask that can send an edge again. It can't mask, so it is no `Chip` by itself; a
/// level below it masks. Contracts see whether an edge is sent, and `vector_cell` is its cell.
#[derive(Drop)]
pub struct VectorChip {
    sent: bool,
}

impl Model for VectorChip {
    ghost use Rattle.std.specs.Prelude.{Bool};

    ghost Value = { Bool };

    ghost view = { λ v. v.sent };
}

impl VectorChip {
    /// A vector level to which nothing has been done. It is open from the start.
    pub fn new() -> VectorChip
        ensures { vector_cell result ≡ after_unmask
            (fresh_cell triggers.Edge false false true false) }
    {
        VectorChip { sent: false }
    }

    /// The device, or the level below, raises an edge.
    pub fn edge(&mut self)
        ensures { vector_cell self.new ≡ after_edge (vector_cell self.old) }
    {
        self.sent = true;
    }

    /// Acknowledges the edge (`irq_ack`).
    pub fn ack(&mut self)
        ensures { vector_cell self.new ≡ after_ack (vector_cell self.old) }
    {
        self.sent = false;
    }

    /// Sends the interrupt again, and answers that it can (`irq_retrigger`).
    pub fn retrigger(&mut self) -> bool
        ensures answer { result ≡ can_retrigger (vector_cell self.old) }
        ensures cell { vector_cell self.new ≡ after_retrigger (vector_cell self.old) }
    {
        self.sent = true;
        true
    }

    /// Whether an interrupt is presented.
    pub fn signal(&self) -> bool
        ensures { result ≡ signals (vector_cell self.now) }
    {
        self.sent
    }
}
