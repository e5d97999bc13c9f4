//! The kinds of controllers.
ghost use Rattle.std.specs.Prelude.{true, false};
ghost use Rattle.irq_base.specs.Cell.{fresh_cell};
ghost use Rattle.irq_base.specs.declared.lines.Trigger.TheVariants as triggers;

use crate::controller::{ChipKind, Controller};
use irq_base::Trigger;
use line_cell::Cell;

/// A latch controller: an edge input with a latch. An edge that comes while it is masked is stored,
/// masking takes back into store what was sent, and it can send an edge again (`irq_retrigger`).
/// Its lines have the edge flow (`handle_edge_irq`).
pub struct Latch;

impl ChipKind for Latch {
    ghost fresh = { fresh_cell triggers.Edge true true true false };

    fn chip() -> Cell {
        Cell::new(Trigger::Edge, true, true, true, false)
    }
}

/// Such a controller.
pub type LatchChip = Controller<Latch>;

/// A pin controller: an edge input with a latch that can't send an edge again, like most inputs of
/// a GPIO controller. An edge that comes while it is masked is stored, and masking takes back into
/// store what was sent; the software resends (`irq_sw_resend`, `kernel/irq/resend.c`). Its lines
/// have the edge flow (`handle_edge_irq`).
pub struct Pin;

impl ChipKind for Pin {
    ghost fresh = { fresh_cell triggers.Edge true true false false };

    fn chip() -> Cell {
        Cell::new(Trigger::Edge, true, true, false, false)
    }
}

/// Such a controller.
pub type PinChip = Controller<Pin>;

/// A plain controller: an edge input without a latch. An edge that comes while it is masked is
/// lost, what was sent stays sent, and it can't send an edge again, so the software resends
/// (`irq_sw_resend`, `kernel/irq/resend.c`). Its lines have the edge flow (`handle_edge_irq`).
pub struct Plain;

impl ChipKind for Plain {
    ghost fresh = { fresh_cell triggers.Edge false false false false };

    fn chip() -> Cell {
        Cell::new(Trigger::Edge, false, false, false, false)
    }
}

/// Such a controller.
pub type PlainChip = Controller<Plain>;

/// A level controller: its input is presented as long as it is high and the mask is open. Its lines
/// have the level flow (`handle_level_irq`).
pub struct Level;

impl ChipKind for Level {
    ghost fresh = { fresh_cell triggers.Level false false false false };

    fn chip() -> Cell {
        Cell::new(Trigger::Level, false, false, false, false)
    }
}

/// Such a controller.
pub type LevelChip = Controller<Level>;

/// A fast-EOI controller: a level input. Once an interrupt was accepted, nothing more is presented
/// until the end of interrupt. Its lines have the fast-EOI flow (`handle_fasteoi_irq`).
pub struct Eoi;

impl ChipKind for Eoi {
    ghost fresh = { fresh_cell triggers.Level false false false true };

    fn chip() -> Cell {
        Cell::new(Trigger::Level, false, false, false, true)
    }
}

/// Such a controller.
pub type EoiChip = Controller<Eoi>;

/// A controller of message interrupts with nothing in service, like a GIC's locality-specific
/// peripheral interrupts: its cell has the properties of a latch. Its lines have the fast-EOI flow
/// (`handle_fasteoi_irq`).
pub struct Lpi;

impl ChipKind for Lpi {
    ghost fresh = { fresh_cell triggers.Edge true true true false };

    fn chip() -> Cell {
        Latch::chip()
    }
}

/// Such a controller.
pub type LpiChip = Controller<Lpi>;
