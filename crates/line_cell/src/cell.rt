//! The chip of one signal cell.
ghost use Rattle.std.specs.Prelude.{◌≡◌, ℕ, ◌<◌, Bool, None, true, false};
ghost use Rattle.irq_base.specs.Cell.{fresh_cell};
ghost use Rattle.line_cell.specs.Marks.{cell_told};

use crate::marks::CellMarks;
use irq_base::{Chip, CpuNo, Trigger};

/// The chip of one signal cell (ours): a controller's input that presents one line's signal to the
/// processors, as the local interrupt controllers of `struct irq_chip` do (`include/linux/irq.h`).
/// It has five properties, which never change, and five marks.
#[derive(Drop)]
pub struct Cell {
    trigger: Trigger,
    keeps: bool,
    recalls: bool,
    retriggers: bool,
    serves: bool,
    masked: bool,
    stored: bool,
    sent: bool,
    high: bool,
    in_service: bool,
    active: bool,
    target: CpuNo,
}

impl Cell {
    /// A chip to which nothing has been done: its mask is closed, it isn't active, and it is aimed
    /// at processor 0.
    ///
    /// `trigger`: whether it presents edges or a level; `keeps`: an edge that comes while it is
    /// masked is stored; `recalls`: masking takes back into store what was sent; `retriggers`: it
    /// can be made to send an edge again; `serves`: a level that was accepted isn't presented again
    /// before its end of interrupt.
    pub fn new(trigger: Trigger, keeps: bool, recalls: bool, retriggers: bool, serves: bool) -> Cell
        ensures cell { ⟦<Cell as Chip>⟧.cell result
            ≡ fresh_cell trigger keeps recalls retriggers serves }
        ensures active { ⟦<Cell as Chip>⟧.active result ≡ false }
        ensures aimed { ⟦<Cell as Chip>⟧.aimed result ≡ 0 }
    {
        Cell {
            trigger,
            keeps,
            recalls,
            retriggers,
            serves,
            masked: true,
            stored: false,
            sent: false,
            high: false,
            in_service: false,
            active: false,
            target: CpuNo(0),
        }
    }

    /// A chip of these properties and marks.
    pub fn of_marks(marks: CellMarks) -> Cell
        ensures cell { ⟦<Cell as Chip>⟧.cell result ≡ cell_told marks }
        ensures active { ⟦<Cell as Chip>⟧.active result ≡ marks.active }
        ensures aimed { ⟦<Cell as Chip>⟧.aimed result ≡ marks.target.0 }
    {
        Cell {
            trigger: marks.trigger,
            keeps: marks.keeps,
            recalls: marks.recalls,
            retriggers: marks.retriggers,
            serves: marks.serves,
            masked: marks.masked,
            stored: marks.stored,
            sent: marks.sent,
            high: marks.high,
            in_service: marks.in_service,
            active: marks.active,
            target: marks.target,
        }
    }

    /// All properties and marks of the chip.
    pub fn marks(&self) -> CellMarks
        ensures cell { cell_told result ≡ ⟦<Cell as Chip>⟧.cell self.now }
        ensures active { result.active ≡ ⟦<Cell as Chip>⟧.active self.now }
        ensures aimed { result.target.0 ≡ ⟦<Cell as Chip>⟧.aimed self.now }
    {
        CellMarks {
            trigger: self.trigger,
            keeps: self.keeps,
            recalls: self.recalls,
            retriggers: self.retriggers,
            serves: self.serves,
            masked: self.masked,
            stored: self.stored,
            sent: self.sent,
            high: self.high,
            in_service: self.in_service,
            active: self.active,
            target: self.target,
        }
    }
}

impl Chip for Cell {
    ghost cell = { λ c. record {
      trigger = c.trigger;
      keeps = c.keeps;
      recalls = c.recalls;
      retriggers = c.retriggers;
      serves = c.serves;
      masked = c.masked;
      stored = c.stored;
      sent = c.sent;
      high = c.high;
      in_service = c.in_service;
    } };

    ghost active = { λ c. c.active };

    ghost aimed = { λ c. c.target.0 };

    ghost wiring = { λ _. record { levels = 1; number = None } };

    fn edge(&mut self) {
        if self.masked {
            self.stored = self.stored || self.keeps;
        } else {
            self.sent = true;
        }
    }

    fn set_high(&mut self, high: bool) {
        self.high = high;
    }

    fn mask(&mut self) {
        self.masked = true;
        if self.trigger == Trigger::Edge && self.recalls && self.sent {
            self.stored = true;
            self.sent = false;
        }
    }

    fn unmask(&mut self) {
        self.masked = false;
        if self.trigger == Trigger::Edge {
            self.sent = self.sent || self.stored;
            self.stored = false;
        }
    }

    fn accept(&mut self) {
        if self.trigger == Trigger::Level {
            self.in_service = self.in_service || self.serves;
        }
    }

    fn ack(&mut self) {
        if self.trigger == Trigger::Edge {
            self.sent = false;
        }
    }

    fn eoi(&mut self) {
        if self.trigger == Trigger::Level {
            self.in_service = false;
        }
    }

    fn retrigger(&mut self) -> bool {
        if self.trigger == Trigger::Level || !self.retriggers {
            return false;
        }
        self.sent = true;
        true
    }

    fn activate(&mut self) {
        self.active = true;
    }

    fn deactivate(&mut self) {
        self.active = false;
    }

    fn aim(&mut self, cpu: CpuNo) {
        self.target = cpu;
    }

    fn signal(&self) -> bool {
        match self.trigger {
            Trigger::Edge => self.sent,
            Trigger::Level => self.high && !self.masked && !self.in_service,
        }
    }
}
