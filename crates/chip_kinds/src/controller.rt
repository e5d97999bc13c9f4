//! Controllers that mask by themselves: each kind is a `Cell` with fixed properties.
ghost use Rattle.std.specs.Prelude.{◌≡◌, ℕ, Bool, true, false};
ghost use Rattle.irq_base.specs.Cell.{Cell as SignalCell};

use irq_base::{Chip, CpuNo};
use line_cell::Cell;
use std::marker::PhantomData;

/// A kind of controller: what its chips do with the signals of their lines.
pub trait ChipKind {
    /// The signal cell of a controller of this kind to which nothing has been done.
    ghost fresh: { SignalCell };

    /// A cell with the properties of this kind, to which nothing has been done.
    fn chip() -> Cell
        ensures cell { ⟦<Cell as Chip>⟧.cell result ≡ fresh }
        ensures active { ⟦<Cell as Chip>⟧.active result ≡ false }
        ensures aimed { ⟦<Cell as Chip>⟧.aimed result ≡ 0 };
}

/// A controller of the kind `K`.
#[derive(Drop)]
pub struct Controller<K> {
    cell: Cell,
    kind: PhantomData<K>,
}

impl<K: ChipKind> Controller<K> {
    /// A controller to which nothing has been done: its mask is closed, it isn't active, and it is
    /// aimed at processor 0.
    pub fn new() -> Controller<K>
        ensures cell { ⟦<Controller<K> as Chip>⟧.cell result ≡ K.fresh }
        ensures active { ⟦<Controller<K> as Chip>⟧.active result ≡ false }
        ensures aimed { ⟦<Controller<K> as Chip>⟧.aimed result ≡ 0 }
    {
        Controller {
            cell: K::chip(),
            kind: PhantomData,
        }
    }
}

impl<K: ChipKind> Chip for Controller<K> {
    ghost cell = { λ c. ⟦<Cell as Chip>⟧.cell c.cell };

    ghost active = { λ c. ⟦<Cell as Chip>⟧.active c.cell };

    ghost aimed = { λ c. ⟦<Cell as Chip>⟧.aimed c.cell };

    ghost wiring = { λ c. ⟦<Cell as Chip>⟧.wiring c.cell };

    fn edge(&mut self) {
        self.cell.edge();
    }

    fn set_high(&mut self, high: bool) {
        self.cell.set_high(high);
    }

    fn mask(&mut self) {
        self.cell.mask();
    }

    fn unmask(&mut self) {
        self.cell.unmask();
    }

    fn accept(&mut self) {
        self.cell.accept();
    }

    fn ack(&mut self) {
        self.cell.ack();
    }

    fn eoi(&mut self) {
        self.cell.eoi();
    }

    fn retrigger(&mut self) -> bool {
        self.cell.retrigger()
    }

    fn activate(&mut self) {
        self.cell.activate();
    }

    fn deactivate(&mut self) {
        self.cell.deactivate();
    }

    fn aim(&mut self, cpu: CpuNo) {
        self.cell.aim(cpu);
    }

    fn signal(&self) -> bool {
        self.cell.signal()
    }
}
