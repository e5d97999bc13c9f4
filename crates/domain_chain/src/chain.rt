//! The chip of a path.
ghost use Rattle.std.specs.Prelude.{◌≡◌, ◌≤◌, ℕ, Bool, true, false, ◌&&◌, is_some, length};
ghost use Rattle.std.specs.Prelude.{if◌then◌else◌};
ghost use Rattle.chip_msi.specs.Messages.{LevelSeen};
ghost use Rattle.domain_chain.specs.Chains.{ChainSeen, is_path_of_kinds, has_messages};
ghost use Rattle.domain_chain.specs.Chains.{fresh_chain, chain_cell, IsOpenBehind, number_sent};
ghost use Rattle.domain_chain.specs.Chains.{message_by, some_if, wiring_of};
ghost use Rattle.domain_rules.specs.Levels.{masking_kind, root_kind, presents_level_kind, cell_of};

use crate::roots::{masks_by_message, opened, root_of};
use chip_msi::{Message, MsiLevel, compose};
use irq_base::{Chip, ControllerKind, CpuNo};
use line_cell::Cell;
use std::marker::Model;

/// The chip of a path (`struct irq_data` with its `parent_data`, `include/linux/irq.h`). What a
/// level can't do is passed to its parent. So the interrupt is masked by the first level that can,
/// counted from the device; the other levels stay open. The root keeps whether all levels are
/// active, and where they are aimed.
#[derive(Drop)]
pub struct Chain {
    message: Option<MsiLevel>,
    root: Cell,
    levels: u32,
    number: u32,
}

impl Model for Chain {
    ghost use Rattle.std.specs.Prelude.{◌<◌};
    ghost use Rattle.domain_chain.specs.Chains.{ChainSeen, chain_cell, IsOpenBehind, number_sent};

    ghost Value = { ChainSeen };

    ghost view = { λ c. record {
      cell = chain_cell c.message (⟦<Cell as Chip>⟧.cell c.root);
      active = ⟦<Cell as Chip>⟧.active c.root;
      aimed = ⟦<Cell as Chip>⟧.aimed c.root;
      levels = c.levels;
      number = number_sent c.message c.number;
    } };

    ghost invariant = { λ c. IsOpenBehind c.message (⟦<Cell as Chip>⟧.cell c.root)
        × (⟦<Cell as Chip>⟧.aimed c.root < 32) };
}

impl Chain {
    /// The chip of a path with levels of these kinds, leaf first, and with `number` as its hardware
    /// number at the root; some level can mask. Its mask is closed, it isn't active, and it is
    /// aimed at processor 0.
    pub fn new(kinds: &[ControllerKind], number: u32) -> Chain
        requires few { length kinds.now ≤ 8 }
        requires path { is_path_of_kinds kinds.now ≡ true }
        requires masks { is_some (masking_kind kinds.now) ≡ true }
        requires edges { has_messages kinds.now && presents_level_kind (root_kind kinds.now)
            ≡ false }
        ensures { result ≡ fresh_chain (cell_of kinds.now) (length kinds.now)
            (some_if (has_messages kinds.now) number) }
    {
        let levels = kinds.len() as u32;
        let root = root_of(kinds[kinds.len() - 1]);
        if masks_by_message(kinds) {
            return Chain::made(Some(MsiLevel::new()), opened(root), levels, number);
        }
        Chain::made(None, root, levels, number)
    }

    // The chip of the root and, if there is one, of the level of messages before it.
    fn made(message: Option<MsiLevel>, root: Cell, levels: u32, number: u32) -> Chain
        requires open { IsOpenBehind message (⟦<Cell as Chip>⟧.cell root) }
        requires inactive { ⟦<Cell as Chip>⟧.active root ≡ false }
        requires aimed { ⟦<Cell as Chip>⟧.aimed root ≡ 0 }
        ensures { result ≡ fresh_chain (chain_cell message (⟦<Cell as Chip>⟧.cell root)) levels
            (number_sent message number) }
    {
        Chain {
            message,
            root,
            levels,
            number,
        }
    }

    /// How many levels are active: all while the interrupt is, else none.
    pub fn active_levels(&self) -> u32
        ensures { result ≡ (if self.now.active then self.now.levels else 0) }
    {
        if self.root.marks().active {
            self.levels
        } else {
            0
        }
    }

    /// The message that the path sends (`irq_chip_compose_msi_msg`, `kernel/irq/chip.c`): it goes
    /// to the processor at which the path is aimed, and carries the number at its root. None
    /// exactly if no level sends messages, or the path isn't active.
    pub fn message(&self) -> Option<Message>
        ensures { result ≡ message_by self.now }
    {
        let root = self.root.marks();
        if root.active && self.message.is_some() {
            Some(compose(root.target, self.number))
        } else {
            None
        }
    }
}

impl Chip for Chain {
    ghost cell = { λ c. c.cell };

    ghost active = { λ c. c.active };

    ghost aimed = { λ c. c.aimed };

    ghost wiring = { wiring_of };

    fn edge(&mut self) {
        match &mut self.message {
            Some(level) => {
                if level.edge() {
                    self.root.edge();
                }
            }
            None => self.root.edge(),
        }
    }

    fn set_high(&mut self, high: bool) {
        self.root.set_high(high);
    }

    fn mask(&mut self) {
        match &mut self.message {
            Some(level) => level.mask(),
            None => self.root.mask(),
        }
    }

    fn unmask(&mut self) {
        match &mut self.message {
            Some(level) => {
                if level.unmask() {
                    self.root.edge();
                }
            }
            None => self.root.unmask(),
        }
    }

    fn accept(&mut self) {
        self.root.accept();
    }

    fn ack(&mut self) {
        self.root.ack();
    }

    fn eoi(&mut self) {
        self.root.eoi();
    }

    fn retrigger(&mut self) -> bool {
        self.root.retrigger()
    }

    fn activate(&mut self) {
        self.root.activate();
    }

    fn deactivate(&mut self) {
        self.root.deactivate();
    }

    fn aim(&mut self, cpu: CpuNo) {
        self.root.aim(cpu);
    }

    fn signal(&self) -> bool {
        self.root.signal()
    }
}
