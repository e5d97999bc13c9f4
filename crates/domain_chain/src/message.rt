//! One message by itself.
ghost use Rattle.std.specs.Prelude.{◌≡◌, Some, true, false};
ghost use Rattle.irq_base.specs.Cell.{fresh_cell};
ghost use Rattle.irq_base.specs.declared.lines.Trigger.TheVariants as triggers;
ghost use Rattle.domain_chain.specs.Chains.{fresh_chain, message_by, wiring_of};

use crate::chain::Chain;
use chip_msi::Message;
use irq_base::{Chip, ControllerKind, CpuNo};
use std::marker::Model;

/// The chip of one message, over a plain root: an edge that comes while it is masked is stored,
/// what was sent stays sent, and it can't send an edge again.
#[derive(Drop)]
pub struct MsiChip {
    chain: Chain,
}

impl Model for MsiChip {
    ghost use Rattle.domain_chain.specs.Chains.{ChainSeen};

    ghost Value = { ChainSeen };

    ghost view = { λ c. c.chain };
}

impl MsiChip {
    /// The chip of one message, which carries `number`. Its mask is closed, it isn't active, and it
    /// is aimed at processor 0.
    pub fn new(number: u32) -> MsiChip
        ensures { result ≡ fresh_chain (fresh_cell triggers.Edge true false false false) 2
            (Some number) }
    {
        MsiChip {
            chain: Chain::new(&[ControllerKind::Msi, ControllerKind::Plain], number),
        }
    }

    /// The message: it goes to the processor at which the chip is aimed, and carries its number.
    /// None exactly while the chip isn't active.
    pub fn message(&self) -> Option<Message>
        ensures { result ≡ message_by self.now }
    {
        self.chain.message()
    }
}

impl Chip for MsiChip {
    ghost cell = { λ c. c.cell };

    ghost active = { λ c. c.active };

    ghost aimed = { λ c. c.aimed };

    ghost wiring = { wiring_of };

    fn edge(&mut self) {
        self.chain.edge();
    }

    fn set_high(&mut self, high: bool) {
        self.chain.set_high(high);
    }

    fn mask(&mut self) {
        self.chain.mask();
    }

    fn unmask(&mut self) {
        self.chain.unmask();
    }

    fn accept(&mut self) {
        self.chain.accept();
    }

    fn ack(&mut self) {
        self.chain.ack();
    }

    fn eoi(&mut self) {
        self.chain.eoi();
    }

    fn retrigger(&mut self) -> bool {
        self.chain.retrigger()
    }

    fn activate(&mut self) {
        self.chain.activate();
    }

    fn deactivate(&mut self) {
        self.chain.deactivate();
    }

    fn aim(&mut self, cpu: CpuNo) {
        self.chain.aim(cpu);
    }

    fn signal(&self) -> bool {
        self.chain.signal()
    }
}
