//! The mask in force, and the one that waits.
ghost use Rattle.std.specs.Prelude.{◌≡◌, ◌≤◌, ◌<◌, IsSome, Some, None, is_some};
ghost use Rattle.irq_model.specs.Signal.{lowest_in};
ghost use Rattle.affinity.specs.Kept.{HasProcessor};
ghost use Rattle.affinity.specs.Seen.{set_answer, after_set, after_move};

use irq_base::{AffinityAnswer, CpuNo, Errno};
use std::marker::Model;

/// The processors that may take a line's interrupts: bit c of a mask stands for processor c. The
/// type keeps that each mask has a processor of the machine.
#[derive(Drop)]
pub struct Aim {
    cpus: u32,
    later: bool,
    mask: u32,
    waiting: Option<u32>,
}

impl Model for Aim {
    ghost use Rattle.affinity.specs.Seen.{AimSeen};

    ghost Value = { AimSeen };

    ghost use Rattle.affinity.specs.Kept.{seen, IsAimed};

    ghost view = { seen };

    ghost invariant = { IsAimed };
}

impl Aim {
    /// The aim of a line on a machine of `cpus` processors, at most 32. `later`: a change waits
    /// for the next interrupt (`irq_can_move_pcntxt` is false).
    pub fn new(cpus: u32, mask: u32, later: bool) -> Aim
        requires few { cpus ≤ 32 }
        requires some { IsSome (lowest_in cpus mask) }
        ensures { result ≡ record { cpus = cpus; later = later; mask = mask; waiting = None } }
    {
        Aim {
            cpus,
            later,
            mask,
            waiting: None,
        }
    }

    /// The aim with `mask` in force, and `waiting` waiting for the next take. Each has a processor
    /// of the machine.
    pub fn of(cpus: u32, later: bool, mask: u32, waiting: Option<u32>) -> Aim
        requires few { cpus ≤ 32 }
        requires some { IsSome (lowest_in cpus mask) }
        requires waits { HasProcessor cpus waiting }
        ensures { result ≡ record { cpus = cpus; later = later; mask = mask; waiting = waiting } }
    {
        Aim {
            cpus,
            later,
            mask,
            waiting,
        }
    }

    /// The mask in force (`affinity` of `struct irq_common_data`, `include/linux/irq.h`).
    pub fn mask(&self) -> u32
        ensures { result ≡ self.now.mask }
    {
        self.mask
    }

    /// The mask that waits for the next interrupt, if one does (`pending_mask` of
    /// `struct irq_desc`, `include/linux/irqdesc.h`).
    pub fn waiting(&self) -> Option<u32>
        ensures { result ≡ self.now.waiting }
    {
        self.waiting
    }

    /// Changes the mask, now or at the next interrupt. It is refused with EINVAL, and nothing
    /// changes, if the mask has no processor of the machine.
    pub fn set(&mut self, mask: u32) -> AffinityAnswer
        ensures answer { result ≡ set_answer self.old mask }
        ensures aim { self.new ≡ after_set result mask self.old }
    {
        if !has_processor(self.cpus, mask) {
            return AffinityAnswer::Refused(Errno::Inval);
        }
        if self.later {
            self.waiting = Some(mask);
            return AffinityAnswer::Later;
        }
        self.mask = mask;
        self.waiting = None;
        AffinityAnswer::Now
    }

    /// An interrupt is taken: the mask that waits is put in force (`irq_move_masked_irq`).
    pub fn move_now(&mut self)
        ensures { self.new ≡ after_move self.old }
    {
        if let Some(mask) = self.waiting {
            self.mask = mask;
        }
        self.waiting = None;
    }

    /// The processor that takes the line's interrupts: the lowest of the mask in force that the
    /// machine has.
    pub fn target(&self) -> CpuNo
        ensures { Some result ≡ lowest_in self.now.cpus self.now.mask }
    {
        let mask = self.mask;
        CpuNo(mask.trailing_zeros())
    }
}

/// Whether one of the processors 0 to `cpus` - 1 is in the mask (`cpumask_intersects`,
/// `include/linux/cpumask.h`).
pub fn has_processor(cpus: u32, mask: u32) -> bool
    requires { cpus ≤ 32 }
    ensures { result ≡ is_some (lowest_in cpus mask) }
{
    mask.trailing_zeros() < cpus
}
