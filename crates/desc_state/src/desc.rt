//! The descriptor.
ghost use Rattle.std.specs.Prelude.{◌≡◌, ℕ, ◌+◌, ◌-◌, ◌<◌, ◌≤◌, ◌^◌, true, false};
ghost use Rattle.irq_base.specs.Cell.{after_mask, after_unmask};
ghost use Rattle.desc_state.specs.Desc.{fresh_desc, is_disabled, disabled, killed, masked_if};
ghost use Rattle.desc_state.specs.Desc.{resend_by, started_up, cell_started, shut_down};
ghost use Rattle.desc_state.specs.Desc.{enable_by, enabled, cell_enabled};

use crate::marks::DescMarks;
use irq_base::{Chip, CpuNo, EnableAnswer, Resend, Trigger};
use std::marker::Model;

/// The state of a line's descriptor. Contracts see it as its depth and its marks.
#[derive(Drop)]
pub struct Desc {
    unlazy: bool,
    depth: u32,
    started: bool,
    masked: bool,
    pending: bool,
    oneshot: bool,
    spurious: bool,
    soft: bool,
    flow: Option<CpuNo>,
}

impl Model for Desc {
    ghost use Rattle.desc_state.specs.Desc.{DescSeen};

    ghost Value = { DescSeen };

    ghost view = { λ d. record {
      unlazy = d.unlazy;
      depth = d.depth;
      started = d.started;
      masked = d.masked;
      pending = d.pending;
      oneshot = d.oneshot;
      spurious = d.spurious;
      soft = d.soft;
      flow = d.flow;
    } };
}

impl Desc {
    /// The descriptor of a line to which nothing was done: disabled once, masked and not started
    /// (`desc_set_defaults`, `kernel/irq/irqdesc.c`). `unlazy`: disabling masks the chip at once
    /// (`IRQ_DISABLE_UNLAZY`); this never changes.
    pub fn new(unlazy: bool) -> Desc
        ensures { result ≡ fresh_desc unlazy }
    {
        Desc {
            unlazy,
            depth: 1,
            started: false,
            masked: true,
            pending: false,
            oneshot: false,
            spurious: false,
            soft: false,
            flow: None,
        }
    }

    /// The descriptor with these marks.
    pub fn of_marks(marks: DescMarks) -> Desc
        ensures { result ≡ marks }
    {
        Desc {
            unlazy: marks.unlazy,
            depth: marks.depth,
            started: marks.started,
            masked: marks.masked,
            pending: marks.pending,
            oneshot: marks.oneshot,
            spurious: marks.spurious,
            soft: marks.soft,
            flow: marks.flow,
        }
    }

    /// All marks of the descriptor.
    pub fn marks(&self) -> DescMarks
        ensures { result ≡ self.now }
    {
        DescMarks {
            unlazy: self.unlazy,
            depth: self.depth,
            started: self.started,
            masked: self.masked,
            pending: self.pending,
            oneshot: self.oneshot,
            spurious: self.spurious,
            soft: self.soft,
            flow: self.flow,
        }
    }

    /// How many disables stand (`depth`).
    pub fn depth(&self) -> u32
        ensures { result ≡ self.now.depth }
    {
        self.depth
    }

    /// Whether a disable stands (`IRQD_IRQ_DISABLED`).
    pub fn disabled(&self) -> bool
        ensures { result ≡ is_disabled self.now }
    {
        self.depth > 0
    }

    /// Whether the line was started and not shut down since (`IRQD_IRQ_STARTED`).
    pub fn started(&self) -> bool
        ensures { result ≡ self.now.started }
    {
        self.started
    }

    /// Whether the chip's mask is closed (`IRQD_IRQ_MASKED`).
    pub fn masked(&self) -> bool
        ensures { result ≡ self.now.masked }
    {
        self.masked
    }

    /// Whether an interrupt came that no handler was called for (`IRQS_PENDING`).
    pub fn pending(&self) -> bool
        ensures { result ≡ self.now.pending }
    {
        self.pending
    }

    /// Whether the line stays masked until its threads are done (`IRQS_ONESHOT`).
    pub fn oneshot(&self) -> bool
        ensures { result ≡ self.now.oneshot }
    {
        self.oneshot
    }

    /// Whether a storm disabled the line (`IRQS_SPURIOUS_DISABLED`).
    pub fn spurious(&self) -> bool
        ensures { result ≡ self.now.spurious }
    {
        self.spurious
    }

    /// Whether the software is to send an interrupt again (the line's bit of `irqs_resend`,
    /// `kernel/irq/resend.c`).
    pub fn soft(&self) -> bool
        ensures { result ≡ self.now.soft }
    {
        self.soft
    }

    /// The processor whose flow is in progress, if one is (`IRQD_IRQ_INPROGRESS`).
    pub fn flow(&self) -> Option<CpuNo>
        ensures { result ≡ self.now.flow }
    {
        self.flow
    }

    /// Sets whether an interrupt is pending.
    pub fn set_pending(&mut self, to: bool)
        ensures { self.new ≡ record self.old { pending = to } }
    {
        self.pending = to;
    }

    /// Sets whether the line is one-shot, as its first action says (`__setup_irq`,
    /// `kernel/irq/manage.c`).
    pub fn set_oneshot(&mut self, to: bool)
        ensures { self.new ≡ record self.old { oneshot = to } }
    {
        self.oneshot = to;
    }

    /// Sets whether a storm disabled the line; a further action clears it (`__setup_irq`,
    /// `kernel/irq/manage.c`).
    pub fn set_spurious(&mut self, to: bool)
        ensures { self.new ≡ record self.old { spurious = to } }
    {
        self.spurious = to;
    }

    /// Sets whether the software is to send an interrupt again (`resend_irqs`,
    /// `kernel/irq/resend.c`, clears it).
    pub fn set_soft(&mut self, to: bool)
        ensures { self.new ≡ record self.old { soft = to } }
    {
        self.soft = to;
    }

    /// Sets the processor whose flow is in progress; none: no flow is (`handle_irq_event`,
    /// `kernel/irq/handle.c`).
    pub fn set_flow(&mut self, to: Option<CpuNo>)
        ensures { self.new ≡ record self.old { flow = to } }
    {
        self.flow = to;
    }

    /// Sets the depth to 1: a first request that doesn't start the line undoes nested disables
    /// (`IRQF_NO_AUTOEN` in `__setup_irq`, `kernel/irq/manage.c`).
    pub fn set_disabled(&mut self)
        ensures { self.new ≡ record self.old { depth = 1 } }
    {
        self.depth = 1;
    }

    /// One disable less; the line is otherwise as it was (the last case of `__enable_irq`).
    fn lower(&mut self)
        requires { 1 ≤ self.old.depth }
        ensures { self.new ≡ record self.old { depth = self.old.depth - 1 } }
    {
        self.depth -= 1;
    }

    /// Closes the chip's mask (`mask_irq`, `kernel/irq/chip.c`).
    pub fn mask<C: Chip>(&mut self, chip: &mut C)
        ensures desc { self.new ≡ record self.old { masked = true } }
        ensures cell { C.cell chip.new ≡ after_mask (C.cell chip.old) }
        ensures active { C.active chip.new ≡ C.active chip.old }
        ensures aimed { C.aimed chip.new ≡ C.aimed chip.old }
        ensures wiring { C.wiring chip.new ≡ C.wiring chip.old }
    {
        chip.mask();
        self.masked = true;
    }

    /// Opens the chip's mask (`unmask_irq`, `kernel/irq/chip.c`). Only of an active interrupt.
    pub fn unmask<C: Chip>(&mut self, chip: &mut C)
        requires activated { C.active chip.old ≡ true }
        ensures desc { self.new ≡ record self.old { masked = false } }
        ensures cell { C.cell chip.new ≡ after_unmask (C.cell chip.old) }
        ensures active { C.active chip.new ≡ C.active chip.old }
        ensures aimed { C.aimed chip.new ≡ C.aimed chip.old }
        ensures wiring { C.wiring chip.new ≡ C.wiring chip.old }
    {
        chip.unmask();
        self.masked = false;
    }

    /// One disable more (`__disable_irq`, `kernel/irq/manage.c`). Only an unlazy line is masked at
    /// once; on another the flow handler masks when an interrupt comes (`irq_disable`,
    /// `kernel/irq/chip.c`).
    pub fn disable<C: Chip>(&mut self, chip: &mut C)
        requires { self.old.depth < 2 ^ 32 - 1 }
        ensures desc { self.new ≡ disabled self.old }
        ensures cell { C.cell chip.new ≡ masked_if self.old.unlazy (C.cell chip.old) }
        ensures active { C.active chip.new ≡ C.active chip.old }
        ensures aimed { C.aimed chip.new ≡ C.aimed chip.old }
        ensures wiring { C.wiring chip.new ≡ C.wiring chip.old }
    {
        self.depth += 1;
        if self.unlazy {
            self.mask(chip);
        }
    }

    /// A storm disables the line (the end of `note_interrupt`, `kernel/irq/spurious.c`).
    pub fn kill<C: Chip>(&mut self, chip: &mut C)
        requires { self.old.depth < 2 ^ 32 - 1 }
        ensures desc { self.new ≡ killed self.old }
        ensures cell { C.cell chip.new ≡ masked_if self.old.unlazy (C.cell chip.old) }
        ensures active { C.active chip.new ≡ C.active chip.old }
        ensures aimed { C.aimed chip.new ≡ C.aimed chip.old }
        ensures wiring { C.wiring chip.new ≡ C.wiring chip.old }
    {
        self.disable(chip);
        self.spurious = true;
    }

    /// Starts the line: no disable stands, the mask is open, and what was pending on an edge line
    /// is sent again (`irq_startup`, `kernel/irq/chip.c`; `check_irq_resend`,
    /// `kernel/irq/resend.c`). Answers who sends it. The interrupt was activated before.
    pub fn startup<C: Chip>(&mut self, chip: &mut C, trigger: Trigger) -> Resend
        requires activated { C.active chip.old ≡ true }
        ensures answer { result ≡ resend_by trigger self.old (C.cell chip.old) }
        ensures desc { self.new ≡ started_up result self.old }
        ensures cell { C.cell chip.new ≡ cell_started result (C.cell chip.old) }
        ensures active { C.active chip.new ≡ C.active chip.old }
        ensures aimed { C.aimed chip.new ≡ C.aimed chip.old }
        ensures wiring { C.wiring chip.new ≡ C.wiring chip.old }
    {
        self.depth = 0;
        self.started = true;
        self.unmask(chip);
        let pending = self.pending;
        self.pending = false;
        if trigger == Trigger::Level || !pending {
            return Resend::No;
        }
        if chip.retrigger() {
            return Resend::Chip;
        }
        self.soft = true;
        Resend::Soft
    }

    /// Shuts the line down: one disable stands, the mask is closed (`irq_shutdown`,
    /// `kernel/irq/chip.c`). What is pending, in the descriptor and in the chip, stays.
    pub fn shutdown<C: Chip>(&mut self, chip: &mut C)
        ensures desc { self.new ≡ shut_down self.old }
        ensures cell { C.cell chip.new ≡ after_mask (C.cell chip.old) }
        ensures active { C.active chip.new ≡ C.active chip.old }
        ensures aimed { C.aimed chip.new ≡ C.aimed chip.old }
        ensures wiring { C.wiring chip.new ≡ C.wiring chip.old }
    {
        self.depth = 1;
        self.started = false;
        self.mask(chip);
    }

    /// One disable less; if it was the last the line is started (`__enable_irq`,
    /// `kernel/irq/manage.c`). `linked`: the line has an action. If it has none, or no disable
    /// stands, the answer is Unbalanced, and nothing changes. What is linked is active.
    pub fn enable<C: Chip>(&mut self, chip: &mut C, linked: bool, trigger: Trigger) -> EnableAnswer
        requires activated { linked ≡ true → C.active chip.old ≡ true }
        ensures answer { result ≡ enable_by linked trigger self.old (C.cell chip.old) }
        ensures desc { self.new ≡ enabled result self.old }
        ensures cell { C.cell chip.new ≡ cell_enabled result (C.cell chip.old) }
        ensures active { C.active chip.new ≡ C.active chip.old }
        ensures aimed { C.aimed chip.new ≡ C.aimed chip.old }
        ensures wiring { C.wiring chip.new ≡ C.wiring chip.old }
    {
        if self.depth == 0 || !linked {
            return EnableAnswer::Unbalanced;
        }
        if self.depth == 1 {
            let resend = self.startup(chip, trigger);
            return EnableAnswer::Started { resend };
        }
        self.lower();
        EnableAnswer::Lowered
    }
}
