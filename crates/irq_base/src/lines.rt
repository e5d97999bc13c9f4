//! What is fixed of a line.
ghost use Rattle.std.specs.Prelude.{◌≡◌, IfOk};

use crate::calls::{CallList, RunCallList, ToldList};
use crate::devices::DeviceList;
use crate::memory::NoMemory;
use crate::numbers::LineNo;
use std::alloc::Global;

/// What raises the line (the setting `IRQ_LEVEL`, `kernel/irq/settings.h`, for which
/// `check_irq_resend` asks).
#[derive(Clone, Copy, PartialEq, Eq)]
pub enum Trigger {
    /// A change of the signal.
    Edge,
    /// The signal as long as it stands.
    Level,
}

/// The flow handler (`kernel/irq/chip.c`).
#[derive(Clone, Copy, PartialEq, Eq)]
pub enum FlowKind {
    /// `handle_edge_irq`.
    Edge,
    /// `handle_level_irq`.
    Level,
    /// `handle_fasteoi_irq`.
    Eoi,
}

/// The definition of a line, which never changes.
#[derive(Drop)]
pub struct LineDef {
    /// Its number.
    pub line: LineNo,
    /// The flow handler.
    pub flow: FlowKind,
    /// What raises it.
    pub trigger: Trigger,
    /// An edge that comes while the line is masked is stored by its chip.
    pub keeps: bool,
    /// Masking takes an edge that was sent back into store.
    pub recalls: bool,
    /// The chip can send an edge again (`irq_retrigger`).
    pub retriggers: bool,
    /// Disabling masks the chip at once (`IRQ_DISABLE_UNLAZY`).
    pub unlazy: bool,
    /// An affinity call takes effect at the next interrupt (`irq_can_move_pcntxt` is false).
    pub later: bool,
    /// The processors that may take the line at first: bit c stands for processor c.
    pub mask: u32,
    /// The number of processors, 1 to 32.
    pub cpus: u32,
    /// How many interrupts are counted before the unhandled ones are judged, 1 to 1,000,000.
    pub window: u32,
    /// How many of them may be unhandled, below the window.
    pub limit: u32,
    /// The greatest length of the history, 1 to 100,000,000.
    pub log: u32,
    /// The devices that raise it, at most 256.
    pub devices: DeviceList,
    /// The drivers' calls on it, at most 16,384, each driver's in the order of its script.
    pub calls: CallList,
    /// The calls that runs of its devices' handlers and threads make, at most 256.
    pub runs: RunCallList,
    /// What its told devices answer, at most 65,536.
    pub told: ToldList,
}

impl LineDef {
    /// The same definition once more, in memory of its own. The only error is `NoMemory`.
    pub fn try_clone(&self, alloc: Global) -> Result<LineDef, NoMemory>
        ensures { IfOk result (λ d. d ≡ self.now) }
    {
        let devices = self.devices.try_clone(alloc)?;
        let calls = self.calls.try_clone(alloc)?;
        let runs = self.runs.try_clone(alloc)?;
        let told = self.told.try_clone(alloc)?;
        Ok(LineDef {
            line: self.line,
            flow: self.flow,
            trigger: self.trigger,
            keeps: self.keeps,
            recalls: self.recalls,
            retriggers: self.retriggers,
            unlazy: self.unlazy,
            later: self.later,
            mask: self.mask,
            cpus: self.cpus,
            window: self.window,
            limit: self.limit,
            log: self.log,
            devices,
            calls,
            runs,
            told,
        })
    }
}
