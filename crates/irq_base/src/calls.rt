//! What drivers ask of a line (`kernel/irq/manage.c`).
use crate::devices::{Part, ToldAnswer};
use crate::lists::ItemList;
use crate::numbers::{DevNo, DriverNo};

/// The flags of a request (`IRQF_SHARED`, `IRQF_ONESHOT`, `IRQF_NO_AUTOEN`,
/// `include/linux/interrupt.h`).
#[derive(Clone, Copy, PartialEq, Eq)]
pub struct Flags {
    /// The line may have other actions.
    pub shared: bool,
    /// The line stays masked until the thread has run.
    pub oneshot: bool,
    /// The request doesn't enable the line.
    pub noauto: bool,
}

impl Flags {
    /// No flag is set.
    pub const NONE: Flags = Flags {
        shared: false,
        oneshot: false,
        noauto: false,
    };
}

/// A call of a script, on the one line that it is about. All of them stand in drivers' scripts;
/// which of them may stand in a handler's or a thread's is the board's rule.
#[derive(Clone, Copy, PartialEq, Eq)]
pub enum Call {
    /// The device raises one request for service.
    Ask { dev: DevNo },
    /// `request_threaded_irq`.
    Request { dev: DevNo, flags: Flags },
    /// `free_irq`.
    Free { dev: DevNo },
    /// `disable_irq`.
    Disable,
    /// `disable_irq_nosync`.
    DisableNosync,
    /// `enable_irq`.
    Enable,
    /// `synchronize_irq`.
    Sync,
    /// `irq_set_affinity`: bit c of the mask stands for processor c.
    Affinity { mask: u32 },
    /// The time in milliseconds, handed in (`jiffies`, as `kernel/irq/spurious.c` reads it).
    Moment { at: u32 },
    /// `synchronize_hardirq`.
    SyncHard,
    /// `disable_hardirq`.
    DisableHard,
    /// `irq_wake_thread`.
    Wake { dev: DevNo },
    /// The device's own interrupt is turned off (ours: a register of the device).
    Quiet { dev: DevNo },
    /// The device's own interrupt is turned on (ours).
    Arm { dev: DevNo },
    /// The device is served: all that is unserved (ours).
    Serve { dev: DevNo },
}

/// The calls that runs make, each with its device and the part of the handler. Those of one part
/// stand in order.
pub type RunCallList = ItemList<(DevNo, Part, Call)>;

/// What told devices answer, each with its device and the part of the handler, in turn.
pub type ToldList = ItemList<(DevNo, Part, ToldAnswer)>;

/// The calls on a line, each with its driver. A driver's calls stand in the order of its script.
pub type CallList = ItemList<(DriverNo, Call)>;
