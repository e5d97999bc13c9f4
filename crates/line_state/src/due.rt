//! The step that is due.
use irq_base::{CpuNo, DevNo, DriverNo, Flags, Way};

/// A step of the line that is due: an entry without its answers, which are known only as it is
/// made.
#[derive(Clone, Copy)]
pub enum DueStep {
    /// A step of a processor.
    Cpu { cpu: CpuNo, step: CpuStep },
    /// A step of a device's thread.
    Thread { dev: DevNo, step: ThreadStep },
    /// A step of a driver.
    Driver { driver: DriverNo, step: DriverStep },
}

/// A step of a processor.
#[derive(Clone, Copy)]
pub enum CpuStep {
    /// It takes an interrupt.
    Take { way: Way },
    /// The device's handler is called.
    Begin { dev: DevNo },
    /// The device's handler makes a step of a call.
    Call { dev: DevNo, step: CallStep },
    /// The device's handler returns.
    Return { dev: DevNo },
    /// The round ends.
    End,
}

/// A step of a device's thread.
#[derive(Clone, Copy)]
pub enum ThreadStep {
    /// A run begins.
    Begin,
    /// The handler of the run makes a step of a call.
    Call { step: CallStep },
    /// The handler of the run returns.
    Return,
    /// The run is finalized.
    Finish,
    /// The run is over.
    Done,
}

/// A step of a driver.
#[derive(Clone, Copy)]
pub enum DriverStep {
    /// A device asks for service.
    Ask { dev: DevNo },
    /// `__setup_irq`.
    Request { dev: DevNo, flags: Flags },
    /// `irq_set_affinity`.
    Affinity { mask: u32 },
    /// The time in milliseconds is handed in.
    Moment { at: u32 },
    /// A step of a call that handlers and threads make alike.
    Call { step: CallStep },
}

/// A step of a call, whoever makes it.
#[derive(Clone, Copy)]
pub enum CallStep {
    /// `__disable_irq`.
    Disable,
    /// `__synchronize_hardirq`.
    HardClear,
    /// The end of `synchronize_irq`.
    Synced,
    /// `enable_irq`.
    Enable,
    /// The first step of `__free_irq`.
    Unlink { dev: DevNo },
    /// Its last step.
    Freed { dev: DevNo },
    /// `irq_wake_thread`.
    Wake { dev: DevNo },
    /// The device's own interrupt is turned off.
    Quiet { dev: DevNo },
    /// The device's own interrupt is turned on.
    Arm { dev: DevNo },
    /// The device is served: all that is unserved.
    Serve { dev: DevNo },
}
