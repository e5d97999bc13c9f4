//! The entries of a line's history, and what each of them answers.
ghost use Rattle.std.specs.Prelude.{◌≡◌};
ghost use Rattle.irq_base.specs.Who.{actor_of};

use crate::calls::Flags;
use crate::devices::Answer;
use crate::numbers::{CpuNo, DevNo, DriverNo};

/// The error numbers that calls answer (`include/uapi/asm-generic/errno-base.h`).
#[derive(Clone, Copy, PartialEq, Eq)]
pub enum Errno {
    /// `EINVAL`, 22.
    Inval,
    /// `EBUSY`, 16.
    Busy,
}

/// Who makes a step.
#[derive(Clone, Copy, PartialEq, Eq)]
pub enum Actor {
    /// The thread of a device (`irq_thread`, `kernel/irq/manage.c`).
    Thread(DevNo),
    /// A processor in its interrupt entry.
    Cpu(CpuNo),
    /// A driver in process context.
    Driver(DriverNo),
}

/// What made a processor take an interrupt.
#[derive(Clone, Copy, PartialEq, Eq)]
pub enum Way {
    /// The signal of the line.
    Line,
    /// A software resend (`kernel/irq/resend.c`).
    Resend,
}

/// What the flow handler makes of it (`kernel/irq/chip.c`).
#[derive(Clone, Copy, PartialEq, Eq)]
pub enum TakeAnswer {
    /// The handlers are to run.
    Handle,
    /// A flow is in progress already.
    Busy,
    /// The line is disabled, or nothing is linked.
    Off,
}

/// What the rule on spurious interrupts makes of a round (`note_interrupt`,
/// `kernel/irq/spurious.c`).
#[derive(Clone, Copy, PartialEq, Eq)]
pub enum Note {
    /// Nothing was unhandled lately, or the round waits to be judged by what threads do.
    Quiet,
    /// The round was counted.
    Counted,
    /// Too many were unhandled: the line is disabled.
    Killed,
}

/// How an interrupt that came while the line was disabled comes again (`check_irq_resend`,
/// `kernel/irq/resend.c`).
#[derive(Clone, Copy, PartialEq, Eq)]
pub enum Resend {
    /// There was no such interrupt, or the level shows it by itself.
    No,
    /// The chip sends it again.
    Chip,
    /// The software sends it again.
    Soft,
}

/// What an enable answers (`__enable_irq`, `kernel/irq/manage.c`).
#[derive(Clone, Copy, PartialEq, Eq)]
pub enum EnableAnswer {
    /// The line isn't disabled, or nothing is linked. Nothing changes.
    Unbalanced,
    /// The depth fell by one, and the line is disabled still.
    Lowered,
    /// The line is started.
    Started { resend: Resend },
}

/// What a request that was linked made of the line's depth.
#[derive(Clone, Copy, PartialEq, Eq)]
pub enum Opened {
    /// Nothing; after a first request that doesn't start the line the depth is 1.
    No,
    /// Its enable found nothing to lower.
    Unbalanced,
    /// The depth fell by one, and the line is still disabled.
    Lowered,
    /// The depth became 0: the line is started.
    Started { resend: Resend },
}

/// Whether a request was linked (`__setup_irq`, `kernel/irq/manage.c`).
#[derive(Clone, Copy, PartialEq, Eq)]
pub enum LinkAnswer {
    /// The device's action is on the line's list.
    Linked,
    /// The action isn't on the list; the caller gets this error.
    Refused(Errno),
}

/// What a free found (`__free_irq`, `kernel/irq/manage.c`).
#[derive(Clone, Copy, PartialEq, Eq)]
pub enum UnlinkAnswer {
    /// The device isn't linked, and the call is at its end.
    NotThere,
    /// The device was taken off the list. `last`: nothing is linked now, and the line is shut down.
    Unlinked { last: bool },
}

/// What a change of affinity answers (`irq_set_affinity_locked`, `kernel/irq/manage.c`).
#[derive(Clone, Copy, PartialEq, Eq)]
pub enum AffinityAnswer {
    /// The mask is in force.
    Now,
    /// The mask waits for the next interrupt.
    Later,
    /// No processor of the machine is in the mask (EINVAL).
    Refused(Errno),
}

/// What a processor does in the flow of an interrupt. The small fields come first, so that an entry
/// takes twenty bytes.
#[derive(Clone, Copy, PartialEq, Eq)]
pub enum CpuEntry {
    /// It takes an interrupt: the flow handler up to its first handler, or the whole flow handler
    /// if the answer is Busy or Off.
    Take {
        way: Way,
        answer: TakeAnswer,
    },
    /// A primary handler is called (`__handle_irq_event_percpu`, `kernel/irq/handle.c`).
    Begin {
        dev: DevNo,
    },
    /// The handler returned. `served`: how many asks it served.
    Return {
        answer: Answer,
        dev: DevNo,
        served: u32,
    },
    /// The note (`note_interrupt`), and the rest of the flow handler once the last handler has
    /// returned. `again`: an interrupt that came meanwhile is handled too. `unmask`: the chip's
    /// mask is opened.
    End {
        again: bool,
        unmask: bool,
        note: Note,
    },
}

/// What the thread of a device does.
#[derive(Clone, Copy, PartialEq, Eq)]
pub enum ThreadEntry {
    /// It finds that it is to run, and clears the mark (`irq_wait_for_interrupt`,
    /// `kernel/irq/manage.c`).
    Begin,
    /// Its handler returned. `handled`: whether the answer is IRQ_HANDLED. `served`: how many asks
    /// it served.
    Return { handled: bool, served: u32 },
    /// `irq_finalize_oneshot`. `kept`: the thread was woken again, and its bit stays. `unmask`: the
    /// chip's mask is opened.
    Finish { kept: bool, unmask: bool },
    /// Its run is counted off, and it waits for its next wake (`wake_threads_waitq`).
    Done,
}

/// What a driver does alone, in process context.
#[derive(Clone, Copy, PartialEq, Eq)]
pub enum DriverEntry {
    /// A device asks for service. `edge`: whether it makes an edge, on an edge line; a level line's
    /// asks all count as such.
    Ask {
        edge: bool,
        dev: DevNo,
    },
    /// `__setup_irq`. A refused request has `opened` No.
    Request {
        flags: Flags,
        answer: LinkAnswer,
        opened: Opened,
        dev: DevNo,
    },
    /// `irq_set_affinity`.
    Affinity {
        answer: AffinityAnswer,
        mask: u32,
    },
    /// The time in milliseconds is handed in.
    Moment {
        at: u32,
    },
}

/// A step of a call that a driver makes, and that a handler or a thread may make within its run.
#[derive(Clone, Copy, PartialEq, Eq)]
pub enum CallEntry {
    /// The depth grows by one (`__disable_irq`, `kernel/irq/manage.c`).
    Disable,
    /// `__synchronize_hardirq` found no flow in progress.
    HardClear,
    /// `synchronize_irq` found no thread at work.
    Synced,
    /// `enable_irq`.
    Enable { answer: EnableAnswer },
    /// The first step of `__free_irq`.
    Unlink { answer: UnlinkAnswer, dev: DevNo },
    /// The last step of `__free_irq`: the device's thread is at rest.
    Freed { dev: DevNo },
    /// `irq_wake_thread`. `woken`: whether the thread is woken by it.
    Wake { woken: bool, dev: DevNo },
    /// The device's own interrupt is turned off.
    Quiet { dev: DevNo },
    /// The device's own interrupt is turned on. `edge`: whether that makes an edge.
    Arm { edge: bool, dev: DevNo },
    /// The device is served outside of a return. `served`: how many asks.
    Serve { dev: DevNo, served: u32 },
}

/// One hold of a line's lock in this model, by who makes it; Linux makes some of these steps
/// without its lock.
#[derive(Clone, Copy, PartialEq, Eq)]
pub enum Entry {
    /// By a processor, in the flow of an interrupt.
    Cpu(CpuNo, CpuEntry),
    /// By the thread of a device.
    Thread(DevNo, ThreadEntry),
    /// By a driver.
    Driver(DriverNo, DriverEntry),
    /// By a handler, on its processor.
    CpuCall(CpuNo, CallEntry),
    /// By the handler of a device's thread.
    ThreadCall(DevNo, CallEntry),
    /// By a driver.
    DriverCall(DriverNo, CallEntry),
}

impl Entry {
    /// Who made the entry.
    pub fn actor(&self) -> Actor
        ensures { result ≡ actor_of self.now }
    {
        match *self {
            Entry::Cpu(cpu, _) | Entry::CpuCall(cpu, _) => Actor::Cpu(cpu),
            Entry::Thread(dev, _) | Entry::ThreadCall(dev, _) => Actor::Thread(dev),
            Entry::Driver(driver, _) | Entry::DriverCall(driver, _) => Actor::Driver(driver),
        }
    }
}
