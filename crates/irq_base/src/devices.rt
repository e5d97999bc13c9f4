//! Devices: what raises interrupts, and how a device's handlers answer.
ghost use Rattle.std.specs.Prelude.{◌≡◌};
ghost use Rattle.irq_base.specs.Handlers.{answer_of, answer_of_run, answer_of_told, has_thread};

use crate::lists::ItemList;
use crate::numbers::{DevNo, LineNo};

/// What a run of a handler answers (`enum irqreturn`, `include/linux/irqreturn.h`).
#[derive(Clone, Copy, PartialEq, Eq)]
pub enum Answer {
    /// `IRQ_NONE`: the handler found nothing to serve.
    Nothing,
    /// `IRQ_HANDLED`.
    Handled,
    /// `IRQ_WAKE_THREAD`: the device's thread is to run.
    Wake,
}

/// Which of a device's two handlers runs (`handler` and `thread_fn` of `struct irqaction`).
#[derive(Clone, Copy, PartialEq, Eq)]
pub enum Part {
    /// `handler`, in interrupt context.
    Primary,
    /// `thread_fn`, in the device's thread.
    Thread,
}

/// How a device's handlers work (ours).
#[derive(Clone, Copy, PartialEq, Eq)]
pub enum Kind {
    /// The primary handler serves. There is no thread.
    Direct,
    /// The primary handler looks whether an ask is unserved, and wakes the thread, which serves.
    Check,
    /// The default primary handler (`irq_default_primary_handler`, `kernel/irq/manage.c`) always
    /// wakes the thread, which serves.
    Null,
    /// The handler never serves and never recognises its device.
    Stuck,
    /// The handler never recognises its device, and what was asked is gone by then: a glitch, or a
    /// posted write that came late. There is no thread.
    Odd,
    /// Handler and thread answer as the board says (`ToldAnswer`). `threaded`: some answer of the
    /// handler wakes the thread; the thread serves then, and else the handler.
    Told { threaded: bool },
}

/// What the board says that a run of a told device does.
#[derive(Clone, Copy, PartialEq, Eq)]
pub enum ToldAnswer {
    /// `IRQ_HANDLED`; the part that serves has served.
    Handled,
    /// `IRQ_WAKE_THREAD`.
    Wake,
    /// `IRQ_NONE`.
    Nothing,
    /// `IRQ_HANDLED`, and nothing is served: a poll or a program serves later.
    Claims,
}

impl Kind {
    /// Whether a device of this kind has a thread (`thread_fn` of `struct irqaction`).
    pub fn has_thread(self) -> bool
        ensures { result ≡ has_thread self }
    {
        match self {
            Kind::Check | Kind::Null => true,
            Kind::Direct | Kind::Stuck | Kind::Odd => false,
            Kind::Told { threaded } => threaded,
        }
    }

    /// What a run of that part answers that began with so many unserved asks; `told`: what a told
    /// device is to answer.
    #[inline(always)]
    pub fn answer(self, part: Part, unserved: u32, told: Option<ToldAnswer>) -> Answer
        ensures { result ≡ answer_of self part unserved told }
    {
        match (self, part) {
            (Kind::Told { .. }, _) => answer_of_told(told),
            (Kind::Null, Part::Primary) => Answer::Wake,
            (Kind::Check, Part::Primary) if unserved > 0 => Answer::Wake,
            (Kind::Direct, Part::Primary) | (Kind::Check | Kind::Null, Part::Thread)
                if unserved > 0 => { Answer::Handled }
            _ => Answer::Nothing,
        }
    }
}

/// What a told device answers; nothing after its last answer.
fn answer_of_told(told: Option<ToldAnswer>) -> Answer
    ensures { result ≡ answer_of_told told }
{
    match told {
        Some(ToldAnswer::Handled | ToldAnswer::Claims) => Answer::Handled,
        Some(ToldAnswer::Wake) => Answer::Wake,
        Some(ToldAnswer::Nothing) | None => Answer::Nothing,
    }
}

/// A device, the line it raises, and its kind.
#[derive(Clone, Copy, PartialEq, Eq)]
pub struct DeviceDef {
    /// Its number, which no other device of the line has.
    pub dev: DevNo,
    /// The line that it raises.
    pub line: LineNo,
    /// How its handlers work.
    pub kind: Kind,
    /// On an edge line its signal stays until all is served: an ask makes an edge only if nothing
    /// of it was unserved.
    pub held: bool,
    /// On an edge line no edge comes as its own interrupt is turned on.
    pub forgets: bool,
}

/// A run of a handler.
#[derive(Clone, Copy, PartialEq, Eq)]
pub struct Run {
    /// The device whose handler runs.
    pub def: DeviceDef,
    /// Which part of the handler runs.
    pub part: Part,
    /// How many asks of the device were unserved as the run began.
    pub unserved: u32,
    /// What a told device is to answer in this run; none for others.
    pub told: Option<ToldAnswer>,
}

impl Run {
    /// What it answers by the kind of its device.
    pub fn answer(self) -> Answer
        ensures { result ≡ answer_of_run self }
    {
        self.def.kind.answer(self.part, self.unserved, self.told)
    }
}

/// The devices of a line, in order.
pub type DeviceList = ItemList<DeviceDef>;
