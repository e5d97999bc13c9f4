//! The trait.
ghost use Rattle.std.specs.Prelude.{◌≡◌};
ghost use Rattle.line_obstacles.specs.Obstacles.{obstacle_of};

use irq_base::{Actor, CpuNo, DevNo};
use irq_line::IrqLine;

/// What stands in an actor's way.
#[derive(Clone, Copy, PartialEq, Eq)]
pub enum Obstacle {
    /// The flow that this processor has in progress: a hard clear waits for its end
    /// (`__synchronize_hardirq`, `kernel/irq/manage.c`), the one in a handler of the flow for ever,
    /// and so does a thread's finish (`irq_finalize_oneshot` there).
    Flow(CpuNo),
    /// The thread of this device, which is woken or in a run: a sync waits for it
    /// (`synchronize_irq`, `kernel/irq/manage.c`), and so does the end of the device's free. One
    /// in a run of the thread itself waits for ever.
    Thread(DevNo),
    /// The request mutex, which this actor holds (`request_mutex` of `struct irq_desc`).
    Mutex(Actor),
    /// The mask of the line: the chip keeps what comes to itself (`irqd_irq_masked`,
    /// `include/linux/irq.h`).
    Masked,
    /// The line signals nothing.
    NoSignal,
    /// The line's interrupts go to this processor, and not to the one that is asked about
    /// (`effective_affinity` of `struct irq_common_data`).
    Target(CpuNo),
}

/// A line that tells what stands in an actor's way.
pub trait TellsObstacles: IrqLine {
    /// What stands in the way of the actor, of whom no entry is due; none if it has nothing to do.
    fn obstacle(&self, actor: Actor) -> Option<Obstacle>
        ensures { result ≡ obstacle_of (Self.seen self.now) actor };
}
