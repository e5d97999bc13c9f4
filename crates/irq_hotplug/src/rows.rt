//! What is said of lines that are placed, and of processors that go offline and come online.
use irq_base::{CpuNo, LineNo};
use vector_matrix::Vector;

/// How a processor's going offline was answered.
#[derive(Clone, Copy, PartialEq, Eq)]
pub enum OffAnswer {
    /// It is offline, and each line that was placed on it is on another one.
    Ok,
    /// The machine has no such processor.
    NotThere,
    /// It isn't online.
    NotOnline,
    /// No other processor is online.
    LastOne,
    /// This line, the first such, found all vectors of all other online processors held
    /// (`lapic_can_unplug_cpu` of `arch/x86/kernel/apic/vector.c`, which counts).
    NoVector { line: LineNo },
}

/// How a processor's coming online was answered.
#[derive(Clone, Copy, PartialEq, Eq)]
pub enum OnAnswer {
    /// It is online. No line moved.
    Ok,
    /// The machine has no such processor.
    NotThere,
    /// It is online already.
    IsOnline,
}

/// What is said, a row each.
#[derive(Clone, Copy)]
pub enum FleetRow {
    /// The line was placed: it has this vector, and the notifier, told how many queues it has,
    /// named this queue. `moved`: by the board and the placings before it, another processor takes
    /// its interrupts.
    Placed {
        line: LineNo,
        vector: Vector,
        queues: u32,
        queue: u32,
        moved: bool,
    },
    /// No online processor had a vector for the line.
    Unplaced {
        line: LineNo,
    },
    /// The processor was to go offline.
    Off {
        cpu: CpuNo,
        answer: OffAnswer,
    },
    /// The processor was to come online.
    On {
        cpu: CpuNo,
        answer: OnAnswer,
    },
}
