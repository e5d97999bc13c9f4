//! The parts of the two lists, and who moves.
ghost use Rattle.std.specs.Prelude.{◌≡◌, IsTrue};
ghost use Rattle.board_ready.specs.Ready.{idle};

use irq_base::{Blocks, CpuNo, DevNo, WaitFor};

/// Who waits on a line, and what stands in the way there.
#[derive(Clone, Copy, PartialEq, Eq)]
pub struct LineReadiness {
    /// The lowest device by number whose thread is ready.
    pub thread: Option<DevNo>,
    /// The processor of the flow in progress.
    pub flow: Option<CpuNo>,
    /// That processor can't go on: it moves nowhere.
    pub spins: bool,
    /// The processor that has a take due.
    pub taker: Option<CpuNo>,
    /// What stands in the way.
    pub blocks: Blocks,
}

/// The call that a driver is at.
#[derive(Clone, Copy, PartialEq, Eq)]
pub struct CurrentCall {
    /// The place of its line in the list of lines.
    pub line: usize,
    /// What it waits for there.
    pub wait: WaitFor,
}

/// A thread that is ready.
#[derive(Clone, Copy, PartialEq, Eq)]
pub struct ReadyThread {
    /// The place of its line in the list of lines.
    pub line: usize,
    /// Its device.
    pub dev: DevNo,
}

/// An actor that can move.
#[derive(Clone, Copy, PartialEq, Eq)]
pub enum ReadyActor {
    /// The thread of a device.
    Thread(ReadyThread),
    /// A processor, 0 to 31.
    Cpu(CpuNo),
    /// A driver, by its place in the list of drivers.
    Driver(usize),
}

impl LineReadiness {
    /// The readiness of a line on which nobody waits and nothing stands in the way.
    pub fn idle() -> LineReadiness
        ensures { result ≡ idle }
    {
        LineReadiness {
            thread: None,
            flow: None,
            spins: false,
            taker: None,
            blocks: Blocks {
                flow: false,
                threads: false,
                mutex: false,
                freed: false,
            },
        }
    }
}

/// Whether the two parts are the same in all that they say. Of `first` no more is read than it
/// takes to tell; what differs most comes first.
#[tactic(auto, using(crate::proofs::Same::same_readiness))]
#[inline(always)]
pub(crate) fn is_same_readiness(first: &LineReadiness, second: &LineReadiness) -> bool
    ensures { IsTrue result → first.now ≡ second.now }
{
    is_same_cpu(first.flow, second.flow)
        && is_same_cpu(first.taker, second.taker)
        && is_same_dev(first.thread, second.thread)
        && first.spins == second.spins
        && first.blocks.flow == second.blocks.flow
        && first.blocks.threads == second.blocks.threads
        && first.blocks.mutex == second.blocks.mutex
        && first.blocks.freed == second.blocks.freed
}

/// Whether the two calls are the same, line and what is waited for.
#[tactic(auto, using(crate::proofs::Same::same_call))]
#[inline(always)]
pub(crate) fn is_same_call(first: Option<CurrentCall>, second: Option<CurrentCall>) -> bool
    ensures { IsTrue result → first ≡ second }
{
    match (first, second) {
        (None, None) => true,
        (Some(first), Some(second)) => first.line == second.line && first.wait == second.wait,
        _ => false,
    }
}

/// Whether the two threads are the same, line and device.
#[tactic(auto, using(crate::proofs::Same::same_thread))]
pub(crate) fn is_same_thread(first: Option<ReadyThread>, second: Option<ReadyThread>) -> bool
    ensures { IsTrue result → first ≡ second }
{
    match (first, second) {
        (None, None) => true,
        (Some(first), Some(second)) => first.line == second.line && first.dev == second.dev,
        _ => false,
    }
}

fn is_same_dev(first: Option<DevNo>, second: Option<DevNo>) -> bool
    ensures { IsTrue result → first ≡ second }
{
    match (first, second) {
        (None, None) => true,
        (Some(first), Some(second)) => first == second,
        _ => false,
    }
}

fn is_same_cpu(first: Option<CpuNo>, second: Option<CpuNo>) -> bool
    ensures { IsTrue result → first ≡ second }
{
    match (first, second) {
        (None, None) => true,
        (Some(first), Some(second)) => first == second,
        _ => false,
    }
}
