//! Two lines that take the same steps.
use callbacks::ByKind;
use irq_base::{Actor, NoMemory};
use irq_line::{IrqLine, StepRefused, Stepped};
use std::convert::Infallible;

/// What a step of both lines did.
#[derive(Clone, Copy, PartialEq, Eq)]
pub(crate) enum Both {
    /// Each added the same entry.
    Moved,
    /// Each refused it for the same reason: nothing was due, or the log is full.
    Rested,
    /// They differ in what the step did, or in what is told of them after it.
    Differ,
}

#[derive(Drop)]
pub(crate) struct Pair<L: Drop, M: Drop> {
    pub(crate) line: L,
    pub(crate) other: M,
}

impl<L: IrqLine, M: IrqLine> Pair<L, M> {
    /// Makes the step of the actor on both.
    pub(crate) fn step(&mut self, actor: Actor) -> Result<Both, NoMemory> {
        let stepped = self.line.step(actor, &mut ByKind);
        let other = self.other.step(actor, &mut ByKind);
        if is_want(&stepped) || is_want(&other) {
            return Err(NoMemory);
        }
        if stepped != other || !self.tell_same() {
            return Ok(Both::Differ);
        }
        match stepped {
            Ok(Stepped::Added(_)) => Ok(Both::Moved),
            _ => Ok(Both::Rested),
        }
    }

    /// Whether the same is told of both.
    fn tell_same(&self) -> bool {
        self.line.in_flow() == self.other.in_flow()
            && self.line.taker() == self.other.taker()
            && self.line.lowest_thread() == self.other.lowest_thread()
            && self.line.blocks() == self.other.blocks()
            && self.line.spins() == self.other.spins()
            && self.line.lowest_hung() == self.other.lowest_hung()
    }

    /// Whether both have the same history.
    pub(crate) fn kept_same(&self) -> bool {
        let history = self.line.history();
        let other = self.other.history();
        for place in 0..history.len() {
            if history.get(place) != other.get(place) {
                return false;
            }
        }
        history.len() == other.len()
    }
}

fn is_want(stepped: &Result<Stepped<Infallible>, StepRefused>) -> bool {
    *stepped == Err(StepRefused::NoMemory)
}
