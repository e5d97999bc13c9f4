//! The lines that the threads share.
ghost use Rattle.std.specs.Prelude.{◌≡◌, ◌+◌, ◌<◌, ◌^◌, IfSome, Some, length, slice_get};
ghost use Rattle.line_lock.specs.Passes.{LockSeen};
ghost use Rattle.workers.specs.Fit.{IsPlaceOf, has_worker};
ghost use Rattle.workers.specs.Forks.{IsThere, IsSpan};

use board_def::Board;
use irq_base::{Actor, DeviceDef, FlowKind, LineNo};
use irq_line::IrqLine;
use line_shared::SharedLine;
use std::marker::Model;

/// The lines of a board that take part, each behind its lock. Contracts see the list of them.
#[derive(Drop)]
pub struct SharedLines<L: IrqLine> {
    pub(crate) lines: Vec<SharedLine<L>>,
    pub(crate) numbers: Vec<LineNo>,
    pub(crate) flows: Vec<FlowKind>,
}

impl<L: IrqLine> Model for SharedLines<L> {
    ghost use Rattle.std.specs.Prelude.{◌≡◌, List};
    ghost use Rattle.line_lock.specs.Passes.{LockSeen};
    ghost use Rattle.workers.specs.Fit.{numbers_of, flows_of};

    ghost Value = { List LockSeen };

    ghost view = { λ s. s.lines.items };

    ghost invariant = { λ s. (s.numbers.items ≡ numbers_of s.lines.items)
        × (s.flows.items ≡ flows_of s.lines.items) };
}

impl<L: IrqLine> SharedLines<L> {
    /// The index of the line with this number; none if it takes no part.
    pub(crate) fn place_of(&self, number: LineNo) -> Option<usize>
        ensures place { IsPlaceOf self.now number result }
        ensures few { IfSome result (λ k. k + 1 < 2 ^ 64) }
    {
        for place in 0..self.numbers.len() {
            if self.numbers[place] == number {
                return Some(place);
            }
        }
        None
    }

    /// The flow handler of the line at index `first` plus `behind`.
    pub(crate) fn flow_at(&self, first: usize, behind: usize) -> FlowKind
        requires { first + behind < length self.now }
        ensures { (l : LockSeen) → slice_get self.now (first + behind) ≡ Some l
            → result ≡ l.def.flow }
    {
        let flows = self.flows.as_slice();
        flows[first + behind]
    }

    /// Whether the device has a thread, and its line takes part.
    #[tactic(auto, using(crate::proofs::Manning::place_says))]
    pub(crate) fn has_worker(&self, device: DeviceDef) -> bool
        ensures { result ≡ has_worker self.now device }
    {
        device.kind.has_thread() && self.place_of(device.line).is_some()
    }

    /// The lines that the actor has passes of, as the index of the first and the index after the
    /// last: a thread has a pass of its device's line, a processor or a driver of each line.
    pub(crate) fn span_of(&self, board: &Board, actor: Actor) -> (usize, usize)
        requires { IsThere board.now self.now actor }
        ensures { IsSpan board.now self.now actor result.0 result.1 }
    {
        match actor {
            Actor::Thread(dev) => {
                let Some(device) = board.find_device(dev) else {
                    unreachable!();
                };
                let Some(place) = self.place_of(device.line) else {
                    unreachable!();
                };
                (place, place + 1)
            }
            Actor::Cpu(_) | Actor::Driver(_) => (0, self.lines.len()),
        }
    }
}
