//! A driver's attempts.
ghost use Rattle.std.specs.Prelude.{◌≡◌, ℕ, ◌<◌, ◌≤◌, true, false, Some, None, length, slice_get};
ghost use Rattle.board_def.specs.declared.rows.ScriptCall.{ScriptCall};
ghost use Rattle.workers.specs.Fit.{IsPlaceOf};
ghost use Rattle.workers.specs.Forks.{AreBoards};
ghost use Rattle.workers.specs.Attempts.{IsDriven, AttemptsDriver};
ghost use Rattle.workers.specs.Terms.{terms_of};

use crate::job::Job;
use crate::lines::SharedLines;
use board_def::{Board, ScriptCall};
use callbacks::SharedHandler;
use irq_base::{DriverNo, Entry};
use irq_line::{IrqLine, StepRefused};
use line_scripts::completes;
use std::sync::Wait;

impl<L: IrqLine> Job<L> {
    /// A driver's attempt: on the line of its current call.
    pub(crate) fn attempt_driver<R: Wait, H: SharedHandler>(
        &mut self,
        rt: &R,
        board: &Board,
        lines: &SharedLines<L>,
        driver: DriverNo,
        handlers: &H,
    ) -> Result<Option<Entry>, StepRefused>
        requires boards { AreBoards board.now lines.now }
        requires driven { IsDriven board.now lines.now driver self.old }
        ensures { AttemptsDriver (terms_of L.seen L.may_want (H.gave handlers.now))
            board.now lines.now driver result self.old self.new }
    {
        self.at = next_call(board.calls(), lines, driver, self.at);
        let Some(call) = board.call(self.at) else {
            return Ok(None);
        };
        let Some(place) = lines.place_of(call.line) else {
            unreachable!()
        };
        self.step_driver(rt, board, lines, call, place, handlers)
    }

    /// A try of the driver at its current call, on the call's line, the one at index `place`.
    fn step_driver<R: Wait, H: SharedHandler>(
        &mut self,
        rt: &R,
        board: &Board,
        lines: &SharedLines<L>,
        call: ScriptCall,
        place: usize,
        handlers: &H,
    ) -> Result<Option<Entry>, StepRefused>
        requires boards { AreBoards board.now lines.now }
        requires driven { IsDriven board.now lines.now call.driver self.old }
        requires call { slice_get board.now.calls self.old.at ≡ Some call }
        requires place { IsPlaceOf lines.now call.line (Some place) }
        ensures { AttemptsDriver (terms_of L.seen L.may_want (H.gave handlers.now))
            board.now lines.now call.driver result self.old self.new }
    {
        board.is_board();
        let moved = self.try_post(rt, lines, place, handlers)?;
        if let Some(entry) = moved {
            if completes(call.call, &entry) {
                self.at += 1;
            }
        }
        Ok(moved)
    }
}

/// The index of the driver's first call, from `from` on, that is about one of the lines; the number
/// of calls if there is none.
pub(crate) fn next_call<L: IrqLine>(
    calls: &[ScriptCall],
    lines: &SharedLines<L>,
    driver: DriverNo,
    from: usize,
) -> usize
    requires { from ≤ length calls.now }
    ensures within { (from ≤ result) × (result ≤ length calls.now) }
    ensures passed { (k : ℕ) (c : ScriptCall) → from ≤ k → k < result
        → slice_get calls.now k ≡ Some c → c.driver ≡ driver → IsPlaceOf lines.now c.line None }
    ensures own { (c : ScriptCall) → slice_get calls.now result ≡ Some c
        → (c.driver ≡ driver) × ((place : ℕ) × IsPlaceOf lines.now c.line (Some place)) }
{
    for at in from..calls.len() {
        let call = calls[at];
        if is_own(call, lines, driver) {
            return at;
        }
    }
    calls.len()
}

/// Whether the call is the driver's, about one of the lines.
fn is_own<L: IrqLine>(call: ScriptCall, lines: &SharedLines<L>, driver: DriverNo) -> bool
    ensures yes { result ≡ true
        → (call.driver ≡ driver) × ((place : ℕ) × IsPlaceOf lines.now call.line (Some place)) }
    ensures no { result ≡ false → call.driver ≡ driver → IsPlaceOf lines.now call.line None }
{
    call.driver == driver && lines.place_of(call.line).is_some()
}
