//! The further driver and its calls.
ghost use Rattle.std.specs.Prelude.{◌≡◌, ◌+◌, ◌<◌, ◌≤◌, true, false, IfOk, OnOk, [], ◌∷◌, ◌++◌};
ghost use Rattle.std.specs.Prelude.{length, All};
ghost use Rattle.board_def.specs.Layout.{layout_of};
ghost use Rattle.board_def.specs.Rules.{has_driver};
ghost use Rattle.board_driver.specs.Longer.{last_driver, with_last_driver, by_last, IsOfALine};

use board_def::{Board, ScriptCall};
use irq_base::{Call, DriverNo, LineNo, NoMemory};

/// A call about a line, and not about a device.
#[derive(Clone, Copy, PartialEq, Eq)]
pub struct LineCall {
    /// The line.
    pub line: LineNo,
    /// What is called.
    pub call: Call,
}

/// The greatest number of a driver.
const LAST_DRIVER: DriverNo = DriverNo(65_535);

/// Adds driver 65535 behind the board's drivers, with these calls as its script. The layout stays
/// that of the board. The only error is `NoMemory`.
pub fn with_last_driver(board: Board, calls: &[LineCall]) -> Result<Board, NoMemory>
    requires free { has_driver board.drivers last_driver ≡ false }
    requires driver { length board.drivers < 64 }
    requires room { length board.calls + length calls.now ≤ 16384 }
    requires lines { All (IsOfALine board) calls.now }
    ensures board { IfOk result (λ longer. longer ≡ with_last_driver board calls.now) }
    ensures layout { IfOk result (λ longer. layout_of longer ≡ layout_of board) }
{
    let mut longer = with_driver(board)?;
    for call in calls {
        add_call(&mut longer, *call)?;
    }
    Ok(longer)
}

/// The board with driver 65535, which it lacked.
#[tactic(auto, using(crate::proofs::Last::last_goes_behind))]
fn with_driver(board: Board) -> Result<Board, NoMemory>
    requires free { has_driver board.drivers last_driver ≡ false }
    requires room { length board.drivers < 64 }
    ensures { IfOk result
        (λ longer. longer ≡ record board { drivers = board.drivers ++ last_driver ∷ [] }) }
{
    board.is_board();
    let mut board = board;
    board.add_driver(LAST_DRIVER)?;
    Ok(board)
}

/// A call of driver 65535 at the end of the scripts.
fn add_call(board: &mut Board, call: LineCall) -> Result<(), NoMemory>
    requires driver { has_driver board.old.drivers last_driver ≡ true }
    requires room { length board.old.calls < 16384 }
    requires line { IsOfALine board.old call }
    ensures { OnOk result
        (board.new ≡ record board.old { calls = board.old.calls ++ by_last call ∷ [] }) }
{
    board.is_board();
    board.add_call(ScriptCall {
        driver: LAST_DRIVER,
        line: call.line,
        call: call.call,
    })
}
