//! Which boards can sleep, and the board that does.
ghost use Rattle.std.specs.Prelude.{◌≡◌, ◌&&◌, ◌∷◌, ◌++◌, [], if◌then◌else◌, true, IfOk, OnOk, map};
ghost use Rattle.board_def.specs.Layout.{layout_of};
ghost use Rattle.irq_pm.specs.SleptBoard.{are_runs_calm, can_all_wake, can_wake};
ghost use Rattle.irq_pm.specs.SleptBoard.{has_room_for_sleep};
ghost use Rattle.irq_pm.specs.SleptBoard.{is_for_sleep, is_mapped_at, live_rows, sleep_script};
ghost use Rattle.irq_pm.specs.SleptBoard.{slept, wakes_row};
ghost use Rattle.irq_pm.specs.Sleeping.{moves_or_waits};

use board_def::{Board, Layout, LineRow, Placement};
use board_driver::{LineCall, with_last_driver};
use irq_base::{Call, DriverNo, LineNo, NoMemory};
use std::alloc::Global;

/// The system's driver, the last of all.
const SYSTEM: DriverNo = DriverNo(65_535);

/// Whether the board can sleep with these lines armed: each of them takes part and is disabled
/// lazily; the system's driver can be added with its calls; and no run disables or enables its
/// line, frees a device or waits.
pub fn fits_sleep(board: &Board, layout: &Layout, armed: &[LineNo]) -> bool
    requires layout { layout.now ≡ layout_of board.now }
    ensures { result ≡ is_for_sleep board.now armed.now }
{
    can_all_wake(board, layout, armed) && has_room_for_sleep(board) && are_runs_calm(board)
}

/// The board with the system's driver, which disables each line that takes part, and then enables
/// each. Its layout is that of the board. The only error is `NoMemory`.
pub fn with_sleep(alloc: Global, board: Board, layout: &Layout) -> Result<Board, NoMemory>
    requires layout { layout.now ≡ layout_of board }
    requires room { has_room_for_sleep board ≡ true }
    ensures board { IfOk result (λ longer. longer ≡ slept board) }
    ensures layout { IfOk result (λ longer. layout_of longer ≡ layout_of board) }
{
    board.is_board();
    let calls = sleep_script(alloc, &board, layout)?;
    with_last_driver(board, calls.as_slice())
}

/// Whether each of the armed lines can wake the machine.
fn can_all_wake(board: &Board, layout: &Layout, armed: &[LineNo]) -> bool
    requires layout { layout.now ≡ layout_of board.now }
    ensures { result ≡ can_all_wake board.now armed.now }
{
    for line in armed {
        if !can_wake(board, layout, *line) {
            return false;
        }
    }
    true
}

/// Whether the line takes part and is disabled lazily: its disable leaves it open until its next
/// interrupt.
fn can_wake(board: &Board, layout: &Layout, line: LineNo) -> bool
    requires layout { layout.now ≡ layout_of board.now }
    ensures { result ≡ can_wake board.now line }
{
    for i in 0..board.lines_len() {
        let Some(row) = board.line(i) else {
            unreachable!();
        };
        if wakes_row(row, layout.get(i), line) {
            return true;
        }
    }
    false
}

/// Whether the row is the line's, with this placement it takes part, and it is disabled lazily.
fn wakes_row(row: LineRow, placement: Option<Placement>, line: LineNo) -> bool
    ensures { result ≡ (is_mapped_at placement && wakes_row line row) }
{
    is_mapped(placement) && row.line == line && !row.unlazy
}

/// Whether a line of this placement takes part.
fn is_mapped(placement: Option<Placement>) -> bool
    ensures { result ≡ is_mapped_at placement }
{
    matches!(placement, Some(Placement::Mapped { .. }))
}

/// Whether the system's driver can be added with its calls.
fn has_room_for_sleep(board: &Board) -> bool
    ensures { result ≡ has_room_for_sleep board.now }
{
    !board.has_driver(SYSTEM) && board.drivers_len() < 64 && board.calls_len() <= 16_256
}

/// Whether no run disables or enables its line, frees a device or waits.
fn are_runs_calm(board: &Board) -> bool
    ensures { result ≡ are_runs_calm board.now }
{
    for run in board.runs() {
        if moves_or_waits(run.call) {
            return false;
        }
    }
    true
}

/// Whether the call disables or enables a line, frees a device or waits.
fn moves_or_waits(call: Call) -> bool
    ensures { result ≡ moves_or_waits call }
{
    match call {
        Call::Disable
        | Call::DisableNosync
        | Call::DisableHard
        | Call::Enable
        | Call::Free { .. }
        | Call::Sync
        | Call::SyncHard => true,
        Call::Ask { .. }
        | Call::Request { .. }
        | Call::Affinity { .. }
        | Call::Moment { .. }
        | Call::Wake { .. }
        | Call::Quiet { .. }
        | Call::Arm { .. }
        | Call::Serve { .. } => false,
    }
}

/// The script of the system's driver.
fn sleep_script(alloc: Global, board: &Board, layout: &Layout) -> Result<Vec<LineCall>, NoMemory>
    requires layout { layout.now ≡ layout_of board.now }
    ensures { IfOk result (λ script. script.items ≡ sleep_script board.now) }
{
    let rows = live_rows(alloc, board, layout)?;
    let mut script = Vec::new(alloc);
    add_calls(&mut script, rows.as_slice(), Call::Disable)?;
    add_calls(&mut script, rows.as_slice(), Call::Enable)?;
    Ok(script)
}

/// The call, on each of the lines.
fn add_calls(script: &mut Vec<LineCall>, rows: &[LineRow], call: Call) -> Result<(), NoMemory>
    ensures { OnOk result (script.new.items
        ≡ script.old.items ++ map (λ row. record { line = row.line; call = call }) rows.now) }
{
    for row in rows {
        script.push(LineCall {
            line: row.line,
            call,
        })?;
    }
    Ok(())
}

/// The rows of the lines that take part.
fn live_rows(alloc: Global, board: &Board, layout: &Layout) -> Result<Vec<LineRow>, NoMemory>
    requires layout { layout.now ≡ layout_of board.now }
    ensures { IfOk result (λ rows. rows.items ≡ live_rows board.now) }
{
    let mut rows = Vec::new(alloc);
    for i in 0..board.lines_len() {
        let Some(row) = board.line(i) else {
            unreachable!();
        };
        add_mapped(&mut rows, row, layout.get(i))?;
    }
    Ok(rows)
}

/// Adds the row if with this placement the line takes part.
fn add_mapped(
    rows: &mut Vec<LineRow>,
    row: LineRow,
    placement: Option<Placement>,
) -> Result<(), NoMemory>
    ensures { OnOk result (rows.new.items
        ≡ rows.old.items ++ (if is_mapped_at placement then (row ∷ []) else [])) }
{
    if is_mapped(placement) {
        rows.push(row)?;
    }
    Ok(())
}
