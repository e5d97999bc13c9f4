//! Which boards fit, and the board with the moves of its lines.
ghost use Rattle.std.specs.Prelude.{◌≡◌, ◌+◌, ◌<◌, ◌≤◌, ◌∷◌, ◌++◌, All, IfOk, IsTrue, OnOk, drop};
ghost use Rattle.std.specs.Prelude.{length, option_to_list, slice_index_or};
ghost use Rattle.std.specs.List.{list_any};
ghost use Rattle.board_def.specs.Layout.{layout_of};
ghost use Rattle.hotplug_plan.specs.Planned.{AreLinesOf, HasCpu, IsForHotplug, move_of};
ghost use Rattle.hotplug_plan.specs.Planned.{moves_a_line, moves_later, moves_of, planned};

use board_def::{Board, LineRow, ScriptCall};
use board_driver::{LineCall, with_last_driver};
use irq_base::{Call, DriverNo, NoMemory};
use irq_hotplug::{Fleet, FleetRow};
use std::alloc::Global;

/// The greatest number of a driver.
const LAST_DRIVER: DriverNo = DriverNo(65_535);

/// The most calls of a board whose lines can be moved: so that all moves of 64 lines at first and
/// at 64 events have room.
const MOST_CALLS: usize = 12_224;

/// Whether the lines of the board can be placed and moved.
pub fn fits_hotplug(board: &Board) -> bool
    ensures sound { IsTrue result → IsForHotplug board.now }
    ensures complete { IsForHotplug board.now → IsTrue result }
{
    let moves = has_affinity(board);
    let later = has_later(board);
    let taken = board.has_driver(LAST_DRIVER);
    !moves && !later && !taken && board.drivers_len() < 64 && board.calls_len() <= MOST_CALLS
}

/// The call at index `place` of all scripts.
#[tactic(auto, using(crate::proofs::Left::left_at))]
fn call_at(board: &Board, place: usize) -> ScriptCall
    requires { place < length board.now.calls }
    ensures { drop place board.now.calls ≡ result ∷ drop (place + 1) board.now.calls }
{
    board.call(place).unwrap()
}

/// Whether the call moves a line.
fn moves_a_line(call: ScriptCall) -> bool
    ensures { result ≡ moves_a_line call }
{
    matches!(call.call, Call::Affinity { .. })
}

/// Whether a driver of the board moves a line.
fn has_affinity(board: &Board) -> bool
    ensures { result ≡ list_any moves_a_line board.now.calls }
{
    for i in 0..board.calls_len() {
        let call = call_at(board, i);
        if moves_a_line(call) {
            return true;
        }
    }
    false
}

/// The line at index `place`.
#[tactic(auto, using(crate::proofs::Left::left_at))]
fn line_at(board: &Board, place: usize) -> LineRow
    requires { place < length board.now.lines }
    ensures { drop place board.now.lines ≡ result ∷ drop (place + 1) board.now.lines }
{
    board.line(place).unwrap()
}

/// Whether the line moves later.
fn moves_later(line: LineRow) -> bool
    ensures { result ≡ moves_later line }
{
    line.later
}

/// Whether a line of the board moves later.
fn has_later(board: &Board) -> bool
    ensures { result ≡ list_any moves_later board.now.lines }
{
    for i in 0..board.lines_len() {
        let line = line_at(board, i);
        if moves_later(line) {
            return true;
        }
    }
    false
}

/// The call by which a placing moves the line; none if it doesn't.
fn move_of(row: FleetRow) -> Option<LineCall>
    requires { HasCpu row }
    ensures { option_to_list result ≡ move_of row }
{
    match row {
        FleetRow::Placed {
            line,
            vector,
            moved: true,
            ..
        } => {
            let mask = 1 << vector.cpu.0;
            let call = Call::Affinity { mask };
            Some(LineCall { line, call })
        }
        _ => None,
    }
}

/// Adds the move, if the placing is one.
fn add_move(calls: &mut Vec<LineCall>, row: FleetRow) -> Result<(), NoMemory>
    requires { HasCpu row }
    ensures { OnOk result (calls.new.items ≡ calls.old.items ++ move_of row) }
{
    if let Some(call) = move_of(row) {
        calls.push(call)?;
    }
    Ok(())
}

/// The row at index `place`.
#[tactic(auto, using(std::proofs::lemmas::List::drop_more))]
fn row_at(said: &[FleetRow], place: usize) -> FleetRow
    requires { place < length said.now }
    ensures item { slice_index_or said.now place result ≡ result }
    ensures left { drop place said.now ≡ result ∷ drop (place + 1) said.now }
{
    said[place]
}

/// The moves that were said, in order. The only error is `NoMemory`.
fn moves_of(alloc: Global, said: &[FleetRow]) -> Result<Vec<LineCall>, NoMemory>
    requires { All HasCpu said.now }
    ensures { IfOk result (λ calls. calls.items ≡ moves_of said.now) }
{
    let mut calls = Vec::new(alloc);
    for i in 0..said.len() {
        let row = row_at(said, i);
        add_move(&mut calls, row)?;
    }
    Ok(calls)
}

/// The board with driver 65535 behind its drivers, whose calls move each line that was placed on
/// another processor than took its interrupts by then (`irq_do_set_affinity` of
/// `kernel/irq/manage.c`), in the order of the placings. Its layout is that of the board. The only
/// error is `NoMemory`.
#[tactic(auto, using(crate::proofs::Moves::have_cpus, crate::proofs::Moves::moves_ok))]
pub fn planned(alloc: Global, fleet: &Fleet, board: Board) -> Result<Board, NoMemory>
    requires fits { IsForHotplug board }
    requires lines { AreLinesOf board fleet.now.berths }
    requires room { length board.calls + length (moves_of fleet.now.said) ≤ 16384 }
    ensures board { IfOk result (λ longer. longer ≡ planned board fleet.now) }
    ensures layout { IfOk result (λ longer. layout_of longer ≡ layout_of board) }
{
    fleet.is_fleet();
    let rows = fleet.said();
    let calls = moves_of(alloc, rows)?;
    with_last_driver(board, &calls)
}
