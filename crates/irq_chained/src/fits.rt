//! Which boards can be played behind one demultiplexer.
ghost use Rattle.std.specs.Prelude.{◌≡◌, ◌<◌, ◌≤◌, slice_get};
ghost use Rattle.std.specs.List.{list_any};
ghost use Rattle.irq_model.specs.Lines.{is_in_mask};
ghost use Rattle.domain_rules.specs.Layout.{count_of_mapped};
ghost use Rattle.board_def.specs.Layout.{layout_of};
ghost use Rattle.irq_chained.specs.Fits.{is_affinity_call, is_for_chain, leaves_out, mapped_at};
ghost use Rattle.irq_chained.specs.Fits.{moves_a_line};

use board_def::{Board, Layout, LineRow, Placement, ScriptCall};
use irq_base::Call;

/// How many lines a demultiplexer has at most: the bits of its status.
const CHILDREN: usize = 32;

/// Whether the board can be played behind one demultiplexer: it has no call that moves a line, no
/// line whose mask leaves out a processor, and at most 32 lines that take part.
pub fn fits_chain(board: &Board, layout: &Layout) -> bool
    requires { layout.now ≡ layout_of board.now }
    ensures { result ≡ is_for_chain board.now }
{
    board.is_board();
    !moves_lines(board.calls()) && !has_narrow_line(board) && count_mapped(layout) <= CHILDREN
}

/// Some call moves a line.
fn moves_lines(calls: &[ScriptCall]) -> bool
    ensures { result ≡ list_any moves_a_line calls.now }
{
    for call in calls {
        if is_affinity_call(call.call) {
            return true;
        }
    }
    false
}

/// The call moves its line.
fn is_affinity_call(call: Call) -> bool
    ensures { result ≡ is_affinity_call call }
{
    matches!(call, Call::Affinity { .. })
}

/// The mask of some line leaves out a processor of the machine.
fn has_narrow_line(board: &Board) -> bool
    ensures { result ≡ list_any (leaves_out board.now.cpus) board.now.lines }
{
    board.is_board();
    for i in 0..board.lines_len() {
        let Some(row) = board.line(i) else {
            unreachable!();
        };
        if leaves_out(board.cpus(), &row) {
            return true;
        }
    }
    false
}

/// The line's mask leaves out one of the processors below `cpus`.
fn leaves_out(cpus: u32, row: &LineRow) -> bool
    requires { cpus ≤ 32 }
    ensures { result ≡ leaves_out cpus row.now }
{
    for cpu in 0..cpus {
        if !is_in_mask(row.mask, cpu) {
            return true;
        }
    }
    false
}

/// The processor is in the mask.
fn is_in_mask(mask: u32, cpu: u32) -> bool
    requires { cpu < 32 }
    ensures { result ≡ is_in_mask mask cpu }
{
    (mask >> cpu) & 1 == 1
}

/// How many lines take part.
fn count_mapped(layout: &Layout) -> usize
    ensures { result ≡ count_of_mapped layout.now }
{
    let mut count = 0;
    for i in 0..layout.len() {
        count += mapped_at(layout, i);
    }
    count
}

/// 1 if the line at this place takes part, else 0.
fn mapped_at(layout: &Layout, place: usize) -> usize
    ensures { result ≡ mapped_at (slice_get layout.now place) }
{
    match layout.get(place) {
        Some(Placement::Mapped { .. }) => 1,
        Some(Placement::Refused(_)) => 0,
        None => 0,
    }
}
