//! The status of a demultiplexer, and its parent's input.
ghost use Rattle.std.specs.Prelude.{◌≡◌, ◌<◌, ◌==◌, ℕ, true, false, if◌then◌else◌, IsTrue, Some};
ghost use Rattle.std.specs.Prelude.{slice_get};
ghost use Rattle.irq_base.specs.Cell.{after_high, is_edge_cell};
ghost use Rattle.board_ready.specs.First.{first_of};
ghost use Rattle.board_ready.specs.Sets.{has};
ghost use Rattle.board_core.specs.Firsts.{is_take_due, number_of};
ghost use Rattle.board_core.specs.Seen.{board_lines};
ghost use Rattle.irq_chained.specs.Chain.{cpu_0, status_of};
ghost use Rattle.irq_chained.specs.Fits.{is_for_chain};
ghost use Rattle.irq_chained.specs.Parent.{is_asked};
ghost use Rattle.irq_chained.specs.Walk.{IsWalkAfter, is_in_words};

use crate::marks::Walk;
use crate::parent::ParentInput;
use board_core::{System, Turn};
use irq_base::{CpuNo, LineNo};
use irq_line::{IrqLine, StepRefused};

/// The processor that takes the parent's interrupts.
pub(crate) const CPU_0: CpuNo = CpuNo(0);

/// The children that have a take due: of the child at place k bit k. It takes the same time however
/// many there are.
pub(crate) fn read_status<L: IrqLine>(system: &System<'_, L>) -> u32
    requires { is_for_chain system.now.board ≡ true }
    ensures { result ≡ status_of (board_lines system.now.lines) }
{
    system.is_kept();
    system.takes(CPU_0) as u32
}

/// The parent's input shows whether a child has a take due.
pub(crate) fn show<L: IrqLine>(parent: &mut ParentInput, system: &System<'_, L>)
    requires fits { is_for_chain system.now.board ≡ true }
    requires level { is_edge_cell parent.old ≡ false }
    ensures { parent.new ≡ after_high (is_asked (board_lines system.now.lines)) parent.old }
{
    parent.set_high(read_status(system) != 0);
}

/// The place of the first child of the status that has a take due and isn't among those taken.
pub(crate) fn first_left(status: u32, taken: u64, due: u32) -> Option<usize>
    ensures { result ≡ first_of (is_in_words status taken due) 64 }
{
    first_bit((status as u64) & !taken & (due as u64))
}

/// The lowest bit of the word that is set.
fn first_bit(word: u64) -> Option<usize>
    ensures { result ≡ first_of (has word) 64 }
{
    if word == 0 {
        return None;
    }
    Some(word.trailing_zeros() as usize)
}

/// The word with this bit set.
fn with_bit(word: u64, number: usize) -> u64
    requires { number < 64 }
    ensures { (i : ℕ) → i < 64 → has result i ≡ (if i == number then true else has word i) }
{
    word | (1 << number)
}

/// The walk after a turn that was to take the child at this place.
pub(crate) fn walk_after(walk: Walk, place: usize, turn: Result<Turn, StepRefused>) -> Walk
    requires { place < 64 }
    ensures { IsWalkAfter walk place turn result }
{
    match turn {
        Ok(Turn::Moved { .. }) => Walk {
            status: walk.status,
            taken: with_bit(walk.taken, place),
        },
        Ok(Turn::NotYet) => walk,
        Err(_) => walk,
    }
}

/// The number of the child at this place, which has a take due.
pub(crate) fn number_at<L: IrqLine>(system: &System<'_, L>, place: usize) -> LineNo
    requires { IsTrue (is_take_due cpu_0 (slice_get (board_lines system.now.lines) place)) }
    ensures { number_of (slice_get (board_lines system.now.lines) place) ≡ Some result }
{
    system.lines()[place].definition().line
}
