//! A walk over the log of a demultiplexer.
ghost use Rattle.std.specs.Prelude.{◌≡◌, ◌≤◌, drop, length, slice_get};
ghost use Rattle.irq_chained.specs.Walk.{AreWithin, mark_of, mark_reached, merged};

use crate::chain::ChainEntry;
use crate::marks::{Mark, Marked};
use crate::status::CPU_0;
use board_core::Moves;
use irq_line::IrqLine;
use std::marker::Model;

/// The steps of a log, the oldest first. Contracts see the list of the steps that are left. It
/// lends values alone, and takes no memory.
#[derive(Drop)]
pub struct ChainWalk<'s, L: IrqLine> {
    marks: &'s [Mark],
    moves: Moves<'s, L>,
    /// How many marks were told.
    at: usize,
    /// How many moves there are, and how many of them are left.
    total: usize,
    left: usize,
}

impl<'s, L: IrqLine> Model for ChainWalk<'s, L> {
    ghost use Rattle.std.specs.Prelude.{◌-◌, List, drop};
    ghost use Rattle.irq_chained.specs.Walk.{IsWalking, merged};
    ghost use Rattle.irq_chained.specs.declared.chain.ChainEntry.{ChainEntry};

    ghost Value = { List ChainEntry };

    ghost view = { λ w. merged (drop w.at w.marks.now) w.moves (w.total - w.left) };

    ghost invariant = { λ w. IsWalking w.marks.now w.moves w.at w.total w.left };
}

impl<'s, L: IrqLine> ChainWalk<'s, L> {
    /// The walk over the moves, with the marks among them.
    pub(crate) fn new(marks: &'s [Mark], moves: Moves<'s, L>, total: usize) -> ChainWalk<'s, L>
        requires total { total ≡ length moves }
        requires within { AreWithin (length moves) marks.now }
        ensures { result ≡ merged marks.now moves.entry 0 }
    {
        ChainWalk {
            marks,
            moves,
            at: 0,
            total,
            left: total,
        }
    }

    /// The next step, if one is left. It takes the same time however many there are.
    pub fn next(&mut self) -> Option<ChainEntry>
        ensures first { result ≡ slice_get self.old 0 }
        ensures rest { self.new ≡ drop 1 self.old }
    {
        match mark_at(self.marks, self.at, self.total - self.left) {
            Some(what) => {
                self.at += 1;
                Some(step_of_mark(what))
            }
            None => match self.moves.next() {
                Some((line, entry)) => {
                    self.left -= 1;
                    Some(ChainEntry::Child { line, entry })
                }
                None => None,
            },
        }
    }
}

/// The mark at index `at`, if it stands behind no more moves than were told.
fn mark_at(marks: &[Mark], at: usize, told: usize) -> Option<Marked>
    ensures { result ≡ mark_reached (slice_get marks.now at) told }
{
    let mark = marks.get(at)?;
    if mark.before <= told {
        Some(mark.what)
    } else {
        None
    }
}

/// The step that a mark is.
fn step_of_mark(what: Marked) -> ChainEntry
    ensures { result ≡ mark_of what }
{
    match what {
        Marked::Enter { status } => ChainEntry::Enter { cpu: CPU_0, status },
        Marked::Exit => ChainEntry::Exit { cpu: CPU_0 },
    }
}
