//! A walk over the log of a sleep.
ghost use Rattle.std.specs.Prelude.{◌≡◌, ◌<◌, ◌^◌, drop, length, slice_get};
ghost use Rattle.irq_sleeper.specs.Seen.{marked};

use crate::marks::WakeMark;
use board_core::Moves;
use irq_line::IrqLine;
use irq_pm::SleepEntry;
use std::marker::Model;

/// The entries of a log, the oldest first. Contracts see the list of the entries that are left. It
/// lends values alone, and takes no memory.
#[derive(Drop)]
pub struct SleepWalk<'s, L: IrqLine> {
    moves: Moves<'s, L>,
    /// How many moves came before.
    at: usize,
    /// The marks that are left.
    asleep: Option<usize>,
    wake: Option<WakeMark>,
}

impl<'s, L: IrqLine> Model for SleepWalk<'s, L> {
    ghost use Rattle.std.specs.Prelude.{◌+◌, ◌<◌, ◌^◌, List, length};
    ghost use Rattle.irq_pm.specs.declared.entries.SleepEntry.{SleepEntry};
    ghost use Rattle.irq_sleeper.specs.Seen.{marked};

    ghost Value = { List SleepEntry };

    ghost view = { λ w. marked w.asleep w.wake w.at w.moves };

    ghost invariant = { λ w. w.at + length w.moves < 2 ^ 64 };
}

impl<'s, L: IrqLine> SleepWalk<'s, L> {
    /// The walk over these moves, with the marks between them.
    pub(crate) fn new(
        moves: Moves<'s, L>,
        asleep: Option<usize>,
        wake: Option<WakeMark>,
    ) -> SleepWalk<'s, L>
        requires { length moves < 2 ^ 64 }
        ensures { result ≡ marked asleep wake 0 moves.entry }
    {
        SleepWalk {
            moves,
            at: 0,
            asleep,
            wake,
        }
    }

    /// The next entry, if one is left.
    pub fn next(&mut self) -> Option<SleepEntry>
        ensures first { result ≡ slice_get self.old 0 }
        ensures rest { self.new ≡ drop 1 self.old }
    {
        if let Some(at) = self.asleep {
            if at == self.at {
                self.asleep = None;
                return Some(SleepEntry::Asleep);
            }
        }
        if let Some(wake) = self.wake {
            if wake.at == self.at {
                self.wake = None;
                return Some(SleepEntry::Wake { line: wake.line });
            }
        }
        let (line, entry) = self.moves.next()?;
        self.at += 1;
        Some(SleepEntry::Step { line, entry })
    }
}
