//! The rows of a play behind a demultiplexer.
use crate::rows::{enter_row, exit_row};
use irq_chained::{ChainEntry, ChainWalk};
use irq_line::IrqLine;
use play_report::{RowRoom, StepRows};

/// The steps that are left to be printed, the oldest first.
#[derive(Drop)]
pub struct ChainRows<'s, L: IrqLine> {
    pub(crate) steps: ChainWalk<'s, L>,
}

impl<'s, L: IrqLine> StepRows for ChainRows<'s, L> {
    ghost use Rattle.irq_chained.specs.Chain.{told};
    ghost use Rattle.chained_play.specs.Rows.{step_text};

    type Step = ChainEntry;

    ghost left = { λ r. r.steps };

    ghost told = { told };

    ghost text = { step_text };

    fn next(&mut self) -> Option<ChainEntry> {
        self.steps.next()
    }

    fn row_of<'r>(room: &'r mut RowRoom, step: ChainEntry) -> &'r [u8] {
        match step {
            ChainEntry::Enter { cpu, status } => enter_row(&mut room.row, cpu, status),
            ChainEntry::Child { line, entry } => return room.kept.row_of(line, &entry),
            ChainEntry::Exit { cpu } => exit_row(&mut room.row, cpu),
        }
        room.row.bytes()
    }
}
