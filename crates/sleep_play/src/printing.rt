//! The rows of a sleep.
use crate::rows::{asleep_row, wake_row};
use irq_line::IrqLine;
use irq_pm::SleepEntry;
use irq_sleeper::SleepWalk;
use play_report::{RowRoom, StepRows};

/// The steps and marks that are left to be printed, the oldest first.
#[derive(Drop)]
pub struct SleepRows<'s, L: IrqLine> {
    pub(crate) steps: SleepWalk<'s, L>,
}

impl<'s, L: IrqLine> StepRows for SleepRows<'s, L> {
    ghost use Rattle.irq_pm.specs.SleepLog.{told};
    ghost use Rattle.sleep_play.specs.Rows.{step_text};

    type Step = SleepEntry;

    ghost left = { λ r. r.steps };

    ghost told = { told };

    ghost text = { step_text };

    fn next(&mut self) -> Option<SleepEntry> {
        self.steps.next()
    }

    fn row_of<'r>(room: &'r mut RowRoom, step: SleepEntry) -> &'r [u8] {
        match step {
            SleepEntry::Step { line, entry } => return room.kept.row_of(line, &entry),
            SleepEntry::Asleep => asleep_row(&mut room.row),
            SleepEntry::Wake { line } => wake_row(&mut room.row, line),
        }
        room.row.bytes()
    }
}
