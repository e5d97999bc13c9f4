//! What the top call hands out.
ghost use Rattle.std.specs.Prelude.{◌≡◌, [], false};
ghost use Rattle.board_stated.specs.TextOf.{whole};
ghost use Rattle.irq_top.specs.Ending.{ending_of_play, is_read_fault_end};

use crate::ending::Ending;
use board_words::{BoardFault, FaultKind};
use irq_base::Reports;
use play_report::PlayedBoard;
use std::alloc::Global;

/// What the top call hands out: how it ended, and the histories that were taken out of the lines.
/// If a board was played or run there is one report for each line, also if the play or the run only
/// came to a step that was refused. Else there is none.
#[derive(Drop)]
pub struct Outcome {
    /// How the call ended, with its exit status.
    pub ending: Ending,
    /// One report for each line, or none.
    pub reports: Reports,
}

impl Outcome {
    /// An ending at which no history is handed out.
    pub(crate) fn without_reports(alloc: Global, ending: Ending) -> Outcome
        ensures ending { result.ending ≡ ending }
        ensures reports { result.reports.reports ≡ [] }
    {
        Outcome {
            ending,
            reports: Reports::new(alloc),
        }
    }

    /// What a play or a run hands out.
    pub(crate) fn of_play(played: PlayedBoard) -> Outcome
        ensures ending { result.ending ≡ ending_of_play played.end }
        ensures unread { is_read_fault_end result.ending ≡ false }
        ensures reports { result.reports.reports ≡ played.reports.reports }
    {
        Outcome {
            ending: Ending::of_play(played.end),
            reports: played.reports,
        }
    }

    /// An ending at which the board isn't for what is asked: the fault is the whole text's.
    pub(crate) fn refused(alloc: Global, kind: FaultKind) -> Outcome
        ensures ending { result.ending ≡ Ending.Board (whole kind) }
        ensures unread { is_read_fault_end result.ending ≡ false }
        ensures reports { result.reports.reports ≡ [] }
    {
        Outcome::without_reports(alloc, Ending::Board(BoardFault { at: 0, kind }))
    }
}
