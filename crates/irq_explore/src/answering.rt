//! The answer of a line's search.
ghost use Rattle.std.specs.Prelude.{◌≡◌, ◌≤◌, ◌<◌, IfOk, Some, length, slice_get};
ghost use Rattle.explore_words.specs.Words.{IsCount};
ghost use Rattle.irq_explore.specs.Answered.{AnsweredAt, AnsweredRefused};
ghost use Rattle.irq_explore.specs.Printing.{IsPrintableAnswer};

use board_def::Board;
use board_layout::lay;
use domain_rules::Placement;
use irq_base::NoMemory;
use line_survey::{Answer, shortest};
use line_wanted::{Left, Standing, Wanted};
use std::alloc::Global;

/// As a line is left to which nothing has happened.
const UNTOUCHED: Left = Left {
    hung: None,
    standing: Standing::Stopped,
    unserved: 0,
    stored: false,
    pending: false,
};

/// What is said of a line that the layout refuses: it has the empty history alone.
fn answer_of_refused(alloc: Global, wanted: Wanted) -> Answer
    ensures answered { AnsweredRefused wanted result }
    ensures rows { IsPrintableAnswer result }
{
    match wanted {
        Wanted::Rest(left) if left == UNTOUCHED => Answer::Found(Vec::new(alloc)),
        _ => Answer::Never,
    }
}

/// What a search through at most `states` states of the board's line at index `place` says of what
/// is wanted. The only error is `NoMemory`.
pub(crate) fn answer_at(
    alloc: Global,
    board: &Board,
    place: usize,
    wanted: Wanted,
    states: u32,
) -> Result<Answer, NoMemory>
    requires line { place < length board.now.lines }
    requires states { IsCount states }
    ensures answered { IfOk result (AnsweredAt states board.now place wanted) }
    ensures rows { IfOk result IsPrintableAnswer }
{
    let (_, layout) = lay(alloc, board)?;
    let Some(Placement::Mapped { .. }) = layout.get(place) else {
        return Ok(answer_of_refused(alloc, wanted));
    };
    let defs = board.line_defs(alloc)?;
    shortest(alloc, &defs[place], wanted, states as usize)
}
