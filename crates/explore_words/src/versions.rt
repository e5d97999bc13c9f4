//! Which boards can be asked.
ghost use Rattle.std.specs.Prelude.{◌≡◌};
ghost use Rattle.explore_words.specs.Words.{may_ask, may_want};

use crate::What;
use board_def::Board;
use line_wanted::Wanted;
use log_read::may_have;

/// Whether the board can be asked for it: a row of version 3 is no row of earlier boards.
pub fn may_ask(board: &Board, what: &What) -> bool
    ensures { result ≡ may_ask board.now.version what.now }
{
    match what {
        What::Survey | What::Line(_) => true,
        What::Row(_, wanted) | What::Play(_, wanted) => may_want(board, wanted),
    }
}

fn may_want(board: &Board, wanted: &Wanted) -> bool
    ensures { result ≡ may_want board.now.version wanted.now }
{
    match wanted {
        Wanted::Row(entry) => may_have(board, entry),
        Wanted::Rest(_) => true,
    }
}
