//! The row of a line in a layout.
ghost use Rattle.std.specs.Prelude.{◌≡◌, ◌+◌, ◌<◌, ◌≤◌, [], ◌∷◌, ◌++◌, length, map};
ghost use Rattle.board_def.specs.Layout.{layout_of};
ghost use Rattle.log_text.specs.LayoutRows.{IsShort, layout_row_text, level_word, placement_words};
ghost use Rattle.log_text.specs.Spaced.{spaced};

use crate::pieces::{push_long_word, push_named, push_number, push_word};
use crate::words::of_unmapped;
use board_def::{Board, Layout, Placement};
use irq_base::Path;
use text_row::TextRow;

/// Writes the row of the board's line at index `place`, counted from 0: `# irq LINE virq VIRQ`, and
/// the name of each domain on its way with the line's number there, leaf first; or `# irq LINE
/// refused` and why. It begins with `#`, so no reader of a log takes it for an entry. What the row
/// held before is gone.
#[tactic(auto, using(crate::proofs::Levels::short_at, crate::proofs::Levels::row_is))]
pub fn layout_row(row: &mut TextRow, layout: &Layout, board: &Board, place: usize)
    requires line { place < length board.now.lines }
    requires layout { layout.now ≡ layout_of board.now }
    ensures { row.new ≡ layout_row_text board.now place }
{
    board.is_board();
    let Some(line) = board.line(place) else {
        unreachable!();
    };
    let Some(placement) = layout.get(place) else {
        unreachable!();
    };
    row.clear();
    row.push(b'#');
    push_word(row, b"irq");
    push_number(row, line.line.0);
    push_placement(row, board, &placement);
    row.push(b'\n');
}

// Adds where the line lies, or why it is refused.
fn push_placement(row: &mut TextRow, board: &Board, placement: &Placement)
    requires room { length row.old ≤ 40 }
    requires short { IsShort placement.now }
    ensures text { row.new ≡ row.old ++ spaced (placement_words board.now.domains placement.now) }
    ensures short { length row.new ≤ 300 }
{
    match placement {
        Placement::Mapped { virq, path } => {
            push_word(row, b"virq");
            push_number(row, *virq);
            push_levels(row, board, path);
        }
        Placement::Refused(why) => {
            push_word(row, b"refused");
            push_long_word(row, of_unmapped(*why));
        }
    }
}

// Adds the levels of the path.
#[tactic(auto, using(crate::proofs::Spacing::spaced_more))]
fn push_levels(row: &mut TextRow, board: &Board, path: &Path)
    requires room { length row.old ≤ 64 }
    requires short { length path.now ≤ 8 }
    ensures text { row.new ≡ row.old ++ spaced (map (level_word board.now.domains) path.now) }
    ensures short { length row.new ≤ 300 }
{
    for i in 0..path.len() {
        let Some(level) = path.get(i) else {
            unreachable!();
        };
        push_level(row, board, level);
    }
}

// Adds the name of the level's domain and the number there.
#[tactic(auto, using(crate::proofs::Levels::name_short))]
fn push_level(row: &mut TextRow, board: &Board, level: (usize, u32))
    requires { length row.old ≤ 292 }
    ensures text { row.new ≡ row.old ++ spaced (level_word board.now.domains level ∷ []) }
    ensures grows { length row.new ≤ length row.old + 28 }
{
    let (place, number) = level;
    match board.domain(place) {
        Some(domain) => {
            board.is_board();
            push_named(row, domain.name.bytes(), number);
        }
        None => push_named(row, b"", number),
    }
}
