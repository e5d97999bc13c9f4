//! The judges of a board's lines.
ghost use Rattle.std.specs.Prelude.{◌≡◌, [], IfOk};
ghost use Rattle.std.specs.Option.{option_map};
ghost use Rattle.board_def.specs.Layout.{layout_of};
ghost use Rattle.log_check.specs.Judging.{HaveJudged, IsMade, MakesEach, MakesFor};

use crate::line_judge::LineJudge;
use board_def::{Board, Layout, Placement};
use irq_base::{LineDef, NoMemory};
use irq_line::{IrqLine, MakesLine};
use std::alloc::Global;

/// The most entries of a line that judges. The board's own limit doesn't bound a log that is
/// judged: how long a history may grow is no rule of what is due.
const MOST_ENTRIES: u32 = 100_000_000;

/// A judge for each line of the board, in its order. The only error is `NoMemory`.
pub(crate) fn make_judges<L: IrqLine, M: MakesLine<L>>(
    alloc: Global,
    board: &Board,
    layout: &Layout,
    maker: &M,
) -> Result<Vec<LineJudge<L>>, NoMemory>
    requires layout { layout.now ≡ layout_of board.now }
    requires makes { MakesEach (M.makes maker.now) board.now }
    ensures { IfOk result (λ judges. HaveJudged board.now [] judges.items) }
{
    let mut defs = board.line_defs(alloc)?;
    let mut judges = Vec::new(alloc);
    for i in 0..defs.len() {
        let line = make_line::<L, M>(alloc, layout.get(i), &mut defs[i], maker)?;
        judges.push(LineJudge::new(line))?;
    }
    Ok(judges)
}

/// The line of the definition, but for its log limit; none if the layout refused it.
pub(crate) fn make_line<L: IrqLine, M: MakesLine<L>>(
    alloc: Global,
    placement: Option<Placement>,
    def: &mut LineDef,
    maker: &M,
) -> Result<Option<L>, NoMemory>
    requires { MakesFor (M.makes maker.now) def.old placement }
    ensures { IfOk result (λ line. IsMade def.old placement (option_map L.seen line)) }
{
    let Some(Placement::Mapped { virq, .. }) = placement else {
        return Ok(None);
    };
    def.log = MOST_ENTRIES;
    let line = maker.make(alloc, virq, def)?;
    Ok(Some(line))
}
