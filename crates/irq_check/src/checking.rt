//! An input is judged.
ghost use Rattle.std.specs.Prelude.{◌≡◌, ◌≤◌, length, IfOk, IfSome};
ghost use Rattle.board_stated.specs.TextOf.{whole};
ghost use Rattle.board_def.specs.Layout.{layout_of};
ghost use Rattle.irq_check.specs.Checked.{Checks, IsExplained, IsPrintableAnswer, IsReason};
ghost use Rattle.line_makers.specs.Chips.{HasAllChips};
ghost use Rattle.log_check.specs.Why.{IsPrintableDue};
ghost use Rattle.log_check.specs.Verdicts.{ChecksLog};

use crate::answers::Judgement;
use crate::parts::cut_input;
use board_def::{Board, Layout};
use board_layout::lay;
use board_text::{BoardFault, BoardRefused, FaultKind, read_board};
use irq_base::NoMemory;
use line_makers::{MakesDomainLine, OverDomains};
use log_check::{Undue, Verdict, check_log, explain_log};
use std::alloc::Global;

/// The most bytes of an input.
pub const LONGEST_INPUT: usize = 67_108_864;

/// Judges an input: the text of a board, a row `---` and a log of the board. With `why` it is found
/// out too why the log is unlawful, if it is. Lines do the judging, and `maker` makes them.
///
/// # Errors
///
/// `Fault` with the first fault: the input has more than `LONGEST_INPUT` bytes; it has no row
/// `---`; the first fault of the board's text. `NoMemory` if memory was refused.
pub fn check_bytes<M: MakesDomainLine>(
    alloc: Global,
    bytes: &[u8],
    why: bool,
    maker: &M,
) -> Result<Judgement, BoardRefused>
    ensures exact { Checks why bytes.now result }
    ensures printable { IfOk result IsPrintableAnswer }
{
    if bytes.len() > LONGEST_INPUT {
        return Err(whole(FaultKind::TooLong));
    }
    let Some((text, log)) = cut_input(bytes) else {
        return Err(whole(FaultKind::NoLog));
    };
    let board = read_board(alloc, text)?;
    match judge_log(alloc, &board, log, why, maker) {
        Ok(answer) => Ok(answer),
        Err(NoMemory) => Err(BoardRefused::NoMemory),
    }
}

/// A fault of the whole input.
fn whole(kind: FaultKind) -> BoardRefused
    ensures { result ≡ BoardRefused.Fault (whole kind) }
{
    BoardRefused::Fault(BoardFault { at: 0, kind })
}

/// Judges the text of a log of the board, over the board's own chains. The only error is
/// `NoMemory`.
fn judge_log<M: MakesDomainLine>(
    alloc: Global,
    board: &Board,
    log: &[u8],
    why: bool,
    maker: &M,
) -> Result<Judgement, NoMemory>
    requires { length log.now ≤ 67108864 }
    ensures judged { IfOk result (λ answer. ChecksLog board.now log.now answer.verdict) }
    ensures explained { IfOk result (λ answer. IsExplained board.now log.now why answer) }
    ensures printable { IfOk result IsPrintableAnswer }
{
    let (domains, layout) = lay(alloc, board)?;
    let maker = OverDomains::of_board(maker, &domains, board);
    let verdict = check_log::<M::Line, OverDomains<'_, M>>(alloc, board, &layout, &maker, log)?;
    if !why {
        return Ok(Judgement { verdict, why: None });
    }
    let why = reason_of(alloc, board, &layout, &maker, log, verdict)?;
    Ok(Judgement { verdict, why })
}

/// Why the log of the board has this verdict, if it is unlawful. The only error is `NoMemory`.
fn reason_of<M: MakesDomainLine>(
    alloc: Global,
    board: &Board,
    layout: &Layout,
    maker: &OverDomains<'_, M>,
    log: &[u8],
    verdict: Verdict,
) -> Result<Option<Undue>, NoMemory>
    requires layout { layout.now ≡ layout_of board.now }
    requires makes { HasAllChips maker.now board.now }
    requires few { length log.now ≤ 67108864 }
    requires verdict { ChecksLog board.now log.now verdict }
    ensures reason { IfOk result (λ found. IsReason board.now log.now verdict found) }
    ensures printable { IfOk result (λ found. IfSome found (λ undue. IsPrintableDue undue.due)) }
{
    match verdict {
        Verdict::Unlawful { line, .. } => {
            explain_log::<M::Line, OverDomains<'_, M>>(alloc, board, layout, maker, log, line)
        }
        Verdict::Lawful | Verdict::Malformed { .. } => Ok(None),
    }
}
