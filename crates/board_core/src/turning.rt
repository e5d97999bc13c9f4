//! What a step of a line makes of a system.
ghost use Rattle.std.specs.Prelude.{◌≡◌, ◌<◌, IfSome, length};
ghost use Rattle.board_core.specs.Turned.{scripts_after, turn_of};

use crate::scripts::Script;
use crate::turns::Turn;
use irq_base::LineNo;
use irq_line::{StepRefused, Stepped};
use std::convert::Infallible;

/// The script at place `script` goes on by the entry that the step added, if it added one.
#[inline(always)]
pub(crate) fn advance(
    scripts: &mut Vec<Script>,
    script: Option<usize>,
    stepped: &Result<Stepped<Infallible>, StepRefused>,
)
    requires { IfSome script (λ j. j < length scripts.old.items) }
    ensures { scripts.new.items ≡ scripts_after script stepped.now scripts.old.items }
{
    if let Some(j) = script {
        if let Ok(Stepped::Added(entry)) = stepped {
            // a copy, so that the answer itself needs no place in memory
            let entry = *entry;
            scripts[j].advance(&entry);
        }
    }
}

/// What a turn answers, by what the step of its line answered.
pub(crate) fn turn_of(
    line: LineNo,
    stepped: Result<Stepped<Infallible>, StepRefused>,
) -> Result<Turn, StepRefused>
    ensures { result ≡ turn_of line stepped }
{
    match stepped {
        Ok(Stepped::Added(entry)) => Ok(Turn::Moved { line, entry }),
        Ok(Stepped::NotYet) => Ok(Turn::NotYet),
        Err(refused) => Err(refused),
    }
}
