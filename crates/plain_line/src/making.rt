//! What makes plain lines.
ghost use Rattle.irq_model.specs.Valid.{IsValid};
ghost use Rattle.irq_model.specs.ValidRuns.{HasValidRuns};

use crate::line::PlainLine;
use irq_base::{LineDef, NoMemory};
use irq_line::MakesLine;
use std::alloc::Global;

/// Makes a plain line of every valid definition with valid runs, whatever its virq.
#[derive(Clone, Copy)]
pub struct MakesPlainLine;

impl MakesLine<PlainLine> for MakesPlainLine {
    ghost makes = { λ maker virq def. IsValid def × HasValidRuns def };

    fn make(&self, alloc: Global, _virq: u32, def: &LineDef) -> Result<PlainLine, NoMemory> {
        PlainLine::new(alloc, def)
    }
}
