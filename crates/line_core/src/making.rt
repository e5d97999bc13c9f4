//! What makes lines over a cell by itself.
ghost use Rattle.std.specs.Prelude.{◌≡◌};
ghost use Rattle.irq_model.specs.Lines.{serves};
ghost use Rattle.irq_model.specs.Valid.{IsValid};
ghost use Rattle.irq_model.specs.ValidRuns.{HasValidRuns};

use crate::line::Line;
use irq_base::{FlowKind, LineDef, NoMemory, Trigger};
use irq_line::MakesLine;
use line_cell::Cell;
use std::alloc::Global;

/// Makes a line of every valid definition with valid runs, whatever its virq, over the cell that
/// the definition describes.
#[derive(Clone, Copy)]
pub struct MakesCellLine;

/// Whether the definition's cell keeps an interrupt in service.
fn serves(def: &LineDef) -> bool
    ensures { result ≡ serves def.now }
{
    def.trigger == Trigger::Level && def.flow == FlowKind::Eoi
}

impl MakesLine<Line<Cell>> for MakesCellLine {
    ghost makes = { λ maker virq def. IsValid def × HasValidRuns def };

    fn make(&self, alloc: Global, _virq: u32, def: &LineDef) -> Result<Line<Cell>, NoMemory> {
        let cell = Cell::new(
            def.trigger,
            def.keeps,
            def.recalls,
            def.retriggers,
            serves(def),
        );
        Line::new(alloc, def, cell)
    }
}
