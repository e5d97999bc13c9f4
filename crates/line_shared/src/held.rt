//! The line as the lock keeps it.
ghost use Rattle.std.specs.Prelude.{◌≡◌};

use irq_base::LineDef;
use irq_line::IrqLine;
use line_lock::Kept;

/// A line in a box, so that a hold moves a pointer.
#[derive(Drop)]
pub struct HeldLine<L: IrqLine> {
    pub(crate) line: Box<L>,
}

impl<L: IrqLine> Kept for HeldLine<L> {
    ghost definition = { λ h. (L.seen h.line.value).def };

    ghost entries = { λ h. (L.seen h.line.value).entries };

    fn definition(&self) -> &LineDef {
        self.line.definition()
    }

    fn count(&self) -> usize {
        self.line.history().len()
    }
}
