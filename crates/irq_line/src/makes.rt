//! What makes a line.
ghost use Rattle.std.specs.Prelude.{◌≡◌, ℕ, [], IfOk};
ghost use Rattle.irq_base.specs.declared.lines.LineDef.{LineDef};

use crate::line::IrqLine;
use irq_base::{LineDef, NoMemory};
use std::alloc::Global;

/// A maker of lines. A line that looks everything up is made of a definition alone; one with a chip
/// of its own needs the controllers of its path too, which its maker holds.
pub trait MakesLine<L: IrqLine> {
    /// For which virqs and definitions it may be called.
    ghost makes: { Self → ℕ → LineDef → Type 0 };

    /// The line of this virq and definition, to which nothing has happened. The only error is
    /// `NoMemory`.
    fn make(&self, alloc: Global, virq: u32, def: &LineDef) -> Result<L, NoMemory>
        requires { makes self.now virq def.now }
        ensures def { IfOk result (λ line. (L.seen line).def ≡ def.now) }
        ensures empty { IfOk result (λ line. (L.seen line).entries ≡ []) };
}
