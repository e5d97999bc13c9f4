//! The trait.
ghost use Rattle.std.specs.Prelude.{◌≡◌, [], IfOk};
ghost use Rattle.line_makers.specs.Chips.{HasChips};

use domain_hier::Hierarchy;
use irq_base::{LineDef, NoMemory};
use line_obstacles::TellsObstacles;
use std::alloc::Global;

/// A maker of lines for the virqs of any hierarchy of interrupt domains (`irq_domain_alloc_irqs`,
/// `kernel/irq/irqdomain.c`). It may be called for each virq that has a path, with each valid
/// definition of a line whose cell the path's levels are together; a layout's own facts say so of
/// the board's lines.
pub trait MakesDomainLine {
    /// The lines that it makes.
    type Line: TellsObstacles;

    /// The line of this virq and definition, to which nothing has happened. The only error is
    /// `NoMemory`.
    fn make(
        &self,
        alloc: Global,
        domains: &Hierarchy,
        virq: u32,
        def: &LineDef,
    ) -> Result<Self::Line, NoMemory>
        requires { HasChips domains.now virq def.now }
        ensures def { IfOk result (λ line. (Self.Line.seen line).def ≡ def.now) }
        ensures empty { IfOk result (λ line. (Self.Line.seen line).entries ≡ []) };
}
