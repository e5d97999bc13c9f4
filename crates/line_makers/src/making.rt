//! A maker lent together with the hierarchy that it looks in.
ghost use Rattle.std.specs.Prelude.{◌≡◌};
ghost use Rattle.board_def.specs.Layout.{layout_of};
ghost use Rattle.board_def.specs.Unnamed.{defs_of};
ghost use Rattle.board_layout.specs.Laid.{paths_of};
ghost use Rattle.line_makers.specs.Chips.{HasAllChips, HasChips};

use crate::makes::MakesDomainLine;
use board_def::Board;
use domain_hier::Hierarchy;
use irq_base::{LineDef, NoMemory};
use irq_line::MakesLine;
use std::alloc::Global;
use std::marker::Model;

/// Makes lines in one hierarchy, by a maker that takes any. Contracts see the hierarchy.
#[derive(Drop)]
pub struct OverDomains<'a, M: MakesDomainLine> {
    maker: &'a M,
    domains: &'a Hierarchy,
}

impl<'a, M: MakesDomainLine> Model for OverDomains<'a, M> {
    ghost use Rattle.domain_hier.specs.Hierarchies.{HierarchySeen};

    ghost Value = { HierarchySeen };

    ghost view = { λ m. m.domains.now };
}

impl<'a, M: MakesDomainLine> OverDomains<'a, M> {
    /// The maker of lines whose virqs are in use in this hierarchy.
    pub fn new(maker: &'a M, domains: &'a Hierarchy) -> OverDomains<'a, M>
        ensures { result ≡ domains.now }
    {
        OverDomains { maker, domains }
    }

    /// The maker of the board's lines, for a hierarchy that is laid for the board. It makes each
    /// line that takes part, of its virq and of the definition that the board gives it.
    pub fn of_board(maker: &'a M, domains: &'a Hierarchy, board: &Board) -> OverDomains<'a, M>
        requires domains { domains.now.domains ≡ defs_of board.now.domains }
        requires paths { domains.now.paths ≡ paths_of (layout_of board.now) }
        ensures hierarchy { result ≡ domains.now }
        ensures makes { HasAllChips result board.now }
    {
        board.is_board();
        OverDomains::new(maker, domains)
    }
}

impl<'a, M: MakesDomainLine> MakesLine<M::Line> for OverDomains<'a, M> {
    ghost makes = { λ maker virq def. HasChips maker virq def };

    fn make(&self, alloc: Global, virq: u32, def: &LineDef) -> Result<M::Line, NoMemory> {
        self.maker.make(alloc, self.domains, virq, def)
    }
}
