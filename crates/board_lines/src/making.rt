//! What makes lines over chains.
ghost use Rattle.std.specs.Prelude.{◌≡◌, IfOk, Option, Some, [], true};
ghost use Rattle.irq_base.specs.declared.entries.Entry.{Entry};
ghost use Rattle.line_core.specs.Room.{links_next};
ghost use Rattle.board_lines.specs.Wirings.{wiring_at};
ghost use Rattle.line_makers.specs.Chips.{HasChips};

use domain_chain::Chain;
use domain_hier::Hierarchy;
use irq_base::{LineDef, NoMemory};
use irq_line::IrqLine;
use line_core::Line;
use line_makers::MakesDomainLine;
use std::alloc::Global;

/// Makes each line over the chip of its whole path, which it finds by the line's virq
/// (`irq_get_irq_data`, `kernel/irq/chip.c`).
#[derive(Clone, Copy)]
pub struct MakesChainLine;

impl MakesDomainLine for MakesChainLine {
    type Line = Line<Chain>;

    fn make(
        &self,
        alloc: Global,
        domains: &Hierarchy,
        virq: u32,
        def: &LineDef,
    ) -> Result<Line<Chain>, NoMemory>
        requires { HasChips domains.now virq def.now }
        ensures def { IfOk result (λ line. line.line.def ≡ def.now) }
        ensures empty { IfOk result (λ line. line.line.entries ≡ []) }
        ensures wiring { IfOk result (λ line. Some line.wiring ≡ wiring_at domains.now virq) }
    {
        Line::new(alloc, def, domains.chain(virq))
    }
}

/// A step of such a line wants memory, though its history has room, only to link an action.
pub fn wants_to_link()
    ensures law { (due : Option Entry) → ⟦<Line<Chain> as IrqLine>⟧.may_want due
        → links_next due ≡ true }
{}
