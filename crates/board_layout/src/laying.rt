//! Lays the lines of a board.
ghost use Rattle.std.specs.Prelude.{◌≡◌, ◌≤◌, ◌<◌, ◌+◌, ◌++◌, [], ◌∷◌, IfOk, OnOk, length, take};
ghost use Rattle.board_def.specs.Layout.{layout_of};
ghost use Rattle.board_def.specs.Unnamed.{defs_of, leaf_of};
ghost use Rattle.board_layout.specs.Laid.{paths_of, AllFall, HavePaths, IsLaid};
ghost use Rattle.domain_rules.specs.Layout.{placement_of};

use board_def::{Board, LineRow};
use domain_hier::{AllocAnswer, Hierarchy};
use domain_rules::{Layout, Placement, Unmapped};
use irq_base::NoMemory;
use std::alloc::Global;

/// Lays the board's lines in its order, each by an allocation over its domains
/// (`irq_domain_alloc_irqs_locked`, `kernel/irq/irqdomain.c`). Answers the hierarchy, with exactly
/// the paths of the lines that aren't refused, and where each line lies. The only error is
/// `NoMemory`.
pub fn lay(alloc: Global, board: &Board) -> Result<(Hierarchy, Layout), NoMemory>
    ensures layout { IfOk result (λ laid. laid.1 ≡ layout_of board.now) }
    ensures domains { IfOk result (λ laid. laid.0.domains ≡ defs_of board.now.domains) }
    ensures paths { IfOk result (λ laid. laid.0.paths ≡ paths_of (layout_of board.now)) }
    ensures virqs { IfOk result (λ laid. HavePaths laid.0.paths laid.1) }
{
    let mut domains = domains_of(alloc, board)?;
    let mut layout = Layout::new(alloc);
    for i in 0..board.lines_len() {
        lay_line(&mut domains, &mut layout, board, i)?;
    }
    Ok((domains, layout))
}

// The board's domains, in which no line is allocated yet.
fn domains_of(alloc: Global, board: &Board) -> Result<Hierarchy, NoMemory>
    ensures domains { IfOk result (λ h. h.domains ≡ defs_of board.now.domains) }
    ensures paths { IfOk result (λ h. h.paths ≡ []) }
{
    let mut domains = Hierarchy::new(alloc);
    for i in 0..board.domains_len() {
        add_domain(&mut domains, board, i)?;
    }
    Ok(domains)
}

// Adds the board's domain at index `place`, after the domains before it.
fn add_domain(domains: &mut Hierarchy, board: &Board, place: usize) -> Result<(), NoMemory>
    requires within { place < length board.now.domains }
    requires before { domains.old.domains ≡ take place (defs_of board.now.domains) }
    ensures domains { OnOk result (domains.new.domains
        ≡ take (place + 1) (defs_of board.now.domains)) }
    ensures paths { OnOk result (domains.new.paths ≡ domains.old.paths) }
{
    board.is_board();
    let Some(row) = board.domain(place) else {
        return Err(NoMemory);
    };
    domains.add_domain(row.def)?;
    Ok(())
}

// Lays the board's line at index `place`, after the lines before it.
fn lay_line(
    domains: &mut Hierarchy,
    layout: &mut Layout,
    board: &Board,
    place: usize,
) -> Result<(), NoMemory>
    requires within { place < length board.now.lines }
    requires before { IsLaid board.now place domains.old layout.old }
    ensures { OnOk result (IsLaid board.now (place + 1) domains.new layout.new) }
{
    board.is_board();
    let Some(row) = board.line(place) else {
        return Err(NoMemory);
    };
    let placement = place_line(domains, layout, row)?;
    layout.push(placement)?;
    Ok(())
}

// Where the line lies, after the lines laid before it.
fn place_line(
    domains: &mut Hierarchy,
    earlier: &Layout,
    row: LineRow,
) -> Result<Placement, NoMemory>
    requires there { row.domain < length domains.old.domains }
    requires few { length earlier.now ≤ 64 }
    requires laid { domains.old.paths ≡ paths_of earlier.now }
    requires falls { AllFall earlier.now }
    ensures placement { IfOk result (λ p. p ≡ placement_of domains.old.domains earlier.now
        (leaf_of row)) }
    ensures paths { IfOk result (λ p. domains.new.paths ≡ paths_of (earlier.now ++ p ∷ [])) }
    ensures domains { domains.new.domains ≡ domains.old.domains }
{
    match domains.alloc(row.domain, row.hw) {
        AllocAnswer::Ok(virq) => {
            let path = domains.path(virq).unwrap();
            Ok(Placement::Mapped { virq, path })
        }
        AllocAnswer::Taken => Ok(Placement::Refused(Unmapped::Taken)),
        AllocAnswer::OutOfRange => Ok(Placement::Refused(Unmapped::OutOfRange)),
        AllocAnswer::NoMask => Ok(Placement::Refused(Unmapped::NoMask)),
        AllocAnswer::NoMemory => Err(NoMemory),
    }
}
