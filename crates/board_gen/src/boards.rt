//! The board that a number generates.
ghost use Rattle.std.specs.Prelude.{◌≡◌, ◌<◌, [], ◌∷◌, ◌++◌, length, true, false, IfOk, OnOk};
ghost use Rattle.board_def.specs.Names.{is_name, name_of};
ghost use Rattle.board_def.specs.Rules.{has_name};
ghost use Rattle.board_gen.specs.Generated.{bare_machine, generated, root_domain};
ghost use Rattle.domain_rules.specs.Levels.{is_root_kind};

use crate::draws::Draws;
use crate::lines::add_line;
use board_def::{Board, DomainRow, Name};
use irq_base::{ControllerKind, DomainDef, MapKind, NoMemory};
use std::alloc::Global;

/// The board that the number generates, with the log limit 65,536 and no picks.
pub fn generate(alloc: Global, n: u32) -> Result<Board, NoMemory>
    ensures { IfOk result (λ b. b ≡ generated n) }
{
    let mut draws = Draws { x: n };
    let lines = 4 + draws.draw(13);
    let mut board = machine(alloc)?;
    let mut first = 1;
    for i in 0..lines {
        first += add_line(&mut board, &mut draws, i + 1, first)?;
    }
    Ok(board)
}

// Two processors and four domains: a latch, a plain, a level and a fast-EOI root.
fn machine(alloc: Global) -> Result<Board, NoMemory>
    ensures { IfOk result (λ b. b ≡ bare_machine) }
{
    let mut board = Board::new(alloc, 2, 100_000, 99_900, 65_536);
    add_root(&mut board, b"latch", ControllerKind::Latch)?;
    add_root(&mut board, b"plain", ControllerKind::Plain)?;
    add_root(&mut board, b"level", ControllerKind::Level)?;
    add_root(&mut board, b"eoi", ControllerKind::Eoi)?;
    Ok(board)
}

// Adds a root domain of sixteen lines.
fn add_root(board: &mut Board, name: &[u8], kind: ControllerKind) -> Result<(), NoMemory>
    requires few { length board.old.domains < 32 }
    requires spelled { is_name name.now ≡ true }
    requires new { has_name board.old.domains (name_of name.now) ≡ false }
    requires root { is_root_kind kind ≡ true }
    ensures { OnOk result
        (board.new
        ≡ record board.old { domains = board.old.domains ++ root_domain name.now kind ∷ [] }) }
{
    board.is_board();
    board.add_domain(DomainRow {
        name: Name::new(name),
        def: DomainDef {
            map: MapKind::Linear(16),
            kind,
            parent: None,
        },
    })
}
