//! The lines of a board that take part.
ghost use Rattle.std.specs.Prelude.{◌≡◌, ◌≤◌, IfOk, All, length};
ghost use Rattle.irq_model.specs.Valid.{IsValid};
ghost use Rattle.board_def.specs.Layout.{layout_of};
ghost use Rattle.irq_hotplug.specs.Fleet.{berth_if, berth_of, berths_of};
ghost use Rattle.irq_hotplug.specs.Kept.{IsBare};

use crate::berths::Berth;
use crate::rooms::RoomList;
use affinity::Aim;
use board_def::{Board, Layout, Placement};
use irq_base::{LineDef, NoMemory};
use std::alloc::Global;

/// A line before it is placed.
fn berth_of(def: &LineDef) -> Berth
    requires { IsValid def.now }
    ensures { result ≡ berth_of def.now }
{
    let aim = Aim::new(def.cpus, def.mask, false);
    let devices = def.devices.len() as u32;
    Berth {
        line: def.line,
        mask: def.mask,
        queues: devices.max(1),
        target: Some(aim.target()),
        place: None,
    }
}

/// The line before it is placed; none if the layout refused it.
fn berth_if(def: &LineDef, placement: Option<Placement>) -> Option<Berth>
    requires { IsValid def.now }
    ensures { result ≡ berth_if def.now placement }
{
    match placement {
        Some(Placement::Mapped { .. }) => Some(berth_of(def)),
        _ => None,
    }
}

/// The board's lines that take part, in its order, before they are placed. The only error is
/// `NoMemory`.
pub fn berths_of(alloc: Global, board: &Board, layout: &Layout) -> Result<RoomList<Berth>, NoMemory>
    requires { layout.now ≡ layout_of board.now }
    ensures berths { IfOk result (λ l. l.items ≡ berths_of board.now) }
    ensures bare { IfOk result (λ l. All IsBare l.items) }
    ensures few { IfOk result (λ l. length l.items ≤ 64) }
{
    board.is_board();
    let defs = board.line_defs(alloc)?;
    let mut berths = RoomList::with_room(alloc, defs.len())?;
    for i in 0..defs.len() {
        if let Some(berth) = berth_if(&defs[i], layout.get(i)) {
            berths.push(berth)?;
        }
    }
    Ok(berths)
}
