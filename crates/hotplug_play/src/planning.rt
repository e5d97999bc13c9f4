//! The lines of a board with the events behind them, and the board with their moves.
ghost use Rattle.std.specs.Prelude.{◌≡◌, ◌≤◌, ◌⊎◌, [], IfOk, OnErr, length};
ghost use Rattle.notifiers.specs.Told.{Told};
ghost use Rattle.hotplug_plan.specs.Planned.{IsForHotplug};
ghost use Rattle.irq_hotplug.specs.Fleet.{fleet_after};
ghost use Rattle.irq_hotplug.specs.Notices.{notices_of};
ghost use Rattle.hotplug_play.specs.Played.{IsPlanOf, TellsUpTo};

use board_def::Board;
use board_layout::lay;
use hotplug_plan::planned;
use irq_base::NoMemory;
use irq_hotplug::{Event, Fleet, take_events};
use notifiers::Notifier;
use std::alloc::Global;

/// Lines with the events behind them, and the board that moves them.
#[derive(Drop)]
pub(crate) struct Plan {
    pub(crate) fleet: Fleet,
    pub(crate) board: Board,
}

/// Places the lines of the board, takes the events, each placing being told to the notifier, and
/// makes the board with the moves. The only error is `NoMemory`.
pub(crate) fn make_plan<N: Notifier>(
    alloc: Global,
    board: Board,
    vectors: u32,
    events: &[Event],
    notify: &mut N,
) -> Result<Plan, NoMemory>
    requires fits { IsForHotplug board }
    requires vectors { (1 ≤ vectors) × (vectors ≤ 64) }
    requires events { length events.now ≤ 64 }
    ensures plan { IfOk result (λ plan. IsPlanOf board vectors events.now plan.fleet plan.board) }
    ensures told { IfOk result (λ plan.
        Told N.tells (notices_of plan.fleet.said) notify.old notify.new) }
    ensures some { OnErr result (TellsUpTo (λ placings. Told N.tells placings notify.old notify.new)
        board vectors events.now ⊎ Told N.tells [] notify.old notify.new) }
{
    board.is_board();
    let fleet = placed(alloc, &board, vectors, events, notify)?;
    let board = planned(alloc, &fleet, board)?;
    Ok(Plan { fleet, board })
}

/// Places the lines of the board, and takes the events; each placing is told to the notifier. The
/// only error is `NoMemory`.
fn placed<N: Notifier>(
    alloc: Global,
    board: &Board,
    vectors: u32,
    events: &[Event],
    notify: &mut N,
) -> Result<Fleet, NoMemory>
    requires { (1 ≤ vectors) × (vectors ≤ 64) }
    ensures fleet { IfOk result (λ fleet. fleet ≡ fleet_after board.now vectors events.now) }
    ensures told { IfOk result (λ fleet.
        Told N.tells (notices_of fleet.said) notify.old notify.new) }
    ensures some { OnErr result (TellsUpTo (λ placings. Told N.tells placings notify.old notify.new)
        board.now vectors events.now ⊎ Told N.tells [] notify.old notify.new) }
{
    let (_domains, layout) = lay(alloc, board)?;
    let mut fleet = Fleet::new(alloc, board, &layout, vectors, notify)?;
    take_events(alloc, &mut fleet, events, notify)?;
    Ok(fleet)
}
