//! Plays a board on processors that go offline and come online, and prints it.
ghost use Rattle.std.specs.Prelude.{◌≡◌, ◌≤◌, ℕ, [], List, IfOk, OnErr, OnOk, false, length};
ghost use Rattle.board_def.specs.Seen.{BoardSeen};
ghost use Rattle.callbacks.specs.Heard.{Heard};
ghost use Rattle.irq_io.specs.Faults.{Counts};
ghost use Rattle.irq_play.specs.Played.{TellsStep};
ghost use Rattle.notifiers.specs.Told.{Told};
ghost use Rattle.irq_hotplug.specs.declared.events.Event.{Event};
ghost use Rattle.hotplug_plan.specs.Planned.{IsForHotplug};
ghost use Rattle.hotplug_play.specs.Played.{HotplugsBoard, IsPlanOf, PlaysPlan};
ghost use Rattle.hotplug_play.specs.Played.{planned_after};
ghost use Rattle.play_report.specs.Failing.{is_printing, is_write_fault};

use crate::ended::PlugPlay;
use crate::planning::{Plan, make_plan};
use board_def::Board;
use callbacks::Handler;
use hotplug_plan::fits_hotplug;
use irq_base::NoMemory;
use irq_hotplug::Event;
use irq_io::Sink;
use irq_play::play_system;
use line_makers::MakesDomainLine;
use notifiers::Notifier;
use play_report::{PlayedBoard, report, unplayed};
use std::alloc::Global;

/// The lines of the board can't be placed and moved.
#[derive(Clone, Copy, PartialEq, Eq)]
pub struct NotForHotplug;

/// Gives each processor 1 to 64 vectors, places each line of the board, takes the events in order,
/// and plays the board with the moves that follow by the stated order. The notifier is told of each
/// placing, and handlers are called as they are due. Prints the layout, each placing and each
/// event, and the play. Memory is taken before the first step, and by steps; none is taken once a
/// row is printed. The only error is a board that has a call that moves a line, a line that moves
/// later, 64 drivers, driver 65535, or more than 12,224 calls.
pub fn hotplug_and_print<O: Sink, M: MakesDomainLine, H: Handler, N: Notifier>(
    alloc: Global,
    board: Board,
    vectors: u32,
    events: &[Event],
    maker: &M,
    handlers: &mut H,
    notify: &mut N,
    out: &mut O,
) -> Result<PlayedBoard, NotForHotplug>
    requires vectors { (1 ≤ vectors) × (vectors ≤ 64) }
    requires events { length events.now ≤ 64 }
    ensures fits { OnOk result (IsForHotplug board) }
    ensures refused { OnErr result (IsForHotplug board → ⊥) }
    ensures quiet { OnErr result (out.new ≡ out.old) }
    ensures unheard { OnErr result (Heard H.hears [] handlers.old handlers.new) }
    ensures untold { OnErr result (Told N.tells [] notify.old notify.new) }
    ensures plays { IfOk result (λ p. HotplugsBoard board vectors events.now
        (λ runs. Heard H.hears runs handlers.old handlers.new)
        (λ placings. Told N.tells placings notify.old notify.new) p.reports.reports
        (O.written out.old) (O.written out.new) p.end) }
    ensures step { IfOk result (λ p. TellsStep M.Line.may_want
        (planned_after board vectors events.now) p.reports.reports p.end) }
    ensures emptied { IfOk result (λ p. OnOk p.end (O.kept out.new ≡ [])) }
    ensures write_fault { IfOk result (λ p. Counts (O.faults out.old) (O.faults out.new)
        (is_write_fault p.end)) }
    ensures silent { IfOk result (λ p. is_printing p.end ≡ false → out.new ≡ out.old) }
{
    if !fits_hotplug(&board) {
        return Err(NotForHotplug);
    }
    let Ok(plan) = make_plan(alloc, board, vectors, events, notify) else {
        return Ok(unplayed(alloc));
    };
    Ok(play_plan(alloc, &plan, maker, handlers, out))
}

/// Plays the planned board, and prints it.
fn play_plan<O: Sink, M: MakesDomainLine, H: Handler>(
    alloc: Global,
    plan: &Plan,
    maker: &M,
    handlers: &mut H,
    out: &mut O,
) -> PlayedBoard
    ensures plays { (b : BoardSeen) (vectors : ℕ) (es : List Event)
        → IsPlanOf b vectors es plan.now.fleet plan.now.board
        → PlaysPlan b vectors es (λ runs. Heard H.hears runs handlers.old handlers.new)
        result.reports.reports (O.written out.old) (O.written out.new) result.end }
    ensures step { (b : BoardSeen) (vectors : ℕ) (es : List Event)
        → IsPlanOf b vectors es plan.now.fleet plan.now.board
        → TellsStep M.Line.may_want (planned_after b vectors es) result.reports.reports result.end }
    ensures emptied { OnOk result.end (O.kept out.new ≡ []) }
    ensures write_fault { Counts (O.faults out.old) (O.faults out.new) (is_write_fault result.end) }
    ensures silent { is_printing result.end ≡ false → out.new ≡ out.old }
{
    match play_system(alloc, &plan.board, maker, handlers) {
        Ok((play, room)) => report(&plan.board, PlugPlay { plan, play }, room, out),
        Err(NoMemory) => unplayed(alloc),
    }
}
