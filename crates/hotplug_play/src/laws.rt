//! What holds of a board's lines as processors go offline and come online, over the definitions
//! alone: where they are at each moment, and that their interrupts go there. Each law is the clause
//! of a function with an empty body.

ghost use Rattle.std.specs.Prelude.{◌≡◌, ℕ, Some, List, slice_get};
ghost use Rattle.irq_base.specs.declared.entries.Entry.{Entry};
ghost use Rattle.irq_model.specs.Legal.{IsLegal};
ghost use Rattle.irq_model.specs.Settled.{IsSettled};
ghost use Rattle.board_def.specs.LineOf.{line_of_row};
ghost use Rattle.board_def.specs.Rules.{IsBoard};
ghost use Rattle.board_def.specs.Seen.{BoardSeen};
ghost use Rattle.board_def.specs.declared.rows.LineRow.{LineRow};
ghost use Rattle.irq_hotplug.specs.Berths.{place_of};
ghost use Rattle.irq_hotplug.specs.Fleet.{fleet_after};
ghost use Rattle.irq_hotplug.specs.declared.berths.Place.{Place};
ghost use Rattle.irq_hotplug.specs.declared.events.Event.{Event};
ghost use Rattle.hotplug_plan.specs.Planned.{IsForHotplug, planned};
ghost use Rattle.hotplug_play.specs.Aims.{AimsAt};
ghost use Rattle.hotplug_play.specs.Moments.{KeepPlaces};

/// At each moment no two lines have the same vector, each that has one has one of an online
/// processor, and each placing is said with the number of its line's queues and the queue that its
/// processor serves.
pub fn keep_places()
    ensures law { (b : BoardSeen) (vectors : ℕ) (es : List Event) → KeepPlaces b vectors es }
{}

/// Where a line is placed at last, there its interrupts go: of every legal and settled history of
/// the planned board's line the final target is the place's processor, and after the last entry of
/// driver 65535 every take is by it.
pub fn moves_aim()
    ensures law { (b : BoardSeen) (vectors : ℕ) (es : List Event) (i : ℕ) (row : LineRow)
        (place : Place) (h : List Entry) → IsBoard b → IsForHotplug b
        → slice_get b.lines i ≡ Some row
        → place_of (fleet_after b vectors es).berths row.line ≡ Some place
        → IsLegal (line_of_row (planned b (fleet_after b vectors es)) row) h
        → IsSettled (line_of_row (planned b (fleet_after b vectors es)) row) h
        → AimsAt place.cpu (line_of_row (planned b (fleet_after b vectors es)) row) h }
{}
