//! How many moves there can be.
ghost use Rattle.std.specs.Prelude.{ℕ, ◌+◌, ◌*◌, ◌≤◌, List, length, count_by};
ghost use Rattle.board_def.specs.Seen.{BoardSeen};
ghost use Rattle.irq_hotplug.specs.Fleet.{berths_of, fleet_after};
ghost use Rattle.irq_hotplug.specs.declared.events.Event.{Event};
ghost use Rattle.hotplug_plan.specs.Planned.{is_off, moves_of};

/// Each line that takes part is moved at most once at first, and once at each processor that is to
/// go offline: at most 4,160 moves of 64 lines at 64 events.
#[tactic(auto, using(crate::proofs::Few::few_moves))]
pub fn few_moves()
    ensures law { (b : BoardSeen) (vectors : ℕ) (es : List Event)
        → length (moves_of (fleet_after b vectors es).said)
        ≤ length (berths_of b) * (1 + count_by is_off es) }
{}
