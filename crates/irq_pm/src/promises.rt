//! What holds of every sleep, as sentences over the definitions alone. Each is the clause of a
//! function with an empty body, so that crates above can call it or cite its lemma. `b` is the
//! board without the system's driver; its sleep is a play of `slept b`.
ghost use Rattle.std.specs.Prelude.{◌≡◌, ℕ, true, false, List, None, Some, slice_get};
ghost use Rattle.board_def.specs.Rules.{IsBoard, has_driver};
ghost use Rattle.board_def.specs.Seen.{BoardSeen};
ghost use Rattle.board_driver.specs.Longer.{last_driver};
ghost use Rattle.board_play.specs.Kept.{AreKept};
ghost use Rattle.board_play.specs.Lines.{BoardLine, lines_of};
ghost use Rattle.board_play.specs.Order.{actors_of, due_move};
ghost use Rattle.board_play.specs.Play.{End, Done};
ghost use Rattle.irq_base.specs.declared.entries.Actor.{Actor};
ghost use Rattle.irq_base.specs.declared.numbers.LineNo.{LineNo};
ghost use Rattle.irq_pm.specs.Marked.{HasWoken, SleptOnce};
ghost use Rattle.irq_pm.specs.SleepLog.{moves_of};
ghost use Rattle.irq_pm.specs.Slept.{NamesWaker, Sleeps, SleepsThrough};
ghost use Rattle.irq_pm.specs.SleptBoard.{are_runs_calm, slept};
ghost use Rattle.irq_pm.specs.declared.entries.SleepEntry.{SleepEntry};
ghost use Rattle.play_laws.specs.Actors.{IsOneOf};

/// A board, its picks and the armed lines determine the sleep: at most one list of steps and marks,
/// with one end, is theirs.
pub fn sleep_is_one()
    ensures law { (b : BoardSeen) (armed : List LineNo) (picks : List Actor)
        (g h : List SleepEntry) (x y : End) → Sleeps b armed picks g x → Sleeps b armed picks h y
        → (g ≡ h) × (x ≡ y) }
{}

/// Each line's history is legal, and the drivers' calls are made in the order of their scripts.
pub fn sleep_keeps_lines()
    ensures law { (b : BoardSeen) (armed : List LineNo) (g : List SleepEntry) (end : End)
        → IsBoard b → IsBoard (slept b) → has_driver b.drivers last_driver ≡ false
        → Sleeps (slept b) armed b.picks g end
        → AreKept (slept b) (lines_of (slept b) (moves_of g)) }
{}

/// While a line sleeps no handler is called, no thread begins a run, and it is disabled; a line
/// that was open, and that no end has killed, is open right after its enable. The wake names the
/// line of the first interrupt that wakes.
pub fn sleeps_through()
    ensures lines { (b : BoardSeen) (armed : List LineNo) (g : List SleepEntry) (end : End)
        → IsBoard b → IsBoard (slept b) → has_driver b.drivers last_driver ≡ false
        → are_runs_calm b ≡ true
        → Sleeps (slept b) armed b.picks g end → (i : ℕ) (x : BoardLine)
        → slice_get (lines_of (slept b) (moves_of g)) i ≡ Some x → SleepsThrough x.past }
    ensures wake { (b : BoardSeen) (armed : List LineNo) (picks : List Actor)
        (g : List SleepEntry) (end : End) → Sleeps b armed picks g end → NamesWaker armed g }
{}

/// A sleep that is done has exactly one mark `Asleep`, and after it exactly one mark `Wake`, and
/// stands in its last phase.
pub fn sleep_is_marked()
    ensures marks { (b : BoardSeen) (armed : List LineNo) (g : List SleepEntry) → IsBoard b
        → IsBoard (slept b) → has_driver b.drivers last_driver ≡ false → are_runs_calm b ≡ true
        → Sleeps (slept b) armed b.picks g Done → SleptOnce g }
    ensures phase { (b : BoardSeen) (armed : List LineNo) (g : List SleepEntry) → IsBoard b
        → IsBoard (slept b) → has_driver b.drivers last_driver ≡ false → are_runs_calm b ≡ true
        → (played : Sleeps (slept b) armed b.picks g Done) → HasWoken played.0 }
{}

/// Falling asleep never gets stuck, and nor does any later phase: when a sleep is done no actor of
/// the board can move.
pub fn sleep_comes_to_rest()
    ensures law { (b : BoardSeen) (armed : List LineNo) (g : List SleepEntry) → IsBoard b
        → IsBoard (slept b) → has_driver b.drivers last_driver ≡ false → are_runs_calm b ≡ true
        → Sleeps (slept b) armed b.picks g Done → (a : Actor) → IsOneOf a (actors_of (slept b))
        → due_move (slept b) (lines_of (slept b) (moves_of g)) a ≡ None }
{}
