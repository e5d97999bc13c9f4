//! The play of a board of many lines by the stated order, and its laws, over the definitions alone:
//! who moves next and where, what a play is, and what is promised of every play. Each law is the
//! clause of a function with an empty body, so that crates above can call it or cite its lemma.
//!
//! The stated order is one of many: what a play by any of them is stands in `orders.rt`.
#![tactic(auto)]

pub mod orders;

ghost use Rattle.std.specs.Prelude.{◌≡◌, ℕ, true, None, Some, All, List, [], reverse, slice_get};
ghost use Rattle.irq_base.specs.declared.entries.Actor.{Actor};
ghost use Rattle.irq_base.specs.declared.entries.Actor.TheVariants as actors;
ghost use Rattle.irq_base.specs.declared.entries.Entry.{Entry};
ghost use Rattle.irq_base.specs.declared.numbers.DriverNo.{DriverNo};
ghost use Rattle.irq_base.specs.declared.numbers.LineNo.{LineNo};
ghost use Rattle.irq_model.specs.Legal.{IsLegalPast};
ghost use Rattle.irq_model.specs.Owed.{IsDelivered};
ghost use Rattle.irq_model.specs.Settled.{IsSettled};
ghost use Rattle.irq_model.specs.Next.{next_past};
ghost use Rattle.irq_model.specs.ValidRuns.{NeverWaits};
ghost use Rattle.irq_model.specs.Waits.{IsAtRest, IsCaughtPast, is_unfinished_actor};
ghost use Rattle.board_def.specs.Rules.{IsBoard};
ghost use Rattle.board_def.specs.Seen.{BoardSeen};
ghost use Rattle.board_play.specs.Current.{current_line};
ghost use Rattle.board_play.specs.Hanging.{IsUntouched, MayBeDue, NobodyHangs, NobodyMoves};
ghost use Rattle.board_play.specs.Kept.{AreKept};
ghost use Rattle.board_play.specs.Lines.{BoardLine, Move, defs_of, find_line, lines_after};
ghost use Rattle.board_play.specs.Lines.{lines_of, part};
ghost use Rattle.board_play.specs.Order.{due_move};
ghost use Rattle.board_play.specs.Play.{End, Done, Plays};

/// The board and the picks determine the play: at most one list of moves, with one end, is their
/// play.
pub fn play_is_one()
    ensures law { (board : BoardSeen) (picks : List Actor) (g h : List Move) (a b : End)
        → Plays board picks g a → Plays board picks h b → (g ≡ h) × (a ≡ b) }
{}

/// Each line's part of a play is legal, and every move is of a line that takes part.
pub fn parts_are_legal()
    ensures law { (board : BoardSeen) (picks : List Actor) (g : List Move) (end : End)
        → IsBoard board → Plays board picks g end → (i : ℕ) (x : BoardLine)
        → slice_get (lines_of board g) i ≡ Some x → IsLegalPast x.def x.past }
    ensures others { (board : BoardSeen) (picks : List Actor) (g : List Move) (end : End)
        → Plays board picks g end → (line : LineNo) → find_line (lines_of board g) line ≡ None
        → part line g ≡ [] }
{}

/// Each history is legal, the drivers' calls are made in the order of their scripts, over all
/// lines, and no processor has two flows: every move of an actor keeps this, so it holds of every
/// play.
pub fn play_keeps()
    ensures step { (board : BoardSeen) (lines : List BoardLine) (a : Actor) (m : Move)
        → IsBoard board → AreKept board lines → due_move board lines a ≡ Some m
        → AreKept board (lines_after m lines) }
    ensures law { (board : BoardSeen) (picks : List Actor) (g : List Move) (end : End)
        → IsBoard board → Plays board picks g end → AreKept board (lines_of board g) }
{}

/// No standstill: if none of the board's actors can move, and none is hung on any line, every
/// script is at its end, and each line is settled; more than that, it is at rest: no flow is in
/// progress, and no thread is to run or in a run.
pub fn no_standstill()
    ensures complete { (board : BoardSeen) (lines : List BoardLine) → IsBoard board
        → AreKept board lines → NobodyMoves board lines → NobodyHangs lines → (r : DriverNo)
        → current_line board.calls lines r ≡ None }
    ensures settled { (board : BoardSeen) (lines : List BoardLine) → IsBoard board
        → AreKept board lines → NobodyMoves board lines → NobodyHangs lines → (i : ℕ)
        (x : BoardLine) → slice_get lines i ≡ Some x → IsSettled x.def (reverse x.past) }
    ensures at_rest { (board : BoardSeen) (lines : List BoardLine) → IsBoard board
        → AreKept board lines → NobodyMoves board lines → NobodyHangs lines → (i : ℕ)
        (x : BoardLine) → slice_get lines i ≡ Some x → IsAtRest x.def (reverse x.past) }
{}

/// If none of the board's actors can move, whoever isn't done on a line and has no entry due there
/// is hung or held up, and so is each driver whose script isn't at its end, on the line of its
/// current call. What is still due are takes of processors that spin on another line, and calls of
/// drivers that hang, or are held up, on another. A line that none of these has to do with is at
/// rest.
pub fn hung_hold_up()
    ensures waits { (board : BoardSeen) (lines : List BoardLine) → IsBoard board
        → AreKept board lines → NobodyMoves board lines → (i : ℕ) (x : BoardLine) (a : Actor)
        → slice_get lines i ≡ Some x → is_unfinished_actor x.def x.past a ≡ true
        → next_past x.def x.past a ≡ None → IsCaughtPast x.def x.past a }
    ensures scripts { (board : BoardSeen) (lines : List BoardLine) → IsBoard board
        → AreKept board lines → NobodyMoves board lines → (r : DriverNo) (x : BoardLine)
        → current_line board.calls lines r ≡ Some x
        → IsCaughtPast x.def x.past (actors.Driver r) }
    ensures due { (board : BoardSeen) (lines : List BoardLine) → IsBoard board
        → AreKept board lines → NobodyMoves board lines → (i : ℕ) (x : BoardLine) (a : Actor)
        (e : Entry) → slice_get lines i ≡ Some x → next_past x.def x.past a ≡ Some e
        → MayBeDue lines x a e }
    ensures at_rest { (board : BoardSeen) (lines : List BoardLine) → IsBoard board
        → AreKept board lines → NobodyMoves board lines → (i : ℕ) (x : BoardLine)
        → slice_get lines i ≡ Some x → IsUntouched lines x → IsAtRest x.def (reverse x.past) }
{}

/// If a play is done and nobody hangs, every script is at its end and each line is settled and at
/// rest, and so all is delivered.
pub fn done_is_settled()
    ensures complete { (board : BoardSeen) (picks : List Actor) (g : List Move) → IsBoard board
        → Plays board picks g Done → NobodyHangs (lines_of board g) → (r : DriverNo)
        → current_line board.calls (lines_of board g) r ≡ None }
    ensures settled { (board : BoardSeen) (picks : List Actor) (g : List Move) → IsBoard board
        → Plays board picks g Done → NobodyHangs (lines_of board g) → (i : ℕ) (x : BoardLine)
        → slice_get (lines_of board g) i ≡ Some x → IsSettled x.def (reverse x.past) }
    ensures at_rest { (board : BoardSeen) (picks : List Actor) (g : List Move) → IsBoard board
        → Plays board picks g Done → NobodyHangs (lines_of board g) → (i : ℕ) (x : BoardLine)
        → slice_get (lines_of board g) i ≡ Some x → IsAtRest x.def (reverse x.past) }
    ensures delivered { (board : BoardSeen) (picks : List Actor) (g : List Move) → IsBoard board
        → Plays board picks g Done → NobodyHangs (lines_of board g) → (i : ℕ) (x : BoardLine)
        → slice_get (lines_of board g) i ≡ Some x → IsDelivered x.def (reverse x.past) }
{}

/// Where no run of the board waits nobody hangs: a play that is done ends as it did before runs
/// could wait.
pub fn unwaiting_boards_settle()
    ensures law { (board : BoardSeen) (lines : List BoardLine) → IsBoard board
        → AreKept board lines → All NeverWaits (defs_of board) → NobodyHangs lines }
{}

pub use orders::{boards_play_is_ordered, ordered_play_is_one};
