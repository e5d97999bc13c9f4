//! A play of a board by any stated order, over the definitions alone: what comes next follows from
//! what has happened and from where the order stands. `Plays` is the play by one such order; other
//! scenarios state orders of their own. Each law is the clause of a function with an empty body, so
//! that crates above can call it or cite its lemma.

ghost use Rattle.std.specs.Prelude.{◌≡◌, ◌↔◌, List};
ghost use Rattle.irq_base.specs.declared.entries.Actor.{Actor};
ghost use Rattle.board_def.specs.Seen.{BoardSeen};
ghost use Rattle.board_play.specs.Lines.{Move};
ghost use Rattle.board_play.specs.Play.{End, Plays};
ghost use Rattle.board_play.specs.Orders.{Order, IsPlayed, picks_then_lowest};

/// A stated order has at most one play from where it begins: one list of steps, and one end.
/// `S`: where the order stands, as a phase or the picks that are left; `E`: a step.
pub fn ordered_play_is_one<S, E>()
    ensures law { (o : Order S E) (first : S) (g h : List E) (a b : End) → IsPlayed o first g a
        → IsPlayed o first h b → (g ≡ h) × (a ≡ b) }
{}

/// The play of a board is the one by this order: each pick that can move, and then always the
/// lowest actor that can.
pub fn boards_play_is_ordered()
    ensures law { (board : BoardSeen) (picks : List Actor) (g : List Move) (end : End)
        → Plays board picks g end ↔ IsPlayed (picks_then_lowest board) picks g end }
{}
