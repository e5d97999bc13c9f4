//! How long a legal history of an interrupt line can be: counts that every entry keeps, and a bound
//! that is read off the line's definition. Each is the clause of a function with an empty body, so
//! that crates above can call it or cite its lemma.
#![tactic(auto)]

ghost use Rattle.std.specs.Prelude.{◌≡◌, ◌≤◌, true, false, None, List, length, reverse};
ghost use Rattle.std.specs.List.{list_any};
ghost use Rattle.irq_base.specs.declared.lines.LineDef.{LineDef};
ghost use Rattle.irq_base.specs.declared.entries.Actor.{Actor};
ghost use Rattle.irq_base.specs.declared.entries.Entry.{Entry};
ghost use Rattle.irq_model.specs.Bounds.{bound};
ghost use Rattle.irq_model.specs.Legal.{IsLegal};
ghost use Rattle.irq_model.specs.Lines.{is_edge_line};
ghost use Rattle.irq_model.specs.Next.{next};
ghost use Rattle.irq_model.specs.RunLaws.{is_enabling};
ghost use Rattle.irq_model.specs.RunBounds.{run_edge_bound, run_level_bound, EnablesOnlyItsOwn};
ghost use Rattle.irq_model.specs.RunBounds.{RoundsAreCountedPast};
ghost use Rattle.irq_model.specs.Valid.{IsValid};
ghost use Rattle.irq_model.specs.ValidRuns.{HasValidRuns};
ghost use Rattle.irq_storms.specs.Storms.{RunsAreCounted, CallsAreCounted, AsksAreCounted};
ghost use Rattle.irq_storms.specs.Storms.{HandledAreCounted, RenewalsAreCounted};
ghost use Rattle.irq_storms.specs.Storms.{EdgeIsCounted, LevelIsCounted};
ghost use Rattle.irq_storms.specs.Lengths.{history_bound, IsBounded, HasPlainRuns};

/// Runs are counted: a round calls each device's handler once at most, and has one end at most; a
/// thread runs no more often than it was woken.
pub fn runs_are_counted()
    ensures law { (def : LineDef) (h : List Entry) → IsValid def → IsLegal def h
        → RunsAreCounted def h }
{}

/// Drivers' calls are counted: an ask makes one entry, any other call at most three; at most one of
/// these starts the line, links a device or hands in a moment.
pub fn calls_are_counted()
    ensures law { (def : LineDef) (h : List Entry) → IsLegal def h → CallsAreCounted def h }
{}

/// Asks are counted: each ask of a device is either served or unserved, and each run or call that
/// served something has an ask of its own.
pub fn asks_are_counted()
    ensures law { (def : LineDef) (h : List Entry) → IsValid def → IsLegal def h
        → AsksAreCounted def h }
{}

/// The rounds of an edge line are counted: with the places where an interrupt waits for one, they
/// are at most the edges that devices made.
#[tactic(auto, using(crate::proofs::RoundCounts::rounds_are_counted))]
pub fn rounds_are_counted()
    ensures law { (def : LineDef) (h : List Entry) → IsLegal def h
        → RoundsAreCountedPast def (reverse h) }
{}

/// An edge line is counted: each round has an edge of its own that a device made, and there are no
/// more takes than such edges, starts and ends that go on.
#[tactic(auto, using(crate::proofs::EdgeCounts::edge_is_counted))]
pub fn edge_is_counted()
    ensures law { (def : LineDef) (h : List Entry) → IsLegal def h → EdgeIsCounted def h }
{}

/// A legal history of an edge line has at most as many entries as its bound says, whatever runs
/// call and devices are told.
pub fn within_edge_bound()
    ensures law { (def : LineDef) (h : List Entry) → IsValid def → HasValidRuns def
        → IsLegal def h → is_edge_line def ≡ true → length h ≤ run_edge_bound def }
{}

/// Runs that answer Handled are counted: each of them met an ask of its own, or was told so.
pub fn handled_are_counted()
    ensures law { (def : LineDef) (h : List Entry) → IsLegal def h → HandledAreCounted def h }
{}

/// Renewals are counted, if a run enables the line only as `EnablesOnlyItsOwn` says: runs start a
/// killed line no more often than drivers make calls that aren't asks.
pub fn renewals_are_counted()
    ensures law { (def : LineDef) (h : List Entry) → IsValid def → HasValidRuns def
        → EnablesOnlyItsOwn def → IsLegal def h → RenewalsAreCounted def h }
{}

/// A level line is counted: its ends by the rule on spurious interrupts, and the takes that call no
/// handler by the starts.
pub fn level_is_counted()
    ensures law { (def : LineDef) (h : List Entry) → IsValid def → IsLegal def h
        → LevelIsCounted def h }
{}

/// A legal history of every line, also of an edge line, has at most as many entries as the bound by
/// the window says, if no run opens it again that was killed.
pub fn within_level_bound()
    ensures law { (def : LineDef) (h : List Entry) → IsValid def → HasValidRuns def
        → EnablesOnlyItsOwn def → IsLegal def h → length h ≤ run_level_bound def }
{}

/// Storms are bounded: a legal history has at most as many entries as the bound of its line says.
pub fn within_bound()
    ensures law { (def : LineDef) (h : List Entry) → IsValid def → HasValidRuns def → IsBounded def
        → IsLegal def h → length h ≤ history_bound def }
{}

/// If the log limit is at least the bound, a history of the limit's length has no further entry
/// due.
pub fn never_full()
    ensures law { (def : LineDef) (h : List Entry) (a : Actor) → IsValid def → HasValidRuns def
        → IsBounded def → IsLegal def h → history_bound def ≤ def.log → length h ≡ def.log
        → next def h a ≡ None }
{}

/// Where no run makes a call and no device is told what to answer, each line has a bound, and it is
/// the number that asks, other calls, devices and the window make.
#[tactic(auto, using(crate::proofs::PlainBounds::plain_bound, crate::proofs::PlainBounds::plain_is_bounded))]
pub fn plain_bound()
    ensures bounded { (def : LineDef) → HasPlainRuns def → IsBounded def }
    ensures number { (def : LineDef) → HasPlainRuns def → history_bound def ≡ bound def }
{}

/// If no run enables the line, no run opens it again that was killed.
#[tactic(auto, using(crate::proofs::PlainBounds::never_enabling))]
pub fn never_enabling()
    ensures law { (def : LineDef) → list_any (λ c. is_enabling c.2) def.runs ≡ false
        → EnablesOnlyItsOwn def }
{}
