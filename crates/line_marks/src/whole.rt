//! The whole state of a line follows its history; and what holds of the state at every moment.
ghost use Rattle.std.specs.Prelude.{◌≡◌, ◌≤◌, ◌&&◌, List, [], ◌∷◌, length};
ghost use Rattle.irq_base.specs.Cell.{Cell, signals as presents};
ghost use Rattle.irq_base.specs.declared.entries.Entry.{Entry};
ghost use Rattle.irq_base.specs.declared.lines.LineDef.{LineDef};
ghost use Rattle.irq_model.specs.Asks.{is_high};
ghost use Rattle.irq_model.specs.Legal.{IsLegalPast};
ghost use Rattle.irq_model.specs.Lines.{is_level_line};
ghost use Rattle.irq_model.specs.Signal.{signals};
ghost use Rattle.irq_model.specs.Spurious.{counts_of};
ghost use Rattle.irq_model.specs.Valid.{IsValid};
ghost use Rattle.irq_laws.specs.Driven.{cell_after, cell_of, driven};
ghost use Rattle.ask_counts.specs.Facts.{all_facts};
ghost use Rattle.line_marks.specs.Asks.{asks_of, asks_after};
ghost use Rattle.line_marks.specs.Below.{IsBelow};
ghost use Rattle.line_marks.specs.Bounded.{IsFew, HasSpace};
ghost use Rattle.line_marks.specs.Desc.{desc_of};
ghost use Rattle.line_marks.specs.Expected.{IsOpen};
ghost use Rattle.line_marks.specs.State.{IsOf, first_state, state_of, state_after, high_in};
ghost use Rattle.line_marks.specs.State.{driven_by};

/// The state after one more entry is what the entry makes of the state before it.
#[tactic(auto, using(crate::proofs::StateFollows::state_follows))]
pub fn state_follows()
    ensures law { (def : LineDef) (e : Entry) (past : List Entry) → IsValid def
        → IsLegalPast def (e ∷ past)
        → state_of def (e ∷ past) ≡ state_after def e (state_of def past) }
{}

/// The state begins as the state of a line to which nothing was done.
#[tactic(auto, using(crate::proofs::StateFollows::state_first))]
pub fn state_begins()
    ensures law { (def : LineDef) → state_of def [] ≡ first_state def }
{}

/// What an entry does to the cell follows from the descriptor before it and the asks after it.
#[tactic(auto, using(crate::proofs::CellFollows::cell_more))]
pub fn cell_follows()
    ensures law { (def : LineDef) (e : Entry) (past : List Entry) (c : Cell) → IsValid def
        → driven def e past c
        ≡ driven_by def e (desc_of def past)
        (high_in (asks_after (all_facts def) e (asks_of def past))) c }
{}

/// The cell's marks are as they are read off the entries, and the cell presents what the line
/// signals.
#[tactic(auto, using(crate::proofs::CellFollows::cell_is, crate::proofs::CellFollows::presents_is))]
pub fn cell_is_told()
    ensures marks { (def : LineDef) (past : List Entry) → IsValid def → IsLegalPast def past
        → cell_after def past ≡ cell_of def past }
    ensures signal { (def : LineDef) (past : List Entry) → IsValid def → IsLegalPast def past
        → presents (cell_after def past) ≡ signals def past }
{}

/// The cell has the trigger of the definition, and can be retriggered exactly if the definition
/// says so.
#[tactic(auto, using(crate::proofs::CellFollows::is_of))]
pub fn cell_keeps_kind()
    ensures law { (def : LineDef) (past : List Entry) → IsValid def → IsLegalPast def past
        → IsOf def (state_of def past) }
{}

/// On the fast-EOI flow the cell of an enabled edge line is open.
#[tactic(auto, using(crate::proofs::CellFollows::is_open))]
pub fn cell_is_open()
    ensures law { (def : LineDef) (past : List Entry) → IsValid def → IsLegalPast def past
        → IsOpen def (state_of def past) }
{}

/// The level of a level line is high exactly while some device that isn't quiet has an unserved
/// ask.
#[tactic(auto, using(crate::proofs::CellFollows::high_is))]
pub fn levels_are_told()
    ensures law { (def : LineDef) (past : List Entry)
        → is_high def past ≡ (is_level_line def && high_in (asks_of def past)) }
{}

/// No count is above the number of entries, so each has room for one more within the limit of the
/// log.
#[tactic(auto, using(crate::proofs::Bounds::state_few, crate::proofs::Bounds::has_space))]
pub fn counts_have_room()
    ensures few { (def : LineDef) (past : List Entry) → IsFew (length past) (state_of def past) }
    ensures room { (def : LineDef) (past : List Entry) → IsValid def → length past ≤ def.log
        → HasSpace (state_of def past) }
{}

/// The counts of the rule on spurious interrupts stay below the window.
#[tactic(auto, using(crate::proofs::Bounds::counts_below))]
pub fn counts_stay_below()
    ensures law { (def : LineDef) (past : List Entry) → IsValid def
        → IsBelow def.window (counts_of def past) }
{}
