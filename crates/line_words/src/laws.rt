//! What the numbers of a history are.
ghost use Rattle.std.specs.Prelude.{◌≡◌, List};
ghost use Rattle.irq_base.specs.declared.entries.Entry.{Entry};
ghost use Rattle.irq_base.specs.declared.lines.LineDef.{LineDef};
ghost use Rattle.irq_base.specs.declared.numbers.DriverNo.{DriverNo};
ghost use Rattle.irq_model.specs.Legal.{IsLegalPast};
ghost use Rattle.irq_model.specs.Valid.{IsValid};
ghost use Rattle.line_futures.specs.Canon.{canon};
ghost use Rattle.line_marks.specs.Scripts.{IsAt};
ghost use Rattle.line_marks.specs.State.{state_of};
ghost use Rattle.line_scripts.specs.Rows.{RowSeen, place_of, within_of};
ghost use Rattle.line_words.specs.Node.{node, drivers_in};
ghost use Rattle.line_words.specs.Scripts.{AreScripts};
ghost use Rattle.line_words.specs.Told.{places_told, state_told};
ghost use Rattle.line_words.specs.Words.{has_more};

/// The numbers that are written of the canonical state after a legal history, with the drivers at
/// their places, are the history's.
#[tactic(auto, using(crate::proofs::Past::told_is))]
pub fn told_is_node()
    ensures law { (def : LineDef) (past : List Entry) (scripts : List (DriverNo × RowSeen))
        → IsValid def → IsLegalPast def past → AreScripts def scripts
        → ((r : DriverNo) → IsAt def past r (place_of scripts r) (within_of scripts r))
        → state_told (has_more def) def (canon (state_of def past)) (places_told scripts (drivers_in def.calls))
        ≡ node def past }
{}
