//! Histories whose unlinks say rightly whether they were the last.
ghost use Rattle.std.specs.Prelude.{List};
ghost use Rattle.irq_base.specs.declared.entries.Entry.{Entry};
ghost use Rattle.irq_base.specs.declared.lines.LineDef.{LineDef};
ghost use Rattle.irq_model.specs.Legal.{IsLegal};
ghost use Rattle.log_summary.specs.Lasts.{TellsLasts};

/// Every legal history says so: an unlink says `last` exactly if no device stays linked.
#[tactic(auto, using(crate::proofs::LastLaws::legal_tells))]
pub fn lasts_are_told()
    ensures law { (def : LineDef) (h : List Entry) → IsLegal def h → TellsLasts h }
{}
