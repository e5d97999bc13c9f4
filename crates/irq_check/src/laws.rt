//! What holds of judgements, whoever makes them.
ghost use Rattle.std.specs.Prelude.{◌≡◌, ℕ, Bool, List, Err};
ghost use Rattle.board_def.specs.Seen.{BoardSeen};
ghost use Rattle.board_words.specs.declared.faults.BoardFault.{BoardFault};
ghost use Rattle.irq_check.specs.Checked.{IsChecked, checked};
ghost use Rattle.irq_check.specs.declared.answers.Judgement.{Judgement};
ghost use Rattle.log_check.specs.Verdicts.{ChecksLog};
ghost use Rattle.log_check.specs.declared.verdict.Verdict.{Verdict};

/// Judgements exclude one another: at most one is right of the text of a log, with its place. The
/// same holds of an input, and no judgement is right of an input that has a fault.
pub fn answer_is_one()
    ensures of_log { (board : BoardSeen) (log : List ℕ) (one other : Verdict)
        → ChecksLog board log one → ChecksLog board log other → one ≡ other }
    ensures of_input { (why also : Bool) (input : List ℕ) (one other : Judgement)
        → IsChecked why input one → IsChecked also input other → one.verdict ≡ other.verdict }
    ensures no_fault { (why : Bool) (input : List ℕ) (answer : Judgement) (fault : BoardFault)
        → IsChecked why input answer → checked input ≡ Err fault → ⊥ }
{}
