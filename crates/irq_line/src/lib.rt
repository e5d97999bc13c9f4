//! What an interrupt line is for the crates above it: the boards that play many lines, the lock
//! round a line, the threads that step it, and the judge of logs. They use a line by the trait
//! `IrqLine` alone, so that any line may stand below them: one that looks everything up in its
//! history, or one that keeps marks.
#![tactic(auto)]

ghost use Rattle.std.specs.Prelude.{◌≡◌, ◌↔◌, ℕ, IsTrue, Some, None, Result, Err, reverse};
ghost use Rattle.irq_base.specs.declared.calls.Call.{Call};
ghost use Rattle.irq_base.specs.declared.entries.Actor.{Actor};
ghost use Rattle.irq_base.specs.declared.entries.Actor.TheVariants as actors;
ghost use Rattle.irq_base.specs.declared.numbers.DriverNo.{DriverNo};
ghost use Rattle.irq_model.specs.Due.{due_call};
ghost use Rattle.irq_model.specs.Next.{next};
ghost use Rattle.irq_laws.specs.Blocks.{block_of};
ghost use Rattle.callbacks.specs.Heard.{Heard};
ghost use Rattle.irq_line.specs.Answers.{Answers};
ghost use Rattle.irq_line.specs.Hearing.{Lacks, runs_by};
ghost use Rattle.irq_line.specs.Queries.{blocks_of, is_blocked};
ghost use Rattle.irq_line.specs.Seen.{LineSeen, IsSound};
ghost use Rattle.irq_line.specs.declared.answers.StepRefused.{StepRefused};
ghost use Rattle.irq_line.specs.declared.answers.StepRefused.TheVariants as refusals;
ghost use Rattle.irq_line.specs.declared.answers.Stepped.{Stepped};

pub mod answers;
pub mod line;
pub mod makes;

pub use answers::{StepRefused, Stepped};
use callbacks::Hears;
pub use irq_base::Blocks;
pub use line::IrqLine;
pub use makes::MakesLine;

/// But for `NoMemory` a step has one answer: the conditions of the others exclude one another.
#[tactic(auto, using(crate::proofs::OneAnswer::one_answer))]
pub fn step_has_one_answer<E: Hears>()
    ensures law { (old : LineSeen) (who : Actor) (ears ears_a ears_b : E)
        (a b : Result (Stepped E.Lack) StepRefused) (new other : LineSeen)
        → Answers old who a new → Heard E.hears (runs_by old a) ears ears_a
        → Lacks E.lacks old who ears a
        → Answers old who b other → Heard E.hears (runs_by old b) ears ears_b
        → Lacks E.lacks old who ears b
        → (a ≡ Err refusals.NoMemory → ⊥) → (b ≡ Err refusals.NoMemory → ⊥) → a ≡ b }
{}

/// A driver whose call isn't complete has no entry due exactly while what the call waits for stands
/// in its way, as `blocks` says. So after each step the four facts say which drivers can go on, and
/// nobody asks them one by one. A driver whose calls are all complete never has an entry due.
#[tactic(auto, using(crate::proofs::Waits::call_waits, crate::proofs::Waits::complete_rests))]
pub fn calls_wait_for_blocks()
    ensures law { (line : LineSeen) (r : DriverNo) (c : Call) (n : ℕ) → IsSound line
        → due_call line.def r (reverse line.entries) ≡ Some (c, n)
        → (next line.def line.entries (actors.Driver r) ≡ None) ↔ IsTrue
        (is_blocked (block_of c n) (blocks_of line)) }
    ensures complete { (line : LineSeen) (r : DriverNo)
        → due_call line.def r (reverse line.entries) ≡ None
        → next line.def line.entries (actors.Driver r) ≡ None }
{}
