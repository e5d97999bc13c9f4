//! The shared line.
ghost use Rattle.std.specs.Prelude.{◌≡◌, ◌≤◌, true, false, [], Some, None, IsSome, IfOk, IfErr};
ghost use Rattle.std.specs.Prelude.{length};
ghost use Rattle.irq_base.specs.declared.entries.Actor.{Actor};
ghost use Rattle.callbacks.specs.Heard.{Heard};
ghost use Rattle.line_lock.specs.Knows.{nothing_known, is_among, forked, newcomer, Meets};
ghost use Rattle.line_lock.specs.Knows.{glanced, IsCount};
ghost use Rattle.irq_line.specs.Answers.{Answers};
ghost use Rattle.irq_line.specs.Hearing.{Lacks, runs_by};
ghost use Rattle.irq_line.specs.Memory.{WantsMemory};
ghost use Rattle.irq_line.specs.Seen.{IsSound};
ghost use Rattle.line_lock.specs.Passes.{IsPassOf, Extends};
ghost use Rattle.line_shared.specs.Stepping.{Steps};

use crate::held::HeldLine;
use callbacks::{Before, Hears};
use irq_base::{Actor, LineDef, Run};
use irq_line::{IrqLine, StepRefused, Stepped};
use line_lock::{CountedLock, LockRefused};
use std::alloc::{AllocFailed, Global};
use std::marker::Model;
use std::sync::Wait;

/// What a thread steps a shared line with.
pub type Pass<L> = line_lock::Pass<HeldLine<L>>;

/// A line that threads step, one at a time. Contracts see its definition, which never changes.
#[derive(Drop)]
pub struct SharedLine<L: IrqLine> {
    lock: CountedLock<HeldLine<L>>,
}

/// Memory was refused, and the line comes back.
#[derive(Drop)]
pub struct ShareRefused<L: IrqLine> {
    pub line: L,
}

impl<L: IrqLine> Model for SharedLine<L> {
    ghost use Rattle.line_lock.specs.Passes.{LockSeen};

    ghost Value = { LockSeen };

    ghost view = { λ s. s.lock };
}

impl<L: IrqLine> SharedLine<L> {
    /// Shares a line to which nothing has happened, and answers its first pass. If memory is
    /// refused, the line comes back.
    pub fn new(alloc: Global, line: L) -> Result<(SharedLine<L>, Pass<L>), ShareRefused<L>>
        requires empty { (L.seen line).entries ≡ [] }
        ensures def { IfOk result (λ r. r.0.def ≡ (L.seen line).def) }
        ensures pass { IfOk result (λ r. IsPassOf r.0 r.1) }
        ensures knows { IfOk result (λ r. r.1.knows ≡ nothing_known) }
        ensures idle { IfOk result (λ r. r.1.turn ≡ false) }
        ensures refused { IfErr result (λ r. r.line ≡ line) }
    {
        let line = match Box::new(alloc, line) {
            Ok(line) => line,
            Err(AllocFailed { value }) => return Err(ShareRefused { line: value }),
        };
        match CountedLock::new(alloc, HeldLine { line }) {
            Ok((lock, pass)) => Ok((SharedLine { lock }, pass)),
            Err(LockRefused { value }) => Err(ShareRefused {
                line: Box::into_inner(value.line),
            }),
        }
    }

    /// Gives a pass to the actor, which has seen what the first pass has. It takes no memory.
    pub fn fork(&self, pass: &mut Pass<L>, actor: Actor) -> Pass<L>
        requires pass { IsPassOf self.now pass.old }
        requires idle { pass.old.turn ≡ false }
        requires first { pass.old.knows.actor ≡ None }
        requires fresh { is_among actor pass.old.knows.given ≡ false }
        ensures pass { IsPassOf self.now pass.new × IsPassOf self.now result }
        ensures idle { (pass.new.turn ≡ false) × (result.turn ≡ false) }
        ensures gave { pass.new.knows ≡ forked pass.old.knows actor }
        ensures given { result.knows ≡ newcomer pass.old.knows actor }
    {
        self.lock.fork(pass, actor)
    }

    /// Waits for the line, and has it make a step of the pass's actor: `IrqLine::step` on the
    /// history as it is then. No handler is called while the line is held: if the step ends a run,
    /// it takes the answer that was said before, or answers which run's it lacks.
    ///
    /// # Errors
    ///
    /// The errors of the line's step. The line hasn't changed then, and the pass has seen its
    /// history.
    pub fn step<R: Wait>(
        &self,
        rt: &R,
        pass: &mut Pass<L>,
        before: &mut Before,
    ) -> Result<Stepped<Run>, StepRefused>
        requires pass { IsPassOf self.now pass.old }
        requires idle { pass.old.turn ≡ false }
        requires actor { IsSome pass.old.knows.actor }
        ensures pass { IsPassOf self.now pass.new }
        ensures idle { pass.new.turn ≡ false }
        ensures same_actor { pass.new.knows.actor ≡ pass.old.knows.actor }
        ensures steps { (who : Actor) → pass.old.knows.actor ≡ Some who
            → Steps L.seen L.may_want ⟦<Before as Hears>⟧.hears ⟦<Before as Hears>⟧.lacks
            self.now.def who pass.old.knows before.old result pass.new.knows before.new }
    {
        let Some(actor) = pass.actor() else {
            unreachable!()
        };
        let mut held = self.lock.hold(rt, pass);
        let answer = step_held(&mut held, actor, before);
        self.lock.leave(pass, held);
        answer
    }

    /// Takes in what the other pass has seen. The other's actor never gets a pass again.
    pub fn meet(&self, pass: &mut Pass<L>, other: Pass<L>)
        requires pass { IsPassOf self.now pass.old × IsPassOf self.now other }
        requires idle { (pass.old.turn ≡ false) × (other.turn ≡ false) }
        requires first { pass.old.knows.actor ≡ None }
        requires actor { IsSome other.knows.actor }
        ensures pass { IsPassOf self.now pass.new }
        ensures idle { pass.new.turn ≡ false }
        ensures met { Meets pass.old.knows other.knows pass.new.knows }
    {
        self.lock.meet(pass, other);
    }

    /// The line, out of its lock. No pass of an actor is out, and the line's history is what the
    /// first pass has seen.
    pub fn finish(self, pass: Pass<L>) -> L
        requires pass { IsPassOf self pass }
        requires idle { pass.turn ≡ false }
        requires first { pass.knows.actor ≡ None }
        requires nobody { pass.knows.out ≡ [] }
        ensures def { (L.seen result).def ≡ self.def }
        ensures entries { (L.seen result).entries ≡ pass.knows.seen }
    {
        let SharedLine { lock } = self;
        Box::into_inner(lock.finish(pass).line)
    }

    /// How many entries the line has now, seen without a wait: good for telling whether a step is
    /// worth while. If there are as many as the pass has seen, nothing has happened since.
    pub fn look(&self, pass: &mut Pass<L>) -> u64
        requires pass { IsPassOf self.now pass.old }
        requires idle { pass.old.turn ≡ false }
        requires actor { IsSome pass.old.knows.actor }
        ensures pass { IsPassOf self.now pass.new }
        ensures idle { pass.new.turn ≡ false }
        ensures knows { pass.new.knows ≡ glanced pass.old.knows result }
        ensures count { IsCount pass.old.knows result }
    {
        self.lock.look(pass)
    }
}

/// One step of a line that is held, which is sound before and after it.
fn step_held<L: IrqLine>(
    held: &mut HeldLine<L>,
    actor: Actor,
    before: &mut Before,
) -> Result<Stepped<Run>, StepRefused>
    ensures def { (L.seen held.new.line.value).def ≡ (L.seen held.old.line.value).def }
    ensures sound { IsSound (L.seen held.old.line.value) × IsSound (L.seen held.new.line.value) }
    ensures answer { Answers (L.seen held.old.line.value) actor result
        (L.seen held.new.line.value) }
    ensures heard { Heard ⟦<Before as Hears>⟧.hears (runs_by (L.seen held.old.line.value) result)
        before.old before.new }
    ensures lacking { Lacks ⟦<Before as Hears>⟧.lacks (L.seen held.old.line.value) actor before.old
        result }
    ensures memory { WantsMemory L.may_want (L.seen held.old.line.value) actor result }
    ensures few { length (L.seen held.new.line.value).entries ≤ 100000000 }
    ensures extends { Extends (Some actor) (L.seen held.old.line.value).entries
        (L.seen held.new.line.value).entries }
{
    held.line.is_sound();
    let answer = held.line.step(actor, before);
    held.line.is_sound();
    answer
}
