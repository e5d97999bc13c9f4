//! The lock.
ghost use Rattle.std.specs.Prelude.{◌≡◌, ◌≤◌, true, false, [], ◌∷◌, Some, None, IsSome, IsNone};
ghost use Rattle.std.specs.Prelude.{IfOk, IfErr, length};
ghost use Rattle.irq_base.specs.Who.{actor_of};
ghost use Rattle.line_lock.specs.Knows.{BeginsWith, nothing_known, is_among, forked, newcomer};
ghost use Rattle.line_lock.specs.Knows.{looked, glanced, IsCount, Meets};
ghost use Rattle.line_lock.specs.Passes.{IsPassOf, Extends};
ghost use Rattle.line_lock.specs.Placed.{placed_of};

use crate::kept::Kept;
use crate::pass::Pass;
use crate::steps::{Counted, HOME, glance, join, put_back, split, wait_turn};
use crate::view::View;
use atomic_table::{Refused, Table};
use irq_base::{Actor, LineDef};
use std::alloc::{AllocFailed, Global};
use std::marker::Model;
use std::sync::Wait;

/// Keeps one value, which threads take out and put back, one at a time. Its count is the length of
/// the value's history. Contracts see the definition of the value, which never changes.
#[derive(Drop)]
pub struct CountedLock<T: Kept> {
    table: Table<Option<T>, View, LineDef, Counted<T>, Global>,
}

/// Memory was refused, and the value comes back.
#[derive(Drop)]
pub struct LockRefused<T: Kept> {
    pub value: T,
}

impl<T: Kept> Model for CountedLock<T> {
    ghost use Rattle.std.specs.Prelude.{◌≡◌};
    ghost use Rattle.line_lock.specs.Passes.{LockSeen};

    ghost Value = { LockSeen };

    ghost view = { λ l. record { table = l.table.shared.table_id; def = l.table.shared.key } };

    ghost invariant = { λ l. (l.table.shared.table_id.words ≡ 2)
        × (l.table.shared.table_id.slots ≡ 1) };
}

impl<T: Kept> CountedLock<T> {
    /// A lock round the value, and its first pass. If memory is refused, the value comes back.
    pub fn new(alloc: Global, value: T) -> Result<(CountedLock<T>, Pass<T>), LockRefused<T>>
        requires empty { T.entries value ≡ [] }
        ensures def { IfOk result (λ r. r.0.def ≡ T.definition value) }
        ensures pass { IfOk result (λ r. IsPassOf r.0 r.1) }
        ensures knows { IfOk result (λ r. r.1.knows ≡ nothing_known) }
        ensures idle { IfOk result (λ r. r.1.turn ≡ false) }
        ensures refused { IfErr result (λ r. r.value ≡ value) }
    {
        let Ok(def) = value.definition().try_clone(alloc) else {
            return Err(LockRefused { value });
        };
        let mut slots = Vec::new(alloc);
        if let Err(failed) = slots.push(Some(value)) {
            let AllocFailed { value } = failed;
            slots.destroy_empty();
            let Some(value) = value else { unreachable!() };
            return Err(LockRefused { value });
        }
        match Table::new(alloc, &[0, 0], slots, &def) {
            Ok((table, seat)) => Ok((
                CountedLock { table },
                Pass {
                    seat,
                    actor: None,
                    front: 0,
                    held: 0,
                },
            )),
            Err(Refused { slots }) => Err(LockRefused {
                value: only_slot(slots),
            }),
        }
    }

    /// Waits for the turn, and takes the value out. Until the pass puts it back (`leave`), no other
    /// pass has the turn.
    pub fn hold<R: Wait>(&self, rt: &R, pass: &mut Pass<T>) -> T
        requires pass { IsPassOf self.now pass.old }
        requires idle { pass.old.turn ≡ false }
        requires actor { IsSome pass.old.knows.actor }
        ensures pass { IsPassOf self.now pass.new }
        ensures def { T.definition result ≡ self.now.def }
        ensures begins { BeginsWith (T.entries result) pass.old.knows.seen }
        ensures mine { pass.old.knows.mine
            ≡ placed_of pass.old.knows.actor (T.entries result) }
        ensures knows { pass.new.knows ≡ pass.old.knows }
        ensures held { (pass.new.turn ≡ true) × (pass.new.held ≡ T.entries result) }
    {
        let value = wait_turn(rt, &self.table.shared, &mut pass.seat);
        pass.held = value.count();
        value
    }

    /// Puts the value back, as it was or with one entry more, which is then the pass's own.
    pub fn leave(&self, pass: &mut Pass<T>, value: T)
        requires pass { IsPassOf self.now pass.old }
        requires turn { pass.old.turn ≡ true }
        requires actor { IsSome pass.old.knows.actor }
        requires def { T.definition value ≡ self.now.def }
        requires few { length (T.entries value) ≤ 100000000 }
        requires extends { Extends pass.old.knows.actor pass.old.held
            (T.entries value) }
        ensures pass { IsPassOf self.now pass.new }
        ensures idle { pass.new.turn ≡ false }
        ensures knows { pass.new.knows ≡ looked pass.old.knows (T.entries value) }
    {
        let count = value.count();
        put_back(&self.table.shared, &mut pass.seat, value, count > pass.held);
        pass.front = count as u64;
    }

    /// Gives a pass to the actor. It takes no memory.
    pub fn fork(&self, pass: &mut Pass<T>, actor: Actor) -> Pass<T>
        requires pass { IsPassOf self.now pass.old }
        requires idle { pass.old.turn ≡ false }
        requires first { pass.old.knows.actor ≡ None }
        requires fresh { is_among actor pass.old.knows.given ≡ false }
        ensures pass { IsPassOf self.now pass.new × IsPassOf self.now result }
        ensures idle { (pass.new.turn ≡ false) × (result.turn ≡ false) }
        ensures gave { pass.new.knows ≡ forked pass.old.knows actor }
        ensures given { result.knows ≡ newcomer pass.old.knows actor }
    {
        let seat = split(&self.table.shared, &mut pass.seat, actor);
        Pass {
            seat,
            actor: Some(actor),
            front: pass.front,
            held: 0,
        }
    }

    /// Takes in what the other pass knows. The other's actor never gets a pass again.
    pub fn meet(&self, pass: &mut Pass<T>, other: Pass<T>)
        requires pass { IsPassOf self.now pass.old × IsPassOf self.now other }
        requires idle { (pass.old.turn ≡ false) × (other.turn ≡ false) }
        requires first { pass.old.knows.actor ≡ None }
        requires actor { IsSome other.knows.actor }
        ensures pass { IsPassOf self.now pass.new }
        ensures idle { pass.new.turn ≡ false }
        ensures met { Meets pass.old.knows other.knows pass.new.knows }
    {
        let Pass { seat, front, .. } = other;
        join(&self.table.shared, &mut pass.seat, seat);
        if front > pass.front {
            pass.front = front;
        }
    }

    /// Takes the lock apart. No pass of an actor is out.
    pub fn finish(self, pass: Pass<T>) -> T
        requires pass { IsPassOf self pass }
        requires idle { pass.turn ≡ false }
        requires first { pass.knows.actor ≡ None }
        requires nobody { pass.knows.out ≡ [] }
        ensures def { T.definition result ≡ self.def }
        ensures entries { T.entries result ≡ pass.knows.seen }
    {
        let CountedLock { table } = self;
        let Pass { seat, .. } = pass;
        let mut closed = table.close_with(seat);
        let Some(value) = closed.take(HOME) else {
            unreachable!()
        };
        closed.free();
        value
    }

    /// How many entries there are now, seen without the turn: good for telling whether a hold is
    /// worth while.
    pub fn look(&self, pass: &mut Pass<T>) -> u64
        requires pass { IsPassOf self.now pass.old }
        requires idle { pass.old.turn ≡ false }
        requires actor { IsSome pass.old.knows.actor }
        ensures pass { IsPassOf self.now pass.new }
        ensures idle { pass.new.turn ≡ false }
        ensures knows { pass.new.knows ≡ glanced pass.old.knows result }
        ensures count { IsCount pass.old.knows result }
    {
        glance(&self.table.shared, &mut pass.seat)
    }
}

/// The value in a list of one slot.
fn only_slot<T: Kept>(mut slots: Vec<Option<T>>) -> T
    requires { (x : T) × (slots.items ≡ Some x ∷ []) }
    ensures { slots.items ≡ Some result ∷ [] }
{
    let Some(Some(value)) = slots.pop() else {
        unreachable!()
    };
    slots.destroy_empty();
    value
}
