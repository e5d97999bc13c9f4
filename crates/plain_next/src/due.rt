//! A driver's entries, laid beside its calls on the line in order, and the request mutex.
ghost use Rattle.std.specs.Prelude.{◌≡◌, IfOk};
ghost use Rattle.std.specs.List.{list_any};
ghost use Rattle.irq_model.specs.Kinds.{is_freed_by};
ghost use Rattle.irq_model.specs.Reason.{is_being_freed};
ghost use Rattle.irq_model.specs.Due.{entries_by, begins_not_there, entries_of_call};
ghost use Rattle.irq_model.specs.Due.{due_of, due_call, is_being_freed_at, holds_mutex};
ghost use Rattle.irq_model.specs.Waits.{mutex_holder};

use crate::entry_tests::EntryTest;
use crate::kinds::{call_of, is_unlink};
use crate::places::{has, oldest_first, stands};
use crate::scripts::calls_by;
use irq_base::{Actor, Call, CallEntry, DevNo, DriverNo, Entry, LineDef, NoMemory, UnlinkAnswer};
use std::alloc::Global;

/// The driver's first call that isn't complete, and how many entries it has made.
pub fn due_call(
    alloc: Global,
    def: &LineDef,
    driver: DriverNo,
    past: &[Entry],
) -> Result<Option<(Call, usize)>, NoMemory>
    ensures { IfOk result (λ due. due ≡ due_call def.now driver past.now) }
{
    let calls = calls_by(alloc, &def.calls, driver)?;
    let entries = entries_by(alloc, driver, past)?;
    Ok(due_of(&calls, &entries))
}

/// The request mutex is held, from an unlink until its maker has completed the free.
pub fn holds_mutex(past: &[Entry]) -> bool
    ensures { result ≡ holds_mutex past.now }
{
    for i in 0..past.len() {
        let (after, upto) = past.split_at(i);
        if is_being_freed_at(after, upto) {
            return true;
        }
    }
    false
}

/// Who made the last unlink whose free isn't complete.
pub fn mutex_holder(past: &[Entry]) -> Option<Actor>
    ensures { result ≡ mutex_holder past.now }
{
    for i in 0..past.len() {
        let (after, upto) = past.split_at(i);
        if is_being_freed_at(after, upto) {
            return Some(upto[0].actor());
        }
    }
    None
}

/// The device was unlinked, and its free isn't complete.
#[tactic(auto, unfolding(crate::specs::Passes::passes))]
pub fn is_being_freed(past: &[Entry], dev: DevNo) -> bool
    ensures { result ≡ is_being_freed past.now dev }
{
    stands(past, EntryTest::Unlinks(dev), EntryTest::Freed(dev))
}

/// The driver's entries, the oldest first.
#[tactic(auto, unfolding(crate::specs::Passes::passes))]
fn entries_by(alloc: Global, driver: DriverNo, past: &[Entry]) -> Result<Vec<Entry>, NoMemory>
    ensures { IfOk result (λ entries. entries.items ≡ entries_by driver past.now) }
{
    oldest_first(alloc, past, EntryTest::ByDriver(driver))
}

/// The first entry of a free that found nothing to free.
fn begins_not_there(entries: &[Entry]) -> bool
    ensures { result ≡ begins_not_there entries.now }
{
    match entries.first() {
        Some(e) => matches!(
            call_of(*e),
            Some(CallEntry::Unlink {
                answer: UnlinkAnswer::NotThere,
                ..
            })
        ),
        None => false,
    }
}

/// How many entries a call makes, given the driver's entries from the call's first one on.
fn entries_of_call(call: Call, entries: &[Entry]) -> usize
    ensures { result ≡ entries_of_call call entries.now }
{
    match call {
        Call::Free { .. } if begins_not_there(entries) => 1,
        Call::Free { .. } | Call::Disable => 3,
        Call::Sync | Call::DisableHard => 2,
        _ => 1,
    }
}

/// The first of the calls that isn't complete, and how many entries it has made, given the entries
/// of them all.
pub fn due_of(calls: &[Call], entries: &[Entry]) -> Option<(Call, usize)>
    ensures { result ≡ due_of calls.now entries.now }
{
    let mut left = entries;
    let mut rest = calls;
    while let Some((call, others)) = rest.split_first() {
        let needed = entries_of_call(*call, left);
        if left.len() < needed {
            return Some((*call, left.len()));
        }
        left = &left[needed..];
        rest = others;
    }
    None
}

/// A free of the actor is at its end among these.
#[tactic(auto, unfolding(crate::specs::Passes::passes))]
fn has_freed(entries: &[Entry], actor: Actor) -> bool
    ensures { result ≡ list_any (is_freed_by actor) entries.now }
{
    has(entries, EntryTest::FreedBy(actor))
}

/// The newest entry of `upto` unlinked a device, and its maker's free isn't complete.
fn is_being_freed_at(after: &[Entry], upto: &[Entry]) -> bool
    ensures { result ≡ is_being_freed_at after.now upto.now }
{
    match upto.first() {
        Some(e) => is_unlink(*e) && !has_freed(after, e.actor()),
        None => false,
    }
}
