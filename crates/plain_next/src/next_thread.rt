//! The rows of the table for threads.
ghost use Rattle.std.specs.Prelude.{◌≡◌, ◌≤◌, length, IfOk};
ghost use Rattle.std.specs.List.{list_any};
ghost use Rattle.irq_model.specs.Places.{since};
ghost use Rattle.irq_model.specs.Kinds.{is_finish, is_thread_begin, is_thread_return};
ghost use Rattle.irq_model.specs.Next.{thread_return_of, finish_unmasks, finish_or_done};
ghost use Rattle.irq_model.specs.Next.{call_or_return, next_of_thread};
ghost use Rattle.irq_model.specs.Runs.{due_in_run};

use crate::entry_tests::EntryTest;
use crate::links::{is_disabled, is_oneshot};
use crate::masks::is_masked;
use crate::next_call::{by_actor, next_step};
use crate::places::{has, since};
use crate::rounds::has_flow;
use crate::runs::{answer_of_run_now, due_in_run, served_by_run};
use crate::threads::{is_other_unfinished, is_running, is_woken};
use irq_base::{Actor, Answer, DevNo, Entry, LineDef, NoMemory, Part, ThreadEntry};
use std::alloc::Global;

/// The thread's handler returned in this run.
#[tactic(auto, unfolding(crate::specs::Passes::passes))]
pub(crate) fn has_returned(past: &[Entry], dev: DevNo) -> bool
    ensures { result ≡ list_any (is_thread_return dev) (since (is_thread_begin dev) past.now) }
{
    let run = since(past, EntryTest::ThreadBegin(dev));
    has(run, EntryTest::ThreadReturn(dev))
}

/// The thread finished after its handler returned.
#[tactic(auto, unfolding(crate::specs::Passes::passes))]
fn has_finished(past: &[Entry], dev: DevNo) -> bool
    ensures { result ≡ list_any (is_finish dev) (since (is_thread_return dev) past.now) }
{
    let returned = since(past, EntryTest::ThreadReturn(dev));
    has(returned, EntryTest::Finish(dev))
}

/// The return of the thread's handler.
fn thread_return_of(def: &LineDef, dev: DevNo, past: &[Entry]) -> Entry
    requires { length past.now ≤ 100000000 }
    ensures { result ≡ thread_return_of def.now dev past.now }
{
    let answer = answer_of_run_now(def, Part::Thread, dev, past);
    let handled = matches!(answer, Answer::Handled);
    let served = served_by_run(def, Part::Thread, dev, past);
    Entry::Thread(dev, ThreadEntry::Return { handled, served })
}

/// A run that has calls left makes the next one; else it returns.
fn call_or_return(
    alloc: Global,
    def: &LineDef,
    dev: DevNo,
    past: &[Entry],
) -> Result<Option<Entry>, NoMemory>
    requires few { length past.now ≤ 100000000 }
    requires devices { length def.now.devices ≤ 256 }
    ensures { IfOk result (λ entry. entry ≡ call_or_return def.now dev past.now
        (due_in_run def.now Part.Thread dev past.now)) }
{
    let Some((call, n)) = due_in_run(alloc, def, Part::Thread, dev, past)? else {
        return Ok(Some(thread_return_of(def, dev, past)));
    };
    let step = next_step(alloc, def, past, call, n)?;
    Ok(by_actor(Actor::Thread(dev), step))
}

/// Whether a finish unmasks the line.
fn finish_unmasks(
    alloc: Global,
    def: &LineDef,
    dev: DevNo,
    past: &[Entry],
) -> Result<bool, NoMemory>
    requires { length past.now ≤ 100000000 }
    ensures { IfOk result (λ unmask. unmask ≡ finish_unmasks def.now dev past.now) }
{
    let disabled = is_disabled(alloc, past)?;
    Ok(
        !is_woken(past, dev)
            && !disabled
            && is_masked(def, past)
            && !is_other_unfinished(def, past, dev),
    )
}

/// After the thread's handler returned: on a one-shot line it gives its bit up, once no flow is in
/// progress.
fn finish_or_done(
    alloc: Global,
    def: &LineDef,
    dev: DevNo,
    past: &[Entry],
) -> Result<Option<Entry>, NoMemory>
    requires { length past.now ≤ 100000000 }
    ensures { IfOk result (λ entry. entry ≡ finish_or_done def.now dev past.now) }
{
    if !is_oneshot(past) || has_finished(past, dev) {
        return Ok(Some(Entry::Thread(dev, ThreadEntry::Done)));
    }
    if has_flow(def, past) {
        return Ok(None);
    }
    let unmask = finish_unmasks(alloc, def, dev, past)?;
    let kept = is_woken(past, dev);
    Ok(Some(Entry::Thread(dev, ThreadEntry::Finish { kept, unmask })))
}

/// The entry that is due for the device's thread.
pub fn next_of_thread(
    alloc: Global,
    def: &LineDef,
    dev: DevNo,
    past: &[Entry],
) -> Result<Option<Entry>, NoMemory>
    requires few { length past.now ≤ 100000000 }
    requires devices { length def.now.devices ≤ 256 }
    ensures { IfOk result (λ entry. entry ≡ next_of_thread def.now dev past.now) }
{
    if !is_running(past, dev) {
        return Ok(is_woken(past, dev).then_some(Entry::Thread(dev, ThreadEntry::Begin)));
    }
    if !has_returned(past, dev) {
        return call_or_return(alloc, def, dev, past);
    }
    finish_or_done(alloc, def, dev, past)
}
