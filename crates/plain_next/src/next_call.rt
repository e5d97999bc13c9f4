//! The rows of the table for the steps of calls, whoever makes them.
ghost use Rattle.std.specs.Prelude.{◌≡◌, ◌≤◌, length, IfOk, option_map};
ghost use Rattle.irq_model.specs.Next.{resend_of, enable_answer, is_only, unlink_answer};
ghost use Rattle.irq_model.specs.Next.{hard_clear_of, synced_of, freed_of, next_of_sync};
ghost use Rattle.irq_model.specs.Next.{next_of_disable, next_of_free, next_of_disable_hard};
ghost use Rattle.irq_model.specs.Next.{wake_answer, arm_makes_edge, next_step};
ghost use Rattle.irq_model.specs.Kinds.{made_by};

use crate::asks::{is_quiet, unserved_asks};
use crate::due::holds_mutex;
use crate::kinds::made_by;
use crate::lines::{does_forget, is_edge_line, kind_of};
use crate::links::{depth, is_linked, is_none_linked, linked};
use crate::rounds::has_flow;
use crate::threads::{active_count, is_running, is_woken};
use crate::waiting::is_pending;
use irq_base::{
    Actor, Call, CallEntry, DevNo, EnableAnswer, Entry, LineDef, NoMemory, Resend, UnlinkAnswer,
};
use std::alloc::Global;

/// How a start sends again what is pending; a level shows by itself.
pub fn resend_of(def: &LineDef, past: &[Entry]) -> Resend
    ensures { result ≡ resend_of def.now past.now }
{
    if !(is_edge_line(def) && is_pending(def, past)) {
        Resend::No
    } else if def.retriggers {
        Resend::Chip
    } else {
        Resend::Soft
    }
}

/// What an enable answers.
pub fn enable_answer(alloc: Global, def: &LineDef, past: &[Entry]) -> Result<EnableAnswer, NoMemory>
    requires { length past.now ≤ 100000000 }
    ensures { IfOk result (λ answer. answer ≡ enable_answer def.now past.now) }
{
    if is_none_linked(alloc, past)? {
        return Ok(EnableAnswer::Unbalanced);
    }
    Ok(match depth(alloc, past)? {
        0 => EnableAnswer::Unbalanced,
        1 => EnableAnswer::Started {
            resend: resend_of(def, past),
        },
        _ => EnableAnswer::Lowered,
    })
}

/// The device is linked, and nothing else is.
fn is_only(dev: DevNo, devices: &[DevNo]) -> bool
    ensures { result ≡ is_only dev devices.now }
{
    match devices {
        [only] => dev == *only,
        _ => false,
    }
}

/// What a free finds.
fn unlink_answer(alloc: Global, dev: DevNo, past: &[Entry]) -> Result<UnlinkAnswer, NoMemory>
    ensures { IfOk result (λ answer. answer ≡ unlink_answer dev past.now) }
{
    if !is_linked(past, dev) {
        return Ok(UnlinkAnswer::NotThere);
    }
    let devices = linked(alloc, past)?;
    Ok(UnlinkAnswer::Unlinked {
        last: is_only(dev, &devices),
    })
}

/// The hard clear, once no flow is in progress.
fn hard_clear_of(def: &LineDef, past: &[Entry]) -> Option<CallEntry>
    ensures { result ≡ hard_clear_of def.now past.now }
{
    if has_flow(def, past) {
        None
    } else {
        Some(CallEntry::HardClear)
    }
}

/// The end of a synchronization, once no thread is woken or in a run.
fn synced_of(def: &LineDef, past: &[Entry]) -> Option<CallEntry>
    requires { length def.now.devices ≤ 256 }
    ensures { result ≡ synced_of def.now past.now }
{
    if active_count(def, past) == 0 {
        Some(CallEntry::Synced)
    } else {
        None
    }
}

/// The end of a free, once the device's thread is at rest.
fn freed_of(dev: DevNo, past: &[Entry]) -> Option<CallEntry>
    ensures { result ≡ freed_of dev past.now }
{
    if is_woken(past, dev) || is_running(past, dev) {
        None
    } else {
        Some(CallEntry::Freed { dev })
    }
}

/// The next step of a synchronization that has made `n` steps.
fn next_of_sync(def: &LineDef, n: usize, past: &[Entry]) -> Option<CallEntry>
    requires { length def.now.devices ≤ 256 }
    ensures { result ≡ next_of_sync def.now n past.now }
{
    match n {
        0 => hard_clear_of(def, past),
        _ => synced_of(def, past),
    }
}

/// The next step of a disable that has made `n` steps.
fn next_of_disable(def: &LineDef, n: usize, past: &[Entry]) -> Option<CallEntry>
    requires { length def.now.devices ≤ 256 }
    ensures { result ≡ next_of_disable def.now n past.now }
{
    match n {
        0 => Some(CallEntry::Disable),
        1 => hard_clear_of(def, past),
        _ => synced_of(def, past),
    }
}

/// The next step of a free that has made `n` steps.
fn next_of_free(
    alloc: Global,
    def: &LineDef,
    dev: DevNo,
    n: usize,
    past: &[Entry],
) -> Result<Option<CallEntry>, NoMemory>
    ensures { IfOk result (λ step. step ≡ next_of_free def.now dev n past.now) }
{
    match n {
        0 if holds_mutex(past) => Ok(None),
        0 => {
            let answer = unlink_answer(alloc, dev, past)?;
            Ok(Some(CallEntry::Unlink { answer, dev }))
        }
        1 => Ok(hard_clear_of(def, past)),
        _ => Ok(freed_of(dev, past)),
    }
}

/// The next step of a disable that waits for the flow alone, and has made `n` steps.
fn next_of_disable_hard(def: &LineDef, n: usize, past: &[Entry]) -> Option<CallEntry>
    ensures { result ≡ next_of_disable_hard def.now n past.now }
{
    match n {
        0 => Some(CallEntry::Disable),
        _ => hard_clear_of(def, past),
    }
}

/// Whether a wake by a call wakes the device's thread.
fn wake_answer(def: &LineDef, dev: DevNo, past: &[Entry]) -> bool
    ensures { result ≡ wake_answer def.now dev past.now }
{
    is_linked(past, dev) && kind_of(def, dev).has_thread() && !is_woken(past, dev)
}

/// Whether an edge comes as the device's own interrupt is turned on.
fn arm_makes_edge(def: &LineDef, dev: DevNo, past: &[Entry]) -> bool
    requires { length past.now ≤ 100000000 }
    ensures { result ≡ arm_makes_edge def.now dev past.now }
{
    is_edge_line(def)
        && is_quiet(past, dev)
        && unserved_asks(def, dev, past) > 0
        && !does_forget(def, dev)
}

/// The step of a call that drivers, handlers and threads make alike, and that has made `n` steps.
pub fn next_step(
    alloc: Global,
    def: &LineDef,
    past: &[Entry],
    call: Call,
    n: usize,
) -> Result<Option<CallEntry>, NoMemory>
    requires few { length past.now ≤ 100000000 }
    requires devices { length def.now.devices ≤ 256 }
    ensures { IfOk result (λ step. step ≡ next_step def.now past.now (call, n)) }
{
    Ok(match call {
        Call::Free { dev } => next_of_free(alloc, def, dev, n, past)?,
        Call::Disable => next_of_disable(def, n, past),
        Call::DisableNosync => Some(CallEntry::Disable),
        Call::Enable => {
            let answer = enable_answer(alloc, def, past)?;
            Some(CallEntry::Enable { answer })
        }
        Call::Sync => next_of_sync(def, n, past),
        Call::SyncHard => hard_clear_of(def, past),
        Call::DisableHard => next_of_disable_hard(def, n, past),
        Call::Wake { dev } => {
            let woken = wake_answer(def, dev, past);
            Some(CallEntry::Wake { woken, dev })
        }
        Call::Quiet { dev } => Some(CallEntry::Quiet { dev }),
        Call::Arm { dev } => {
            let edge = arm_makes_edge(def, dev, past);
            Some(CallEntry::Arm { edge, dev })
        }
        Call::Serve { dev } => {
            let served = unserved_asks(def, dev, past);
            Some(CallEntry::Serve { dev, served })
        }
        Call::Ask { .. } | Call::Request { .. } | Call::Affinity { .. } | Call::Moment { .. } => {
            None
        }
    })
}

/// The step, made by the actor.
pub fn by_actor(actor: Actor, step: Option<CallEntry>) -> Option<Entry>
    ensures { result ≡ option_map (made_by actor) step }
{
    Some(made_by(actor, step?))
}
