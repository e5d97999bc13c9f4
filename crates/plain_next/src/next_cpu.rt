//! The rows of the table for processors.
ghost use Rattle.std.specs.Prelude.{◌≡◌, ◌≤◌, length, IfOk};
ghost use Rattle.irq_model.specs.Rounds.{is_cpu};
ghost use Rattle.irq_model.specs.Runs.{due_in_run};
ghost use Rattle.irq_model.specs.Next.{handler_or_return, return_of, is_off_now};
ghost use Rattle.irq_model.specs.Next.{end_edge, end_level, end_by_flow, end_of, begin_or_end};
ghost use Rattle.irq_model.specs.Next.{next_in_flow, take_answer, next_take, next_of_cpu};

use crate::lines::is_edge_line;
use crate::links::{is_disabled, is_none_linked, is_oneshot, linked};
use crate::masks::is_masked;
use crate::next_call::{by_actor, next_step};
use crate::rounds::{at_work, first_left, flow, has_flow};
use crate::runs::{answer_of_run_now, due_in_run, served_by_run};
use crate::signal::{signals, target};
use crate::spurious::note_of;
use crate::threads::is_some_unfinished;
use crate::waiting::{is_pending, is_soft};
use irq_base::{
    Actor, CpuEntry, CpuNo, DevNo, Entry, FlowKind, LineDef, NoMemory, Note, Part, TakeAnswer, Way,
};
use std::alloc::Global;

// ---- in the flow

/// The return of the device's handler.
fn return_of(def: &LineDef, cpu: CpuNo, dev: DevNo, past: &[Entry]) -> Entry
    requires { length past.now ≤ 100000000 }
    ensures { result ≡ return_of def.now cpu dev past.now }
{
    let answer = answer_of_run_now(def, Part::Primary, dev, past);
    let served = served_by_run(def, Part::Primary, dev, past);
    Entry::Cpu(
        cpu,
        CpuEntry::Return {
            answer,
            dev,
            served,
        },
    )
}

/// The handler makes its next call, or returns.
fn handler_or_return(
    alloc: Global,
    def: &LineDef,
    cpu: CpuNo,
    dev: DevNo,
    past: &[Entry],
) -> Result<Option<Entry>, NoMemory>
    requires few { length past.now ≤ 100000000 }
    requires devices { length def.now.devices ≤ 256 }
    ensures { IfOk result (λ entry. entry ≡ handler_or_return def.now cpu dev past.now
        (due_in_run def.now Part.Primary dev past.now)) }
{
    let Some((call, n)) = due_in_run(alloc, def, Part::Primary, dev, past)? else {
        return Ok(Some(return_of(def, cpu, dev, past)));
    };
    let step = next_step(alloc, def, past, call, n)?;
    Ok(by_actor(Actor::Cpu(cpu), step))
}

/// Disabled already, or by this very note.
fn is_off_now(alloc: Global, past: &[Entry], note: Note) -> Result<bool, NoMemory>
    requires { length past.now ≤ 100000000 }
    ensures { IfOk result (λ off. off ≡ is_off_now past.now note) }
{
    let disabled = is_disabled(alloc, past)?;
    Ok(disabled || matches!(note, Note::Killed))
}

/// The end of an edge flow.
fn end_edge(def: &LineDef, cpu: CpuNo, past: &[Entry], note: Note, again: bool) -> Entry
    ensures { result ≡ end_edge def.now cpu past.now note again }
{
    let unmask = again && is_masked(def, past);
    Entry::Cpu(
        cpu,
        CpuEntry::End {
            again,
            unmask,
            note,
        },
    )
}

/// The end of a flow that may open the line, unless a thread still holds it.
fn end_level(def: &LineDef, cpu: CpuNo, past: &[Entry], note: Note, may_open: bool) -> Entry
    ensures { result ≡ end_level def.now cpu past.now note may_open }
{
    let unmask = may_open && is_masked(def, past) && !is_some_unfinished(def, past);
    Entry::Cpu(
        cpu,
        CpuEntry::End {
            again: false,
            unmask,
            note,
        },
    )
}

/// The flow's end: the edge flow goes on with what is pending; the level flow opens the line; the
/// fast-EOI flow does so on a one-shot level line, and on an edge line sends what is pending again.
fn end_by_flow(
    alloc: Global,
    def: &LineDef,
    cpu: CpuNo,
    past: &[Entry],
    note: Note,
) -> Result<Entry, NoMemory>
    requires { length past.now ≤ 100000000 }
    ensures { IfOk result (λ entry. entry ≡ end_by_flow def.now def.now.flow cpu past.now note) }
{
    let off = is_off_now(alloc, past, note)?;
    Ok(match def.flow {
        FlowKind::Edge => end_edge(def, cpu, past, note, is_pending(def, past) && !off),
        FlowKind::Level => end_level(def, cpu, past, note, !off),
        FlowKind::Eoi if is_edge_line(def) => Entry::Cpu(
            cpu,
            CpuEntry::End {
                again: is_pending(def, past) && !off,
                unmask: false,
                note,
            },
        ),
        FlowKind::Eoi => end_level(def, cpu, past, note, !off && is_oneshot(past)),
    })
}

/// The end of the flow's round.
fn end_of(alloc: Global, def: &LineDef, cpu: CpuNo, past: &[Entry]) -> Result<Entry, NoMemory>
    requires { length past.now ≤ 100000000 }
    ensures { IfOk result (λ entry. entry ≡ end_of def.now cpu past.now) }
{
    end_by_flow(alloc, def, cpu, past, note_of(def, past))
}

/// The handler of the first device that is left is called, or else the round ends.
fn begin_or_end(
    alloc: Global,
    def: &LineDef,
    cpu: CpuNo,
    past: &[Entry],
    left: Option<DevNo>,
) -> Result<Entry, NoMemory>
    requires { length past.now ≤ 100000000 }
    ensures { IfOk result (λ entry. entry ≡ begin_or_end def.now cpu past.now left) }
{
    match left {
        Some(dev) => Ok(Entry::Cpu(cpu, CpuEntry::Begin { dev })),
        None => end_of(alloc, def, cpu, past),
    }
}

/// A handler that is at work makes its next call, or returns; else the first handler that is left
/// is called; else the round ends.
fn next_in_flow(
    alloc: Global,
    def: &LineDef,
    cpu: CpuNo,
    past: &[Entry],
    working: Option<DevNo>,
) -> Result<Option<Entry>, NoMemory>
    requires few { length past.now ≤ 100000000 }
    requires devices { length def.now.devices ≤ 256 }
    ensures { IfOk result (λ entry. entry ≡ next_in_flow def.now cpu past.now working) }
{
    if let Some(d) = working {
        return handler_or_return(alloc, def, cpu, d, past);
    }
    let devices = linked(alloc, past)?;
    let left = first_left(def, past, &devices);
    Ok(Some(begin_or_end(alloc, def, cpu, past, left)?))
}

// ---- taking an interrupt

/// What the flow handler makes of a take.
fn take_answer(alloc: Global, def: &LineDef, past: &[Entry]) -> Result<TakeAnswer, NoMemory>
    requires { length past.now ≤ 100000000 }
    ensures { IfOk result (λ answer. answer ≡ take_answer def.now past.now) }
{
    if has_flow(def, past) {
        return Ok(TakeAnswer::Busy);
    }
    if is_disabled(alloc, past)? || is_none_linked(alloc, past)? {
        return Ok(TakeAnswer::Off);
    }
    Ok(TakeAnswer::Handle)
}

/// Both are the same processor.
fn is_cpu(cpu: CpuNo, other: Option<CpuNo>) -> bool
    ensures { result ≡ is_cpu cpu other }
{
    match other {
        Some(f) => cpu == f,
        None => false,
    }
}

/// The target takes what is signalled, or else what the software resends.
fn next_take(
    alloc: Global,
    def: &LineDef,
    cpu: CpuNo,
    past: &[Entry],
) -> Result<Option<Entry>, NoMemory>
    requires few { length past.now ≤ 100000000 }
    requires cpus { def.now.cpus ≤ 32 }
    ensures { IfOk result (λ entry. entry ≡ next_take def.now cpu past.now) }
{
    if !is_cpu(cpu, target(def, past)) {
        return Ok(None);
    }
    let answer = take_answer(alloc, def, past)?;
    let way = if signals(alloc, def, past)? {
        Way::Line
    } else if is_soft(past) {
        Way::Resend
    } else {
        return Ok(None);
    };
    Ok(Some(Entry::Cpu(cpu, CpuEntry::Take { way, answer })))
}

/// The entry that is due for the processor.
pub fn next_of_cpu(
    alloc: Global,
    def: &LineDef,
    cpu: CpuNo,
    past: &[Entry],
) -> Result<Option<Entry>, NoMemory>
    requires few { length past.now ≤ 100000000 }
    requires cpus { def.now.cpus ≤ 32 }
    requires devices { length def.now.devices ≤ 256 }
    ensures { IfOk result (λ entry. entry ≡ next_of_cpu def.now cpu past.now) }
{
    if is_cpu(cpu, flow(def, past)) {
        return next_in_flow(alloc, def, cpu, past, at_work(past));
    }
    next_take(alloc, def, cpu, past)
}
