//! What the queries of a line answer, looked up in its history.
ghost use Rattle.std.specs.Prelude.{◌≡◌, ◌+◌, ◌<◌, ◌≤◌, ◌∷◌, drop, length, IfOk};
ghost use Rattle.irq_model.specs.Legal.{IsLegalPast};
ghost use Rattle.irq_model.specs.Valid.{IsValid};
ghost use Rattle.irq_line.specs.Queries.{is_some_take, blocks_at, spins_at};
ghost use Rattle.irq_model.specs.Rounds.{flow};
ghost use Rattle.plain_line.specs.Looked.{IsLooked, IsTakerAt, IsLowestAt, is_thread_due, lower_of};

use irq_base::{Actor, Blocks, CpuEntry, CpuNo, DevNo, DeviceDef, Entry, LineDef, NoMemory};
use plain_next::{
    any_device, flow, holds_mutex, is_being_freed, is_running, is_woken, lowest_hung, next_past,
    target,
};
use std::alloc::Global;

/// The answers after some history.
#[derive(Clone, Copy)]
pub(crate) struct Looked {
    pub(crate) flow: Option<CpuNo>,
    pub(crate) spins: bool,
    pub(crate) taker: Option<CpuNo>,
    pub(crate) lowest: Option<DevNo>,
    pub(crate) blocks: Blocks,
    pub(crate) hung: Option<Actor>,
}

/// Looks the answers up in a past whose newest entry comes first.
pub(crate) fn look(alloc: Global, def: &LineDef, past: &[Entry]) -> Result<Looked, NoMemory>
    requires valid { IsValid def.now }
    requires legal { IsLegalPast def.now past.now }
    requires few { length past.now ≤ 100000000 }
    ensures { IfOk result (IsLooked def.now past.now) }
{
    Ok(Looked {
        flow: flow(def, past),
        spins: spins(alloc, def, past)?,
        taker: taker(alloc, def, past)?,
        lowest: lowest_thread(alloc, def, past)?,
        blocks: blocks(def, past),
        hung: lowest_hung(alloc, def, past)?,
    })
}

/// Whether the processor of the flow in progress has no entry due.
fn spins(alloc: Global, def: &LineDef, past: &[Entry]) -> Result<bool, NoMemory>
    requires valid { IsValid def.now }
    requires few { length past.now ≤ 100000000 }
    ensures { IfOk result (λ spins. spins ≡ spins_at def.now past.now (flow def.now past.now)) }
{
    match flow(def, past) {
        Some(cpu) => Ok(next_past(alloc, def, past, Actor::Cpu(cpu))?.is_none()),
        None => Ok(false),
    }
}

/// The one processor that has a take due: the target, if it may take.
#[tactic(auto, using(crate::proofs::Takers::untargeted, crate::proofs::Takers::taken, crate::proofs::Takers::untaken))]
fn taker(alloc: Global, def: &LineDef, past: &[Entry]) -> Result<Option<CpuNo>, NoMemory>
    requires valid { IsValid def.now }
    requires legal { IsLegalPast def.now past.now }
    requires few { length past.now ≤ 100000000 }
    ensures { IfOk result (IsTakerAt def.now past.now) }
{
    let Some(cpu) = target(def, past) else {
        return Ok(None);
    };
    let due = next_past(alloc, def, past, Actor::Cpu(cpu))?;
    if is_some_take(due) {
        return Ok(Some(cpu));
    }
    Ok(None)
}

/// Whether a take is due.
fn is_some_take(due: Option<Entry>) -> bool
    ensures { result ≡ is_some_take due }
{
    matches!(due, Some(Entry::Cpu(_, CpuEntry::Take { .. })))
}

/// The lowest device by number whose thread has an entry due.
fn lowest_thread(alloc: Global, def: &LineDef, past: &[Entry]) -> Result<Option<DevNo>, NoMemory>
    requires valid { IsValid def.now }
    requires few { length past.now ≤ 100000000 }
    ensures { IfOk result (IsLowestAt def.now past.now) }
{
    let mut lowest: Option<DevNo> = None;
    for i in 0..def.devices.len() {
        let device = device_at(def, i);
        let due = is_thread_due(alloc, def, past, device.dev)?;
        lowest = lower(lowest, device.dev, due);
    }
    Ok(lowest)
}

/// The device at index `place` of the line's devices.
#[tactic(auto, using(irq_model::proofs::Lists::next_item))]
fn device_at(def: &LineDef, place: usize) -> DeviceDef
    requires { place < length def.now.devices }
    ensures { drop place def.now.devices ≡ result ∷ drop (place + 1) def.now.devices }
{
    match def.devices.get(place) {
        Some(device) => device,
        None => unreachable!(),
    }
}

/// Whether an entry is due of the device's thread.
fn is_thread_due(alloc: Global, def: &LineDef, past: &[Entry], dev: DevNo) -> Result<bool, NoMemory>
    requires valid { IsValid def.now }
    requires few { length past.now ≤ 100000000 }
    ensures { IfOk result (λ due. due ≡ is_thread_due def.now past.now dev) }
{
    let due = next_past(alloc, def, past, Actor::Thread(dev))?;
    Ok(due.is_some())
}

/// The lower of the two devices if `counts`, else the first.
fn lower(so_far: Option<DevNo>, dev: DevNo, counts: bool) -> Option<DevNo>
    ensures { result ≡ lower_of so_far dev counts }
{
    if !counts {
        return so_far;
    }
    match so_far {
        Some(lowest) if lowest.0 <= dev.0 => so_far,
        _ => Some(dev),
    }
}

/// What drivers' calls wait for.
fn blocks(def: &LineDef, past: &[Entry]) -> Blocks
    ensures { result ≡ blocks_at def.now past.now }
{
    Blocks {
        flow: flow(def, past).is_some(),
        threads: any_device(def, |d| is_woken(past, d) || is_running(past, d)),
        mutex: holds_mutex(past),
        freed: any_device(def, |d| {
            is_being_freed(past, d) && (is_woken(past, d) || is_running(past, d))
        }),
    }
}
