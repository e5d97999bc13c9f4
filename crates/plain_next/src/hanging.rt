//! Who waits for whom, and who is hung.
ghost use Rattle.std.specs.Prelude.{◌≡◌, ◌≤◌, ◌↔◌, ◌++◌, length, IfOk, OnOk, IsTrue};
ghost use Rattle.irq_model.specs.Kinds.{same_actor};
ghost use Rattle.irq_model.specs.Rounds.{flow, is_cpu};
ghost use Rattle.irq_model.specs.Waits.{IsHungPast, IsLowestHungPast, is_before};
ghost use Rattle.irq_model.specs.Waits.{wanted, wanted_at_work, wanted_by, wanted_by_cpu};
ghost use Rattle.irq_model.specs.Waits.{wanted_by_thread, wanted_of};
ghost use Rattle.plain_next.specs.Hanging.{AreInWay, AreReached, StandIn, add_if, all_in_way};
ghost use Rattle.plain_next.specs.Hanging.{flow_actor, is_active, is_among, is_lower, listed};
ghost use Rattle.plain_next.specs.Hanging.{lower_of, stands_in, thread_told, threads_told};
ghost use Rattle.plain_next.specs.Hanging.{want_of, with_new};

use crate::due::{due_call, mutex_holder};
use crate::kinds::call_of;
use crate::next::next_past;
use crate::next_thread::has_returned;
use crate::rounds::{at_work, flow};
use crate::runs::due_in_run;
use crate::threads::{is_running, is_woken};
use irq_base::{Actor, Call, CallEntry, CpuEntry, CpuNo, DevNo, Entry, LineDef, NoMemory, Part};
use std::alloc::Global;

/// What a step that isn't due waits for.
#[derive(Clone, Copy)]
pub enum Want {
    /// Nothing.
    Nothing,
    /// The end of the flow.
    FlowEnds,
    /// All threads of the line at rest.
    ThreadsRest,
    /// The thread of that device at rest.
    ThreadRests(DevNo),
    /// The request mutex.
    MutexFree,
}

/// The lowest actor that is hung, if there is one. Who is hung stands in somebody's way; so all who
/// may do that are looked at, of whatever definition and history.
pub fn lowest_hung(alloc: Global, def: &LineDef, past: &[Entry]) -> Result<Option<Actor>, NoMemory>
    requires few { length past.now ≤ 100000000 }
    requires cpus { def.now.cpus ≤ 32 }
    requires devices { length def.now.devices ≤ 256 }
    ensures { IfOk result (IsLowestHungPast def.now past.now) }
{
    let all = all_in_way(alloc, def, past)?;
    let mut lowest = None;
    for actor in all.as_slice() {
        let hung = is_hung(alloc, def, past, *actor)?;
        lowest = lower_of(lowest, *actor, hung);
    }
    Ok(lowest)
}

/// The lower of the two, if the actor is hung.
fn lower_of(lowest: Option<Actor>, actor: Actor, hung: bool) -> Option<Actor>
    ensures { result ≡ lower_of lowest actor hung }
{
    if hung && is_lower(actor, lowest) {
        return Some(actor);
    }
    lowest
}

/// Whether the first comes before the second, if there is a second.
fn is_lower(actor: Actor, lowest: Option<Actor>) -> bool
    ensures { result ≡ is_lower actor lowest }
{
    match lowest {
        Some(lowest) => is_before(actor, lowest),
        None => true,
    }
}

/// The order of actors: threads, processors, drivers, each by number.
fn is_before(first: Actor, second: Actor) -> bool
    ensures { result ≡ is_before first second }
{
    match first {
        Actor::Thread(dev) => match second {
            Actor::Thread(other) => dev.0 < other.0,
            Actor::Cpu(_) | Actor::Driver(_) => true,
        },
        Actor::Cpu(cpu) => match second {
            Actor::Thread(_) => false,
            Actor::Cpu(other) => cpu.0 < other.0,
            Actor::Driver(_) => true,
        },
        Actor::Driver(driver) => match second {
            Actor::Thread(_) | Actor::Cpu(_) => false,
            Actor::Driver(other) => driver.0 < other.0,
        },
    }
}

/// Whether the actor waits for itself: of all that it waits for, at once or through others, it is
/// one.
fn is_hung(alloc: Global, def: &LineDef, past: &[Entry], actor: Actor) -> Result<bool, NoMemory>
    requires few { length past.now ≤ 100000000 }
    requires cpus { def.now.cpus ≤ 32 }
    requires devices { length def.now.devices ≤ 256 }
    ensures { IfOk result (λ hung. IsTrue hung ↔ IsHungPast def.now past.now actor) }
{
    let found = reached(alloc, def, past, actor)?;
    Ok(is_among(found.as_slice(), actor))
}

/// Whether the actor is one of these.
fn is_among(found: &[Actor], actor: Actor) -> bool
    ensures { result ≡ is_among found.now actor }
{
    for other in found {
        if is_same(*other, actor) {
            return true;
        }
    }
    false
}

fn is_same(first: Actor, second: Actor) -> bool
    ensures { result ≡ same_actor first second }
{
    first == second
}

/// All that the actor waits for, at once or through others.
fn reached(
    alloc: Global,
    def: &LineDef,
    past: &[Entry],
    actor: Actor,
) -> Result<Vec<Actor>, NoMemory>
    requires few { length past.now ≤ 100000000 }
    requires cpus { def.now.cpus ≤ 32 }
    requires devices { length def.now.devices ≤ 256 }
    ensures { IfOk result (λ found. AreReached def.now past.now actor found.items) }
{
    let mut found = in_way_of(alloc, def, past, actor)?;
    let mut looked = 0;
    while looked < found.len() {
        let next = in_way_of(alloc, def, past, found[looked])?;
        add_new(&mut found, next.as_slice())?;
        looked += 1;
    }
    Ok(found)
}

/// Adds those of the others that aren't there.
fn add_new(found: &mut Vec<Actor>, others: &[Actor]) -> Result<(), NoMemory>
    ensures { OnOk result (found.new.items ≡ with_new others.now found.old.items) }
{
    for other in others {
        let is_new = !is_among(found.as_slice(), *other);
        add_if(found, *other, is_new)?;
    }
    Ok(())
}

fn add_if(found: &mut Vec<Actor>, actor: Actor, is_meant: bool) -> Result<(), NoMemory>
    ensures { OnOk result (found.new.items ≡ add_if is_meant actor found.old.items) }
{
    if is_meant {
        found.push(actor)?;
    }
    Ok(())
}

/// Who stands in the actor's way: nobody, where an entry is due of it.
fn in_way_of(
    alloc: Global,
    def: &LineDef,
    past: &[Entry],
    actor: Actor,
) -> Result<Vec<Actor>, NoMemory>
    requires few { length past.now ≤ 100000000 }
    requires cpus { def.now.cpus ≤ 32 }
    requires devices { length def.now.devices ≤ 256 }
    ensures { IfOk result (λ found. AreInWay def.now past.now actor found.items) }
{
    if next_past(alloc, def, past, actor)?.is_some() {
        return Ok(Vec::new(alloc));
    }
    let want = wanted(alloc, def, past, actor)?;
    standing_in(alloc, def, past, want)
}

/// Who stands in the way of what is wanted.
fn standing_in(
    alloc: Global,
    def: &LineDef,
    past: &[Entry],
    want: Want,
) -> Result<Vec<Actor>, NoMemory>
    ensures { IfOk result (λ found. StandIn def.now past.now (want_of want) found.items) }
{
    let all = all_in_way(alloc, def, past)?;
    let mut found = Vec::new(alloc);
    for actor in all.as_slice() {
        let is_meant = stands_in(def, past, want, *actor);
        add_if(&mut found, *actor, is_meant)?;
    }
    Ok(found)
}

/// All who may stand in anybody's way: the threads of which entries tell, the flow's processor, and
/// who holds the request mutex.
fn all_in_way(alloc: Global, def: &LineDef, past: &[Entry]) -> Result<Vec<Actor>, NoMemory>
    ensures { IfOk result (λ all. all.items ≡ all_in_way def.now past.now) }
{
    let mut all = threads_told(alloc, past)?;
    add_some(&mut all, flow_actor(def, past))?;
    add_some(&mut all, mutex_holder(past))?;
    Ok(all)
}

fn add_some(all: &mut Vec<Actor>, actor: Option<Actor>) -> Result<(), NoMemory>
    ensures { OnOk result (all.new.items ≡ all.old.items ++ listed actor) }
{
    match actor {
        Some(actor) => Ok(all.push(actor)?),
        None => Ok(()),
    }
}

/// The threads of which entries tell.
fn threads_told(alloc: Global, past: &[Entry]) -> Result<Vec<Actor>, NoMemory>
    ensures { IfOk result (λ all. all.items ≡ threads_told past.now) }
{
    let mut all = Vec::new(alloc);
    for entry in past {
        add_some(&mut all, thread_told(*entry))?;
    }
    Ok(all)
}

/// The processor of the flow.
fn flow_actor(def: &LineDef, past: &[Entry]) -> Option<Actor>
    ensures { result ≡ flow_actor (flow def.now past.now) }
{
    match flow(def, past) {
        Some(cpu) => Some(Actor::Cpu(cpu)),
        None => None,
    }
}

/// The thread that the entry wakes or is of, or may wake.
fn thread_told(entry: Entry) -> Option<Actor>
    ensures { result ≡ thread_told entry }
{
    match entry {
        Entry::Cpu(_, CpuEntry::Return { dev, .. }) => Some(Actor::Thread(dev)),
        Entry::Thread(dev, _) => Some(Actor::Thread(dev)),
        _ => match call_of(entry) {
            Some(CallEntry::Wake { dev, .. }) => Some(Actor::Thread(dev)),
            _ => None,
        },
    }
}

/// Whether the actor stands in the way of what is wanted.
fn stands_in(def: &LineDef, past: &[Entry], want: Want, actor: Actor) -> bool
    ensures { result ≡ stands_in def.now past.now (want_of want) actor }
{
    match want {
        Want::Nothing => false,
        Want::FlowEnds => match actor {
            Actor::Cpu(cpu) => is_flow_of(def, past, cpu),
            Actor::Thread(_) | Actor::Driver(_) => false,
        },
        Want::ThreadsRest => match actor {
            Actor::Thread(dev) => is_active(past, dev),
            Actor::Cpu(_) | Actor::Driver(_) => false,
        },
        Want::ThreadRests(dev) => match actor {
            Actor::Thread(other) => dev == other && is_active(past, dev),
            Actor::Cpu(_) | Actor::Driver(_) => false,
        },
        Want::MutexFree => match mutex_holder(past) {
            Some(holder) => is_same(holder, actor),
            None => false,
        },
    }
}

/// Whether the flow is on the processor.
fn is_flow_of(def: &LineDef, past: &[Entry], cpu: CpuNo) -> bool
    ensures { result ≡ is_cpu cpu (flow def.now past.now) }
{
    match flow(def, past) {
        Some(other) => cpu == other,
        None => false,
    }
}

/// Whether the thread is woken or in a run.
fn is_active(past: &[Entry], dev: DevNo) -> bool
    ensures { result ≡ is_active past.now dev }
{
    is_woken(past, dev) || is_running(past, dev)
}

/// What the actor's next step waits for, if it isn't due.
fn wanted(alloc: Global, def: &LineDef, past: &[Entry], actor: Actor) -> Result<Want, NoMemory>
    requires few { length past.now ≤ 100000000 }
    ensures { IfOk result (λ want. want_of want ≡ wanted def.now actor past.now) }
{
    match actor {
        Actor::Driver(driver) => Ok(wanted_of(due_call(alloc, def, driver, past)?)),
        Actor::Thread(dev) => wanted_by_thread(alloc, def, dev, past),
        Actor::Cpu(cpu) => wanted_by_cpu(alloc, def, cpu, past),
    }
}

/// What the thread's next step waits for: once its handler has returned, the flow.
fn wanted_by_thread(
    alloc: Global,
    def: &LineDef,
    dev: DevNo,
    past: &[Entry],
) -> Result<Want, NoMemory>
    requires few { length past.now ≤ 100000000 }
    ensures { IfOk result (λ want. want_of want ≡ wanted_by_thread def.now dev past.now) }
{
    if !is_running(past, dev) {
        return Ok(Want::Nothing);
    }
    if has_returned(past, dev) {
        return Ok(Want::FlowEnds);
    }
    let due = due_in_run(alloc, def, Part::Thread, dev, past)?;
    Ok(wanted_of(due))
}

/// What the processor's next step waits for.
fn wanted_by_cpu(alloc: Global, def: &LineDef, cpu: CpuNo, past: &[Entry]) -> Result<Want, NoMemory>
    requires few { length past.now ≤ 100000000 }
    ensures { IfOk result (λ want. want_of want ≡ wanted_by_cpu def.now cpu past.now) }
{
    if !is_flow_of(def, past, cpu) {
        return Ok(Want::Nothing);
    }
    wanted_at_work(alloc, def, at_work(past), past)
}

/// What the handler's next step waits for.
fn wanted_at_work(
    alloc: Global,
    def: &LineDef,
    dev: Option<DevNo>,
    past: &[Entry],
) -> Result<Want, NoMemory>
    requires few { length past.now ≤ 100000000 }
    ensures { IfOk result (λ want. want_of want ≡ wanted_at_work def.now dev past.now) }
{
    let Some(dev) = dev else {
        return Ok(Want::Nothing);
    };
    let due = due_in_run(alloc, def, Part::Primary, dev, past)?;
    Ok(wanted_of(due))
}

/// What a due call waits for, if there is one.
fn wanted_of(due: Option<(Call, usize)>) -> Want
    ensures { want_of result ≡ wanted_of due }
{
    match due {
        Some((call, made)) => wanted_by(call, made),
        None => Want::Nothing,
    }
}

/// What a due call waits for that has made so many entries.
fn wanted_by(call: Call, made: usize) -> Want
    ensures { want_of result ≡ wanted_by (call, made) }
{
    match call {
        Call::Request { .. } => Want::MutexFree,
        Call::Free { dev } => match made {
            0 => Want::MutexFree,
            1 => Want::FlowEnds,
            _ => Want::ThreadRests(dev),
        },
        Call::Disable => match made {
            0 => Want::Nothing,
            1 => Want::FlowEnds,
            _ => Want::ThreadsRest,
        },
        Call::Sync => match made {
            0 => Want::FlowEnds,
            _ => Want::ThreadsRest,
        },
        Call::SyncHard => Want::FlowEnds,
        Call::DisableHard => match made {
            0 => Want::Nothing,
            _ => Want::FlowEnds,
        },
        Call::Ask { .. }
        | Call::DisableNosync
        | Call::Enable
        | Call::Affinity { .. }
        | Call::Moment { .. }
        | Call::Wake { .. }
        | Call::Quiet { .. }
        | Call::Arm { .. }
        | Call::Serve { .. } => Want::Nothing,
    }
}
