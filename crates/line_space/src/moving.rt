//! One step of one actor.
ghost use Rattle.std.specs.Prelude.{◌≡◌, ◌++◌, ◌<◌, ◌≤◌, [], List, length, OnOk};
ghost use Rattle.std.specs.List.{filter};
ghost use Rattle.irq_base.specs.declared.entries.Entry.{Entry};
ghost use Rattle.irq_model.specs.Legal.{IsLegalPast};
ghost use Rattle.irq_model.specs.Valid.{IsValid};
ghost use Rattle.irq_model.specs.ValidRuns.{HasValidRuns};
ghost use Rattle.line_space.specs.Reading.{IsKept, IsRead};
ghost use Rattle.line_space.specs.Stepping.{IsReached, steps_of, all_steps, actors_by, is_due_in};
ghost use Rattle.line_space.specs.Stepping.{threads_in, cpus_in, drivers_of};
ghost use Rattle.line_state.specs.Seen.{IsScripted, taker_of};
ghost use Rattle.line_words.specs.Node.{node, drivers_in};
ghost use Rattle.line_words.specs.Words.{has_more};

use crate::scratch::Scratch;
use irq_base::{Actor, CpuNo, DriverNo, Entry, LineDef, NoMemory};
use line_cell::Cell;
use line_core::{advance, due_by};
use line_state::LineState;
use state_search::Found;

/// Adds the entry that is due of the actor in the state with these numbers, which were read, if
/// there is one, and the numbers of the state after it. The only error is `NoMemory`.
pub(crate) fn add_due(
    scratch: &mut Scratch,
    def: &LineDef,
    more: bool,
    drivers: &[DriverNo],
    words: &[u32],
    actor: Actor,
    found: &mut Found<Entry>,
) -> Result<(), NoMemory>
    requires valid { IsValid def.now }
    requires runs { HasValidRuns def.now }
    requires more { more ≡ has_more def.now }
    requires drivers { drivers.now ≡ drivers_in def.now.calls }
    requires reached { IsReached def.now words.now }
    requires read { IsRead def.now words.now scratch.old }
    requires room { 1 ≤ scratch.old.state.spare }
    ensures kept { IsKept def.now scratch.new }
    ensures found { OnOk result ((past : List Entry) → IsLegalPast def.now past
        → words.now ≡ node def.now past → length past < 100000000
        → found.new ≡ found.old ++ steps_of def.now past actor) }
{
    let Some(step) = due_by(&scratch.state, &scratch.scripts, actor) else {
        return Ok(());
    };
    let entry = scratch.state.make(def, step);
    advance(&mut scratch.scripts, actor, &entry);
    scratch.add(def, more, drivers, entry, found)
}

/// Adds the entries that are due of these actors in the state with these numbers, which were read.
/// Between one step and the next they are read again. The only error is `NoMemory`.
pub(crate) fn add_all(
    scratch: &mut Scratch,
    def: &LineDef,
    more: bool,
    drivers: &[DriverNo],
    words: &[u32],
    actors: &[Actor],
    found: &mut Found<Entry>,
) -> Result<(), NoMemory>
    requires valid { IsValid def.now }
    requires runs { HasValidRuns def.now }
    requires more { more ≡ has_more def.now }
    requires drivers { drivers.now ≡ drivers_in def.now.calls }
    requires reached { IsReached def.now words.now }
    requires read { IsRead def.now words.now scratch.old }
    requires room { 1 ≤ scratch.old.state.spare }
    ensures kept { IsKept def.now scratch.new }
    ensures found { OnOk result ((past : List Entry) → IsLegalPast def.now past
        → words.now ≡ node def.now past → length past < 100000000
        → found.new ≡ found.old ++ all_steps def.now past actors.now) }
{
    let [first, others @ ..] = actors else {
        return Ok(());
    };
    add_due(scratch, def, more, drivers, words, *first, found)?;
    for actor in others {
        scratch.read(def, more, drivers, words)?;
        add_due(scratch, def, more, drivers, words, *actor, found)?;
    }
    Ok(())
}

/// Puts those of the actors into the list, which is empty, of whom something is due in the state
/// that was read. The only error is `NoMemory`.
pub(crate) fn push_due(
    due: &mut Vec<Actor>,
    def: &LineDef,
    scratch: &Scratch,
    asked: &[Actor],
) -> Result<(), NoMemory>
    requires empty { due.old.items ≡ [] }
    requires scripted { IsScripted def.now scratch.now.state }
    ensures { OnOk result (due.new.items
        ≡ filter (is_due_in def.now scratch.now.state.state scratch.now.scripts) asked.now) }
{
    for actor in asked {
        if due_by(&scratch.state, &scratch.scripts, *actor).is_some() {
            due.push(*actor)?;
        }
    }
    Ok(())
}

/// The threads. The only error is `NoMemory`.
fn push_threads(actors: &mut Vec<Actor>, def: &LineDef) -> Result<(), NoMemory>
    ensures { OnOk result
        (actors.new.items ≡ actors.old.items ++ threads_in def.now.devices) }
{
    for i in 0..def.devices.len() {
        if let Some(device) = def.devices.get(i) {
            actors.push(Actor::Thread(device.dev))?;
        }
    }
    Ok(())
}

/// The processor, if there is one. The only error is `NoMemory`.
fn push_cpu(actors: &mut Vec<Actor>, cpu: Option<CpuNo>) -> Result<(), NoMemory>
    ensures { OnOk result (actors.new.items ≡ actors.old.items ++ cpus_in cpu) }
{
    if let Some(cpu) = cpu {
        actors.push(Actor::Cpu(cpu))?;
    }
    Ok(())
}

/// The drivers. The only error is `NoMemory`.
fn push_drivers(actors: &mut Vec<Actor>, drivers: &[DriverNo]) -> Result<(), NoMemory>
    ensures { OnOk result (actors.new.items ≡ actors.old.items ++ drivers_of drivers.now) }
{
    for driver in drivers {
        actors.push(Actor::Driver(*driver))?;
    }
    Ok(())
}

/// Puts the actors for whom something may be due in the state into the list, which is empty: the
/// threads, the processor of the flow in progress, the one that takes, and the drivers. The only
/// error is `NoMemory`.
pub(crate) fn push_actors(
    actors: &mut Vec<Actor>,
    def: &LineDef,
    drivers: &[DriverNo],
    state: &LineState<Cell>,
) -> Result<(), NoMemory>
    requires { actors.old.items ≡ [] }
    ensures { OnOk result (actors.new.items ≡ actors_by def.now state.now.state.desc.flow
        (taker_of state.now.state) drivers.now) }
{
    push_threads(actors, def)?;
    push_cpu(actors, state.in_flow())?;
    push_cpu(actors, state.taker())?;
    push_drivers(actors, drivers)
}
