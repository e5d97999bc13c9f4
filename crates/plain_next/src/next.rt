//! The table of steps: the one entry that an actor may add.
ghost use Rattle.std.specs.Prelude.{◌≡◌, ◌+◌, ◌<◌, ◌≤◌, ◌∷◌, drop, length, reverse, IfOk};
ghost use Rattle.irq_model.specs.Next.{next, next_past};

use crate::lines::has_device;
use crate::next_cpu::next_of_cpu;
use crate::next_driver::next_of_driver;
use crate::next_thread::next_of_thread;
use irq_base::{Actor, DevNo, Entry, History, LineDef, NoMemory};
use std::alloc::Global;

/// The entries of the history, the newest first.
pub fn newest_first(alloc: Global, history: &History) -> Result<Vec<Entry>, NoMemory>
    ensures { IfOk result (λ past. past.items ≡ reverse history.now.entries) }
{
    let mut past = Vec::with_capacity(alloc, history.len())?;
    for i in (0..history.len()).rev() {
        past.push(entry_at(history, i))?;
    }
    Ok(past)
}

/// The entry that is due for the actor, after a past whose newest entry comes first.
pub fn next_past(
    alloc: Global,
    def: &LineDef,
    past: &[Entry],
    actor: Actor,
) -> Result<Option<Entry>, NoMemory>
    requires few { length past.now ≤ 100000000 }
    requires cpus { def.now.cpus ≤ 32 }
    requires devices { length def.now.devices ≤ 256 }
    ensures { IfOk result (λ entry. entry ≡ next_past def.now past.now actor) }
{
    match actor {
        Actor::Thread(d) => next_of_own_thread(alloc, def, d, past),
        Actor::Cpu(c) => next_of_cpu(alloc, def, c, past),
        Actor::Driver(r) => next_of_driver(alloc, def, r, past),
    }
}

/// The entry that is due for the actor, or none if it may add none, for any history of the line. It
/// is read off the definitions, and faster programs are compared with it. It may take time in the
/// order of the square of the history's length.
///
/// The definition need not be one that a board can have: whatever it says, as long as it has at
/// most 32 processors and 256 devices, and the history at most 100,000,000 entries, the answer is
/// what the table of steps says of it.
///
/// # Errors
///
/// `NoMemory` if memory was needed and refused, and nothing else.
pub fn next_slow(
    alloc: Global,
    def: &LineDef,
    history: &History,
    actor: Actor,
) -> Result<Option<Entry>, NoMemory>
    requires few { length history.now.entries ≤ 100000000 }
    requires cpus { def.now.cpus ≤ 32 }
    requires devices { length def.now.devices ≤ 256 }
    ensures { IfOk result (λ x. x ≡ next def.now history.now.entries actor) }
{
    let past = newest_first(alloc, history)?;
    next_past(alloc, def, &past, actor)
}

/// The entry at index `place` of the history, the oldest first.
#[tactic(auto, using(irq_model::proofs::Lists::next_item))]
fn entry_at(history: &History, place: usize) -> Entry
    requires { place < length history.now.entries }
    ensures { drop place history.now.entries ≡ result ∷ drop (place + 1) history.now.entries }
{
    match history.get(place) {
        Some(e) => e,
        None => unreachable!(),
    }
}

/// The entry that is due for the thread of the device; none if the line lacks the device.
fn next_of_own_thread(
    alloc: Global,
    def: &LineDef,
    dev: DevNo,
    past: &[Entry],
) -> Result<Option<Entry>, NoMemory>
    requires few { length past.now ≤ 100000000 }
    requires devices { length def.now.devices ≤ 256 }
    ensures { IfOk result (λ entry. entry ≡ next_past def.now past.now (Actor.Thread dev)) }
{
    if !has_device(def, dev) {
        return Ok(None);
    }
    next_of_thread(alloc, def, dev, past)
}
