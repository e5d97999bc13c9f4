//! Who is hung: who waits for himself, at once or through others.
ghost use Rattle.std.specs.Prelude.{◌≡◌};
ghost use Rattle.irq_base.specs.declared.lines.LineDef.{LineDef};
ghost use Rattle.irq_model.specs.ValidRuns.{HasValidRuns};
ghost use Rattle.line_state.specs.Seen.{IsScripted};
ghost use Rattle.line_core.specs.Hanging.{is_sync, is_thread_hung, is_thread_of, lowest_hung_by};
ghost use Rattle.line_core.specs.Hanging.{lowest_hung_thread, spinning_in, wait_of_actor, way_from};

use irq_base::{Actor, Chip, CpuNo, DevNo, WaitFor};
use line_scripts::{Scripts, wait_of};
use line_state::LineState;

/// How many devices a line has at most.
const MOST_DEVICES: u32 = 256;

/// How many waits there are at most from a thread back to itself: for the request mutex, of who
/// holds it for the thread of a device, and of that thread.
const LONGEST_WAY: usize = 3;

/// The lowest actor that is hung, if there is one, by the state and the drivers' places in their
/// scripts. Threads come first. It is no driver: a driver that waits for itself does so through the
/// thread of the device that it frees, and that thread is hung as well.
pub fn lowest_hung<C: Chip>(state: &LineState<C>, scripts: &Scripts) -> Option<Actor>
    ensures { (def : LineDef) → HasValidRuns def → IsScripted def state.now
        → result ≡ lowest_hung_by def state.now.state scripts.now }
{
    if !state.runs().may_wait() {
        return None;
    }
    match lowest_hung_thread(state, scripts) {
        Some(dev) => Some(Actor::Thread(dev)),
        None => Some(Actor::Cpu(spinning(state)?)),
    }
}

/// The lowest device by number whose thread is hung.
fn lowest_hung_thread<C: Chip>(state: &LineState<C>, scripts: &Scripts) -> Option<DevNo>
    ensures { (def : LineDef) → IsScripted def state.now
        → result ≡ lowest_hung_thread def state.now.state scripts.now }
{
    for rank in 0..MOST_DEVICES {
        let dev = state.threads().device(rank)?;
        if is_thread_hung(state, scripts, dev) {
            return Some(dev);
        }
    }
    None
}

/// The flow's processor, if it has no entry due.
fn spinning<C: Chip>(state: &LineState<C>) -> Option<CpuNo>
    ensures { (def : LineDef) → HasValidRuns def → IsScripted def state.now
        → result ≡ spinning_in def state.now.state }
{
    if state.spins() { state.in_flow() } else { None }
}

/// Whether the device's thread is hung: what it waits for leads back to it.
fn is_thread_hung<C: Chip>(state: &LineState<C>, scripts: &Scripts, dev: DevNo) -> bool
    ensures { (def : LineDef) → IsScripted def state.now
        → result ≡ is_thread_hung def state.now.state scripts.now dev }
{
    let mut at = Actor::Thread(dev);
    for _ in 0..LONGEST_WAY {
        let wait = wait_of_actor(state, scripts, at);
        if is_sync(wait) {
            // A thread that syncs waits for its own run, and for that of the first.
            return true;
        }
        match way_from(state, wait) {
            Some(next) => {
                if is_thread_of(dev, next) {
                    return true;
                }
                at = next;
            }
            None => return false,
        }
    }
    false
}

/// Whether all threads are waited for.
fn is_sync(wait: WaitFor) -> bool
    ensures { result ≡ is_sync wait }
{
    matches!(wait, WaitFor::Threads)
}

/// Whether the actor is the device's thread.
fn is_thread_of(dev: DevNo, actor: Actor) -> bool
    ensures { result ≡ is_thread_of dev actor }
{
    match actor {
        Actor::Thread(other) => dev == other,
        Actor::Cpu(_) | Actor::Driver(_) => false,
    }
}

/// What the actor's next entry waits for.
fn wait_of_actor<C: Chip>(state: &LineState<C>, scripts: &Scripts, actor: Actor) -> WaitFor
    ensures { (def : LineDef) → IsScripted def state.now
        → result ≡ wait_of_actor def state.now.state scripts.now actor }
{
    match actor {
        Actor::Thread(dev) => state.wait_of_thread(dev),
        Actor::Cpu(_) => WaitFor::Nothing,
        Actor::Driver(driver) => match scripts.due(driver) {
            Some((call, made)) => wait_of(call, made),
            None => WaitFor::Nothing,
        },
    }
}

/// Who is waited for, where others may wait in turn: who holds the request mutex, or the thread of
/// the device that is being freed. The flow's processor waits for itself alone.
fn way_from<C: Chip>(state: &LineState<C>, wait: WaitFor) -> Option<Actor>
    ensures { result ≡ way_from state.now.state wait }
{
    let (maker, dev) = state.freeing()?;
    match wait {
        WaitFor::Mutex => Some(maker),
        WaitFor::Freed if !state.is_at_rest(dev) => Some(Actor::Thread(dev)),
        WaitFor::Freed | WaitFor::Nothing | WaitFor::Flow | WaitFor::Threads => None,
    }
}
