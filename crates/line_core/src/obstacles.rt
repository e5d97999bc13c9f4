//! What stands in the way of an actor that has no entry due: it is read off the state.
ghost use Rattle.std.specs.Prelude.{◌≡◌, None, option_map};
ghost use Rattle.irq_base.specs.declared.lines.LineDef.{LineDef};
ghost use Rattle.act_thread.specs.Steps.{is_in_run};
ghost use Rattle.line_state.specs.Seen.{IsScripted};
ghost use Rattle.line_obstacles.specs.Obstacles.{lower, lowest_that};
ghost use Rattle.line_core.specs.InWay.{busy_in, by_cpu, by_freed, by_take, by_thread, by_wait};
ghost use Rattle.line_core.specs.InWay.{flow_by};

use crate::line::Line;
use act_thread::Stage;
use irq_base::{Actor, Chip, CpuNo, DevNo, DeviceList, WaitFor};
use line_obstacles::{Obstacle, TellsObstacles};
use line_scripts::wait_of;
use line_state::LineState;

impl<C: Chip + Drop> TellsObstacles for Line<C> {
    fn obstacle(&self, actor: Actor) -> Option<Obstacle> {
        match actor {
            Actor::Cpu(cpu) => of_cpu(&self.state, &self.def.devices, cpu),
            Actor::Thread(dev) => of_thread(&self.state, &self.def.devices, dev),
            Actor::Driver(driver) => match self.scripts.due(driver) {
                Some((call, made)) => of_wait(&self.state, &self.def.devices, wait_of(call, made)),
                None => None,
            },
        }
    }
}

/// What keeps the processor: in its flow what its handler's call waits for, else what keeps
/// interrupts from it.
fn of_cpu<C: Chip>(state: &LineState<C>, devices: &DeviceList, cpu: CpuNo) -> Option<Obstacle>
    ensures { (def : LineDef) → IsScripted def state.now
        → result ≡ by_cpu def state.now.state devices.now cpu }
{
    if state.in_flow() == Some(cpu) {
        return of_wait(state, devices, state.wait_of_handler());
    }
    of_take(state, cpu)
}

/// What keeps interrupts from the processor.
fn of_take<C: Chip>(state: &LineState<C>, cpu: CpuNo) -> Option<Obstacle>
    ensures { result ≡ by_take state.now.state cpu }
{
    if !state.chip().signal() && !state.desc().soft() {
        return Some(if state.desc().masked() {
            Obstacle::Masked
        } else {
            Obstacle::NoSignal
        });
    }
    let target = state.aim().target();
    if cpu == target {
        None
    } else {
        Some(Obstacle::Target(target))
    }
}

/// What keeps the thread from its next entry: in a run what its call waits for, and to finish a
/// flow.
fn of_thread<C: Chip>(state: &LineState<C>, devices: &DeviceList, dev: DevNo) -> Option<Obstacle>
    ensures { (def : LineDef) → IsScripted def state.now
        → result ≡ by_thread def state.now.state devices.now dev }
{
    let row = state.threads().get(dev)?;
    if !is_in_run(row.stage) || state.due_of_thread(dev).is_some() {
        return None;
    }
    of_wait(state, devices, state.wait_of_thread(dev))
}

/// Whether the thread is in a run.
fn is_in_run(stage: Stage) -> bool
    ensures { result ≡ is_in_run stage }
{
    match stage {
        Stage::Idle => false,
        Stage::Begun | Stage::Returned | Stage::Finished => true,
    }
}

/// Who keeps a call that waits for this from its next entry.
fn of_wait<C: Chip>(state: &LineState<C>, devices: &DeviceList, wait: WaitFor) -> Option<Obstacle>
    ensures { result ≡ by_wait state.now.state devices.now wait }
{
    match wait {
        WaitFor::Nothing => None,
        WaitFor::Flow => of_flow(state),
        WaitFor::Threads => {
            let dev = lowest_at_work(state, devices)?;
            Some(Obstacle::Thread(dev))
        }
        WaitFor::Mutex => {
            let (maker, _) = state.freeing()?;
            Some(Obstacle::Mutex(maker))
        }
        WaitFor::Freed => of_free(state),
    }
}

/// The flow in progress.
fn of_flow<C: Chip>(state: &LineState<C>) -> Option<Obstacle>
    ensures { result ≡ flow_by state.now.state }
{
    let cpu = state.in_flow()?;
    Some(Obstacle::Flow(cpu))
}

/// The thread of the device that is being freed, if it isn't at rest.
fn of_free<C: Chip>(state: &LineState<C>) -> Option<Obstacle>
    ensures { result ≡ by_freed state.now.state state.now.state.freeing }
{
    match state.freeing() {
        Some((_, dev)) if !state.is_at_rest(dev) => Some(Obstacle::Thread(dev)),
        _ => None,
    }
}

/// The lowest by number of the devices whose threads aren't at rest.
fn lowest_at_work<C: Chip>(state: &LineState<C>, devices: &DeviceList) -> Option<DevNo>
    ensures { result ≡ lowest_that (busy_in state.now.state) devices.now }
{
    let mut lowest = None;
    let mut place = devices.len();
    while place > 0 {
        place -= 1;
        let Some(device) = devices.get(place) else {
            unreachable!();
        };
        if !state.is_at_rest(device.dev) {
            lowest = Some(lower(device.dev, lowest));
        }
    }
    lowest
}

/// The device with the lower number.
fn lower(dev: DevNo, other: Option<DevNo>) -> DevNo
    ensures { result ≡ lower dev other }
{
    match other {
        Some(other) if other.0 < dev.0 => other,
        _ => dev,
    }
}
