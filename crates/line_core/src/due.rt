//! The step that is due of an actor, for those who have a state and no history. Nothing changes
//! here.
ghost use Rattle.std.specs.Prelude.{◌≡◌, IfSome, option_map};
ghost use Rattle.irq_base.specs.declared.lines.LineDef.{LineDef};
ghost use Rattle.line_marks.specs.DriversDue.{driver_due};
ghost use Rattle.line_marks.specs.Next.{due_by, due_call_in};
ghost use Rattle.line_state.specs.Entries.{entry_by, driver_entry};
ghost use Rattle.line_state.specs.Running.{IsAbout};
ghost use Rattle.line_state.specs.Seen.{IsScripted};

use irq_base::{Actor, Chip, DriverNo};
use line_scripts::Scripts;
use line_state::{DriverStep, DueStep, LineState};

/// The step that is due by the state, and for a driver by its place in its script.
#[inline(always)]
pub fn due_by<C: Chip>(state: &LineState<C>, scripts: &Scripts, actor: Actor) -> Option<DueStep>
    ensures due { (def : LineDef) → IsScripted def state.now
        → option_map (entry_by def state.now.state) result
        ≡ due_by def state.now.state scripts.now actor }
    ensures about { IfSome result (IsAbout state.now) }
{
    match actor {
        Actor::Thread(dev) => {
            let step = state.due_of_thread(dev)?;
            Some(DueStep::Thread { dev, step })
        }
        Actor::Cpu(cpu) => {
            let step = state.due_of_cpu(cpu)?;
            Some(DueStep::Cpu { cpu, step })
        }
        Actor::Driver(driver) => {
            let step = due_of_driver(state, scripts, driver)?;
            Some(DueStep::Driver { driver, step })
        }
    }
}

/// The step that is due of a driver; none if its calls are complete.
#[inline(always)]
fn due_of_driver<C: Chip>(
    state: &LineState<C>,
    scripts: &Scripts,
    driver: DriverNo,
) -> Option<DriverStep>
    ensures { (def : LineDef) → option_map (driver_entry def state.now.state driver) result
        ≡ driver_due def state.now.state driver (due_call_in scripts.now driver) }
{
    let (call, within) = scripts.due(driver)?;
    state.due_of_driver(driver, call, within)
}
