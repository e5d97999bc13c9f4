//! The step that is due of a driver.
ghost use Rattle.std.specs.Prelude.{◌≡◌, if◌then◌else◌, is_some, Some, None, option_map};
ghost use Rattle.irq_base.specs.declared.lines.LineDef.{LineDef};
ghost use Rattle.act_list.specs.Actions.{answer_by};
ghost use Rattle.irq_base.specs.declared.entries.Entry.TheVariants as by;
ghost use Rattle.line_marks.specs.Calls.{step_by};
ghost use Rattle.line_marks.specs.DriversDue.{request_to, driver_due};
ghost use Rattle.line_marks.specs.Facts.{kind_at};
ghost use Rattle.line_state.specs.Entries.{driver_entry};

use crate::due::DriverStep;
use crate::state::LineState;
use irq_base::{Call, Chip, DevNo, DriverNo, Flags};

impl<C: Chip> LineState<C> {
    /// The step that is due of the driver, if there is one. `call` is its first call that isn't
    /// complete, and `within` of its entries are there.
    pub fn due_of_driver(&self, driver: DriverNo, call: Call, within: u32) -> Option<DriverStep>
        ensures { (def : LineDef) → option_map (driver_entry def self.now.state driver) result
            ≡ driver_due def self.now.state driver (Some (call, within)) }
    {
        match call {
            Call::Ask { dev } => Some(DriverStep::Ask { dev }),
            Call::Request { dev, flags } => self.due_of_request(driver, dev, flags),
            Call::Affinity { mask } => Some(DriverStep::Affinity { mask }),
            Call::Moment { at } => Some(DriverStep::Moment { at }),
            Call::Free { .. }
            | Call::Disable
            | Call::DisableNosync
            | Call::Enable
            | Call::Sync
            | Call::SyncHard
            | Call::DisableHard
            | Call::Wake { .. }
            | Call::Quiet { .. }
            | Call::Arm { .. }
            | Call::Serve { .. } => self.due_of_shared(driver, call, within),
        }
    }

    /// `request_threaded_irq`, once no free is in progress.
    fn due_of_request(&self, driver: DriverNo, dev: DevNo, flags: Flags) -> Option<DriverStep>
        ensures { (def : LineDef) → option_map (driver_entry def self.now.state driver) result
            ≡ (if is_some self.now.state.freeing then None
            else Some (request_to def driver dev flags self.now.state
            (answer_by (kind_at self.now.state.facts dev) flags self.now.state.list.actions))) }
    {
        if self.freeing.is_some() {
            return None;
        }
        Some(DriverStep::Request { dev, flags })
    }

    /// A call that handlers and threads make alike.
    fn due_of_shared(&self, driver: DriverNo, call: Call, within: u32) -> Option<DriverStep>
        ensures { (def : LineDef) → option_map (driver_entry def self.now.state driver) result
            ≡ option_map (by.DriverCall driver) (step_by def self.now.state (call, within)) }
    {
        match self.due_of_step(call, within) {
            Some(step) => Some(DriverStep::Call { step }),
            None => None,
        }
    }
}
