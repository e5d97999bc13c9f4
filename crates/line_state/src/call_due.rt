//! The step of a call that is due, whoever makes it.
ghost use Rattle.std.specs.Prelude.{◌≡◌, option_map};
ghost use Rattle.irq_base.specs.declared.lines.LineDef.{LineDef};
ghost use Rattle.line_marks.specs.Calls.{clear_by, synced_by, freed_by, free_by, disable_by};
ghost use Rattle.line_marks.specs.Calls.{disable_hard_by, sync_by, step_by};
ghost use Rattle.line_state.specs.Entries.{call_made};

use crate::due::CallStep;
use crate::state::LineState;
use irq_base::{Call, Chip, DevNo};

impl<C: Chip> LineState<C> {
    /// The step that is due of the call, if there is one; `within` of its entries are there. The
    /// calls that drivers alone make have none here.
    pub(crate) fn due_of_step(&self, call: Call, within: u32) -> Option<CallStep>
        ensures { (def : LineDef) → option_map (call_made def self.now.state) result
            ≡ step_by def self.now.state (call, within) }
    {
        match call {
            Call::Free { dev } => self.due_of_free(dev, within),
            Call::Disable => self.due_of_disable(within),
            Call::DisableNosync => Some(CallStep::Disable),
            Call::Enable => Some(CallStep::Enable),
            Call::Sync => self.due_of_sync(within),
            Call::SyncHard => self.due_clear(),
            Call::DisableHard => self.due_of_disable_hard(within),
            Call::Wake { dev } => Some(CallStep::Wake { dev }),
            Call::Quiet { dev } => Some(CallStep::Quiet { dev }),
            Call::Arm { dev } => Some(CallStep::Arm { dev }),
            Call::Serve { dev } => Some(CallStep::Serve { dev }),
            Call::Ask { .. } | Call::Request { .. } | Call::Affinity { .. } | Call::Moment { .. } =>
                None,
        }
    }

    /// `free_irq`: the unlink, once no other free is in progress; then, if it found the device, the
    /// hard clear and the wait for its thread.
    fn due_of_free(&self, dev: DevNo, within: u32) -> Option<CallStep>
        ensures { (def : LineDef) → option_map (call_made def self.now.state) result
            ≡ free_by dev within self.now.state }
    {
        match within {
            0 if self.freeing.is_some() => None,
            0 => Some(CallStep::Unlink { dev }),
            1 => self.due_clear(),
            _ => self.due_freed(dev),
        }
    }

    /// The end of a free, once the device's thread is at rest.
    fn due_freed(&self, dev: DevNo) -> Option<CallStep>
        ensures { (def : LineDef) → option_map (call_made def self.now.state) result
            ≡ freed_by dev self.now.state }
    {
        if !self.threads.idle(dev) {
            return None;
        }
        Some(CallStep::Freed { dev })
    }

    /// `disable_irq`.
    fn due_of_disable(&self, within: u32) -> Option<CallStep>
        ensures { (def : LineDef) → option_map (call_made def self.now.state) result
            ≡ disable_by within self.now.state }
    {
        match within {
            0 => Some(CallStep::Disable),
            1 => self.due_clear(),
            _ => self.due_synced(),
        }
    }

    /// `disable_hardirq`.
    fn due_of_disable_hard(&self, within: u32) -> Option<CallStep>
        ensures { (def : LineDef) → option_map (call_made def self.now.state) result
            ≡ disable_hard_by within self.now.state }
    {
        match within {
            0 => Some(CallStep::Disable),
            _ => self.due_clear(),
        }
    }

    /// `synchronize_irq`.
    fn due_of_sync(&self, within: u32) -> Option<CallStep>
        ensures { (def : LineDef) → option_map (call_made def self.now.state) result
            ≡ sync_by within self.now.state }
    {
        match within {
            0 => self.due_clear(),
            _ => self.due_synced(),
        }
    }

    /// `__synchronize_hardirq`, once no flow is in progress.
    fn due_clear(&self) -> Option<CallStep>
        ensures { (def : LineDef)
            → option_map (call_made def self.now.state) result ≡ clear_by self.now.state }
    {
        if self.desc.flow().is_some() {
            return None;
        }
        Some(CallStep::HardClear)
    }

    /// The end of `synchronize_irq`, once all threads are at rest.
    fn due_synced(&self) -> Option<CallStep>
        ensures { (def : LineDef)
            → option_map (call_made def self.now.state) result ≡ synced_by self.now.state }
    {
        if self.threads.active() > 0 {
            return None;
        }
        Some(CallStep::Synced)
    }
}
