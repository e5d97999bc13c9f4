//! What a call waits for.
ghost use Rattle.std.specs.Prelude.{◌≡◌};
ghost use Rattle.irq_laws.specs.Blocks.{block_of};

use irq_base::{Call, WaitFor};

/// What the call waits for before its next entry. `made`: how many entries it has made.
pub fn wait_of(call: Call, made: u32) -> WaitFor
    ensures { result ≡ block_of call made }
{
    match (call, made) {
        (Call::Request { .. }, _) | (Call::Free { .. }, 0) => WaitFor::Mutex,
        (Call::Free { .. } | Call::Disable, 1) | (Call::Sync, 0) => WaitFor::Flow,
        (Call::SyncHard, _) | (Call::DisableHard, 1..) => WaitFor::Flow,
        (Call::Disable, 2..) | (Call::Sync, _) => WaitFor::Threads,
        (Call::Free { .. }, _) => WaitFor::Freed,
        (
            Call::Disable
            | Call::DisableHard
            | Call::Ask { .. }
            | Call::DisableNosync
            | Call::Enable
            | Call::Affinity { .. }
            | Call::Moment { .. }
            | Call::Wake { .. }
            | Call::Quiet { .. }
            | Call::Arm { .. }
            | Call::Serve { .. },
            _,
        ) => WaitFor::Nothing,
    }
}
