//! The memory that a step needs, taken before anything changes.
ghost use Rattle.std.specs.Prelude.{◌≡◌, ◌≤◌, true, false, IsOk, OnOk, OnErr};
ghost use Rattle.line_state.specs.Entries.{links_by};

use irq_base::{Chip, History, NoMemory};
use line_state::{DueStep, LineState};

/// Makes room for the action of a request that is linked, and for one more entry. The room for the
/// action comes first: if the other is refused, nothing of the history has changed.
#[inline(always)]
pub(crate) fn make_room<C: Chip>(
    state: &mut LineState<C>,
    history: &mut History,
    step: DueStep,
) -> Result<(), NoMemory>
    ensures state { state.new.state ≡ state.old.state }
    ensures fixed { state.new.fixed ≡ state.old.fixed }
    ensures entries { history.new.entries ≡ history.old.entries }
    ensures room { OnOk result (1 ≤ history.new.spare) }
    ensures grows { OnOk result (history.old.spare ≤ history.new.spare) }
    ensures action { OnOk result (links_by state.new.state step ≡ true → 1 ≤ state.new.spare) }
    ensures refused { OnErr result (history.new ≡ history.old) }
    ensures needless { links_by state.old.state step ≡ false → 1 ≤ history.old.spare
        → IsOk result }
{
    if state.links(step) {
        state.reserve()?;
    }
    make_place(history)
}

/// Makes room for one more entry, if there is none.
#[inline(always)]
pub(crate) fn make_place(history: &mut History) -> Result<(), NoMemory>
    ensures room { OnOk result (1 ≤ history.new.spare) }
    ensures entries { history.new.entries ≡ history.old.entries }
    ensures grows { history.old.spare ≤ history.new.spare }
    ensures needed { OnErr result (history.old.spare ≡ 0) }
    ensures refused { OnErr result (history.new ≡ history.old) }
    ensures kept { 1 ≤ history.old.spare → history.new ≡ history.old }
{
    if history.spare() == 0 {
        history.reserve(1)?;
    }
    Ok(())
}
