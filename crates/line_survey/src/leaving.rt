//! How a state leaves the line.
ghost use Rattle.std.specs.Prelude.{◌≡◌, ◌<◌, ◌^◌};
ghost use Rattle.irq_model.specs.Valid.{IsValid};
ghost use Rattle.irq_model.specs.ValidRuns.{HasValidRuns};
ghost use Rattle.device_table.specs.Rows.{at};
ghost use Rattle.line_state.specs.Seen.{IsScripted};
ghost use Rattle.line_survey.specs.LeftSeen.{left_seen, standing_seen, unserved_in, unserved_seen};

use ask_counts::AskRow;
use irq_base::{LineDef, Trigger};
use line_cell::Cell;
use line_core::lowest_hung;
use line_scripts::Scripts;
use line_state::LineState;
use line_wanted::{Left, Standing};

/// How the line stands.
fn standing_in(state: &LineState<Cell>) -> Standing
    ensures { result ≡ standing_seen state.now.state }
{
    let desc = state.desc().marks();
    if state.actions().is_empty() {
        Standing::Stopped
    } else if desc.depth == 0 {
        Standing::Enabled
    } else if desc.spurious {
        Standing::Killed
    } else {
        Standing::Disabled
    }
}

/// The unserved asks of a row.
fn unserved_of(row: Option<AskRow>) -> u64
    ensures count { result ≡ unserved_seen row }
    ensures few { result < 2 ^ 32 }
{
    match row {
        Some(row) => row.unserved as u64,
        None => 0,
    }
}

/// The unserved asks of all devices.
fn unserved(def: &LineDef, state: &LineState<Cell>) -> u64
    requires { IsValid def.now }
    ensures { result ≡ unserved_in state.now.state.asks def.now.devices }
{
    let mut sum = 0;
    for i in 0..def.devices.len() {
        if let Some(device) = def.devices.get(i) {
            sum += unserved_of(state.asks().get(device.dev));
        }
    }
    sum
}

/// How the state, and the drivers' places in their scripts, leave the line.
pub(crate) fn left_in(def: &LineDef, state: &LineState<Cell>, scripts: &Scripts) -> Left
    requires { IsValid def.now }
    ensures { HasValidRuns def.now → IsScripted def.now state.now
        → result ≡ left_seen def.now state.now.state scripts.now }
{
    let edge = def.trigger == Trigger::Edge;
    Left {
        hung: lowest_hung(state, scripts),
        standing: standing_in(state),
        unserved: unserved(def, state),
        stored: edge && state.chip().marks().stored,
        pending: edge && state.desc().marks().pending,
    }
}
