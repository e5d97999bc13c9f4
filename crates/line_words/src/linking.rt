//! The linked devices.
ghost use Rattle.std.specs.Prelude.{◌≡◌, ◌++◌, OnOk};
ghost use Rattle.act_list.specs.Lists.{flags_of};
ghost use Rattle.line_words.specs.Again.{CanLinkAll};
ghost use Rattle.line_words.specs.Reading.{linked_in, flags_in, with_linked};
ghost use Rattle.line_words.specs.Runs.{AreSameRuns};
ghost use Rattle.line_words.specs.Tables.{AreSameTables};
ghost use Rattle.line_words.specs.Words.{linked_words};

use crate::words::flag;
use irq_base::{DevNo, Flags, NoMemory};
use line_cell::Cell;
use line_state::LineState;

/// The flags of a request.
fn flags(shared: u32, oneshot: u32, noauto: u32) -> Flags
    ensures { result ≡ flags_in shared oneshot noauto }
{
    Flags {
        shared: shared == 1,
        oneshot: oneshot == 1,
        noauto: noauto == 1,
    }
}

/// Links the devices, one after another. The only error is `NoMemory`.
pub(crate) fn link(state: &mut LineState<Cell>, words: &[u32]) -> Result<(), NoMemory>
    requires { CanLinkAll (linked_in words.now) state.old.state.list.actions }
    ensures linked { OnOk result (state.new.state ≡ with_linked words.now state.old.state) }
    ensures tables { AreSameTables state.old.state state.new.state }
    ensures runs { AreSameRuns state.old state.new }
{
    let mut left = words;
    while let [dev, shared, oneshot, noauto, rest @ ..] = left {
        state.reserve()?;
        state.relink(DevNo(*dev), flags(*shared, *oneshot, *noauto))?;
        left = rest;
    }
    Ok(())
}

/// Writes the numbers of the linked devices. The only error is `NoMemory`.
pub(crate) fn write_linked(state: &LineState<Cell>, words: &mut Vec<u32>) -> Result<(), NoMemory>
    ensures { OnOk result
        (words.new.items
        ≡ words.old.items ++ linked_words (flags_of state.now.state.list.actions)) }
{
    let actions = state.actions();
    let mut place = 0;
    while let Some((dev, action)) = actions.action(place) {
        let flags = action.flags;
        words.extend_from_slice(&[
            dev.0,
            flag(flags.shared),
            flag(flags.oneshot),
            flag(flags.noauto),
        ])?;
        place += 1;
    }
    Ok(())
}
