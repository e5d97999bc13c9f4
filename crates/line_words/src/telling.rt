//! The numbers of the tables' rows.
ghost use Rattle.std.specs.Prelude.{◌≡◌, ◌++◌, [], ◌∷◌, OnOk, unwrap_or, if◌then◌else◌};
ghost use Rattle.act_thread.specs.Steps.{idle_row};
ghost use Rattle.ask_counts.specs.Rows.{no_asks};
ghost use Rattle.device_table.specs.Rows.{at};
ghost use Rattle.line_futures.specs.Canon.{canon, canon_row, kept_if, is_working, is_serving};
ghost use Rattle.line_futures.specs.Canon.{is_thread_working};
ghost use Rattle.line_words.specs.Told.{rows_words, begun_told, thread_told, ask_told};
ghost use Rattle.line_words.specs.Words.{stage_word};

use crate::words::flag;
use act_thread::{Stage, ThreadRow};
use ask_counts::AskRow;
use irq_base::{DevNo, DeviceList, NoMemory, Part};
use line_cell::Cell;
use line_state::LineState;

/// Whether the device's handler was called in the round of a flow in progress: 1 or 0.
fn begun(state: &LineState<Cell>, dev: DevNo) -> u32
    ensures { result ∷ [] ≡ begun_told (canon state.now.state) dev [] }
{
    flag(state.in_flow().is_some() && state.actions().has_begun(dev))
}

/// Writes these numbers of all devices. The only error is `NoMemory`.
pub(crate) fn write_begun(
    state: &LineState<Cell>,
    devices: &DeviceList,
    words: &mut Vec<u32>,
) -> Result<(), NoMemory>
    ensures { OnOk result (words.new.items
        ≡ words.old.items ++ rows_words (begun_told (canon state.now.state)) devices.now []) }
{
    for i in 0..devices.len() {
        if let Some(device) = devices.get(i) {
            words.push(begun(state, device.dev))?;
        }
    }
    Ok(())
}

fn stage_word(stage: Stage) -> u32
    ensures { result ≡ stage_word stage }
{
    match stage {
        Stage::Idle => 0,
        Stage::Begun => 1,
        Stage::Returned => 2,
        Stage::Finished => 3,
    }
}

/// The row of the device's thread.
fn thread_row(state: &LineState<Cell>, dev: DevNo) -> ThreadRow
    ensures { result ≡ unwrap_or (at state.now.state.threads dev) idle_row }
{
    match state.threads().get(dev) {
        Some(row) => row,
        None => ThreadRow {
            woken: false,
            stage: Stage::Idle,
            held: false,
        },
    }
}

/// The numbers of the device's thread.
fn thread(state: &LineState<Cell>, dev: DevNo) -> [u32; 3]
    ensures { result ≡ thread_told (canon state.now.state) dev [] }
{
    let row = thread_row(state, dev);
    [flag(row.woken), stage_word(row.stage), flag(row.held)]
}

/// Writes them of all devices. The only error is `NoMemory`.
pub(crate) fn write_threads(
    state: &LineState<Cell>,
    devices: &DeviceList,
    words: &mut Vec<u32>,
) -> Result<(), NoMemory>
    ensures { OnOk result (words.new.items
        ≡ words.old.items ++ rows_words (thread_told (canon state.now.state)) devices.now []) }
{
    for i in 0..devices.len() {
        if let Some(device) = devices.get(i) {
            words.extend_from_slice(&thread(state, device.dev))?;
        }
    }
    Ok(())
}

/// Whether the device's handler is at work.
pub(crate) fn is_working(state: &LineState<Cell>, dev: DevNo) -> bool
    ensures { result ≡ is_working state.now.state.round.working dev }
{
    match state.round().working() {
        Some(working) => dev == working,
        None => false,
    }
}

/// Whether the handler of its thread is at work.
pub(crate) fn is_thread_working(state: &LineState<Cell>, dev: DevNo) -> bool
    ensures { result ≡ is_thread_working state.now.state.threads dev }
{
    match state.threads().get(dev) {
        Some(row) => row.stage == Stage::Begun,
        None => false,
    }
}

/// Whether the run of the part that serves is at work.
fn is_serving(serving: Option<Part>, handler: bool, thread: bool) -> bool
    ensures { result ≡ is_serving serving handler thread }
{
    match serving {
        Some(Part::Primary) => handler,
        Some(Part::Thread) => thread,
        None => false,
    }
}

pub(crate) fn kept_if(keep: bool, count: u32) -> u32
    ensures { result ≡ kept_if keep count }
{
    if keep { count } else { 0 }
}

/// Of a row of asks what matters still.
fn canon_row(serving: bool, handler: bool, thread: bool, row: AskRow) -> AskRow
    ensures { result ≡ canon_row serving handler thread row }
{
    AskRow {
        unserved: row.unserved,
        fresh: kept_if(serving, row.fresh),
        met_by_handler: kept_if(handler, row.met_by_handler),
        met_by_thread: kept_if(thread, row.met_by_thread),
        quiet: row.quiet,
    }
}

/// Of the device's asks what matters still.
fn ask_row(state: &LineState<Cell>, dev: DevNo) -> AskRow
    ensures { result ≡ unwrap_or (at (canon state.now.state).asks dev) no_asks }
{
    let handler = is_working(state, dev);
    let thread = is_thread_working(state, dev);
    let facts = state.facts().get(dev);
    let serving = is_serving(facts.serving, handler, thread);
    match state.asks().get(dev) {
        Some(row) => canon_row(serving, handler, thread, row),
        None => AskRow {
            unserved: 0,
            fresh: 0,
            met_by_handler: 0,
            met_by_thread: 0,
            quiet: false,
        },
    }
}

/// The numbers of the device's asks. Whether it is quiet stands elsewhere.
fn asks(state: &LineState<Cell>, dev: DevNo) -> [u32; 4]
    ensures { result ≡ ask_told (canon state.now.state) dev [] }
{
    let row = ask_row(state, dev);
    [
        row.unserved,
        row.fresh,
        row.met_by_handler,
        row.met_by_thread,
    ]
}

/// Writes them of all devices. The only error is `NoMemory`.
pub(crate) fn write_asks(
    state: &LineState<Cell>,
    devices: &DeviceList,
    words: &mut Vec<u32>,
) -> Result<(), NoMemory>
    ensures { OnOk result (words.new.items
        ≡ words.old.items ++ rows_words (ask_told (canon state.now.state)) devices.now []) }
{
    for i in 0..devices.len() {
        if let Some(device) = devices.get(i) {
            words.extend_from_slice(&asks(state, device.dev))?;
        }
    }
    Ok(())
}
