//! What only some lines need: how far the runs are, and which devices are quiet.
ghost use Rattle.std.specs.Prelude.{◌≡◌, ◌≤◌, ◌++◌, [], ◌∷◌, true, length, OnOk};
ghost use Rattle.std.specs.List.{list_any};
ghost use Rattle.ask_counts.specs.Rows.{turned_off};
ghost use Rattle.device_table.specs.Rows.{change};
ghost use Rattle.run_scripts.specs.Places.{row_at};
ghost use Rattle.line_futures.specs.Canon.{canon, canon_turn, canon_run, is_working};
ghost use Rattle.line_futures.specs.Canon.{is_thread_working};
ghost use Rattle.line_words.specs.Reading.{place_in, run_in, put_rows, mark_rows, with_runs};
ghost use Rattle.line_words.specs.Reading.{with_more, runs_in, behind_more};
ghost use Rattle.line_words.specs.Told.{rows_words, quiet_told, run_told, more_told};
ghost use Rattle.line_words.specs.Words.{is_quiet_call, has_more, place_words, run_words};

use crate::telling::{is_thread_working, is_working, kept_if};
use crate::words::{behind, bit, flag, word};
use ask_counts::AskRow;
use irq_base::{Call, CallList, DevNo, DeviceList, LineDef, NoMemory};
use line_cell::Cell;
use line_state::LineState;
use run_scripts::{RunPlace, RunRow, Turn};

/// Whether the line's runs make calls, or are told what to answer, or a driver turns a device's own
/// interrupt off. The numbers of a line of which none of that holds have no words for it.
pub fn has_more(def: &LineDef) -> bool
    ensures { result ≡ has_more def.now }
{
    let calls = !def.runs.is_empty();
    let told = !def.told.is_empty();
    calls || told || turns_off(&def.calls)
}

/// Whether one of the calls turns a device's own interrupt off.
fn turns_off(calls: &CallList) -> bool
    ensures { result ≡ list_any (λ c. is_quiet_call c.1) calls.now }
{
    for i in 0..calls.len() {
        if let Some((_, call)) = calls.get(i) {
            if is_quiet_call(call) {
                return true;
            }
        }
    }
    false
}

fn is_quiet_call(call: Call) -> bool
    ensures { result ≡ is_quiet_call call }
{
    matches!(call, Call::Quiet { .. })
}

// ---- reading

fn place(words: &[u32]) -> RunPlace
    ensures { result ≡ place_in words.now }
{
    RunPlace {
        place: word(words, 0),
        within: word(words, 1),
    }
}

/// The runs of a device.
fn run(words: &[u32]) -> RunRow
    ensures { result ≡ run_in words.now }
{
    RunRow {
        calls: place(words),
        handler: Turn {
            now: word(words, 2),
            next: word(words, 3),
        },
        thread: Turn {
            now: word(words, 4),
            next: word(words, 5),
        },
    }
}

/// The device is quiet.
fn turn_off(state: &mut LineState<Cell>, dev: DevNo)
    ensures { state.new ≡ record state.old {
      state = record state.old.state { asks = change turned_off state.old.state.asks dev };
    } }
{
    let Some(row) = state.asks().get(dev) else {
        return;
    };
    state.put_asks(dev, AskRow { quiet: true, ..row });
}

/// Marks the devices that are quiet.
fn put_quiets(state: &mut LineState<Cell>, devices: &DeviceList, words: &[u32])
    ensures { state.new ≡ record state.old {
      state = record state.old.state {
        asks = mark_rows turned_off devices.now words.now state.old.state.asks;
      };
    } }
{
    let mut left = words;
    for i in 0..devices.len() {
        if let Some(device) = devices.get(i) {
            if bit(left, 0) {
                turn_off(state, device.dev);
            }
        }
        left = behind(left, 1);
    }
}

/// Puts the rows of the runs.
fn put_runs(state: &mut LineState<Cell>, devices: &DeviceList, words: &[u32])
    ensures { state.new ≡ record state.old {
      state = record state.old.state {
        places = record state.old.state.places {
          rows = put_rows run_in 6 devices.now words.now state.old.state.places.rows;
        };
      };
    } }
{
    let mut left = words;
    for i in 0..devices.len() {
        if let Some(device) = devices.get(i) {
            state.put_run(device.dev, run(left));
        }
        left = behind(left, 6);
    }
}

/// Puts how far the runs are, and which devices are quiet. Answers the numbers behind them.
fn put_all<'w>(state: &mut LineState<Cell>, def: &LineDef, words: &'w [u32]) -> &'w [u32]
    requires { length def.now.devices ≤ 256 }
    ensures state { state.new
        ≡ record state.old { state = with_runs def.now words.now state.old.state } }
    ensures left { result.now ≡ runs_in def.now words.now }
{
    let quiets = behind(words, 2);
    put_quiets(state, &def.devices, quiets);
    state.put_work(place(words));
    let runs = behind(quiets, def.devices.len());
    put_runs(state, &def.devices, runs);
    runs
}

/// The same, if the line needs it: `more` says so.
pub(crate) fn put_more<'w>(
    state: &mut LineState<Cell>,
    def: &LineDef,
    more: bool,
    words: &'w [u32],
) -> &'w [u32]
    requires { length def.now.devices ≤ 256 }
    ensures state { state.new
        ≡ record state.old { state = with_more more def.now words.now state.old.state } }
    ensures left { result.now ≡ behind_more more def.now words.now }
{
    if more {
        let runs = put_all(state, def, words);
        behind(runs, 6 * def.devices.len())
    } else {
        words
    }
}

// ---- telling

/// Whether the device is quiet: 1 or 0.
fn quiet(state: &LineState<Cell>, dev: DevNo) -> u32
    ensures { result ∷ [] ≡ quiet_told (canon state.now.state) dev [] }
{
    match state.asks().get(dev) {
        Some(row) => flag(row.quiet),
        None => 0,
    }
}

/// Writes it of all devices. The only error is `NoMemory`.
fn write_quiets(
    state: &LineState<Cell>,
    devices: &DeviceList,
    words: &mut Vec<u32>,
) -> Result<(), NoMemory>
    ensures { OnOk result (words.new.items
        ≡ words.old.items ++ rows_words (quiet_told (canon state.now.state)) devices.now []) }
{
    for i in 0..devices.len() {
        if let Some(device) = devices.get(i) {
            words.push(quiet(state, device.dev))?;
        }
    }
    Ok(())
}

/// Of the answers of a part what matters still.
fn canon_turn(works: bool, turn: Turn) -> Turn
    ensures { result ≡ canon_turn works turn }
{
    Turn {
        now: kept_if(works, turn.now),
        next: turn.next,
    }
}

/// Of a device's runs what matters still.
fn canon_run(handler: bool, thread: bool, row: RunRow) -> RunRow
    ensures { result ≡ canon_run handler thread row }
{
    RunRow {
        calls: row.calls,
        handler: canon_turn(handler, row.handler),
        thread: canon_turn(thread, row.thread),
    }
}

/// Of the device's runs what matters still.
fn run_row(state: &LineState<Cell>, dev: DevNo) -> RunRow
    ensures { result ≡ row_at (canon state.now.state).places.rows dev }
{
    let row = state.runs().row(dev);
    let handler = is_working(state, dev);
    let thread = is_thread_working(state, dev);
    canon_run(handler, thread, row)
}

/// The numbers of a device's runs.
fn run_words(row: RunRow) -> [u32; 6]
    ensures { result ≡ run_words row [] }
{
    [
        row.calls.place,
        row.calls.within,
        row.handler.now,
        row.handler.next,
        row.thread.now,
        row.thread.next,
    ]
}

/// Writes them of all devices. The only error is `NoMemory`.
fn write_runs(
    state: &LineState<Cell>,
    devices: &DeviceList,
    words: &mut Vec<u32>,
) -> Result<(), NoMemory>
    ensures { OnOk result (words.new.items
        ≡ words.old.items ++ rows_words (run_told (canon state.now.state)) devices.now []) }
{
    for i in 0..devices.len() {
        if let Some(device) = devices.get(i) {
            words.extend_from_slice(&run_words(run_row(state, device.dev)))?;
        }
    }
    Ok(())
}

/// The numbers of how far the handler is that is at work.
fn work_words(state: &LineState<Cell>) -> [u32; 2]
    ensures { result ≡ place_words (canon state.now.state).places.work [] }
{
    let at = state.runs().work();
    [at.place, at.within]
}

/// Writes how far the runs are, and which devices are quiet. The only error is `NoMemory`.
fn write_all(state: &LineState<Cell>, def: &LineDef, words: &mut Vec<u32>) -> Result<(), NoMemory>
    ensures { OnOk result (words.new.items
        ≡ words.old.items ++ more_told true def.now (canon state.now.state) []) }
{
    words.extend_from_slice(&work_words(state))?;
    write_quiets(state, &def.devices, words)?;
    write_runs(state, &def.devices, words)
}

/// The same, if the line needs it: `more` says so. The only error is `NoMemory`.
pub(crate) fn write_more(
    state: &LineState<Cell>,
    def: &LineDef,
    more: bool,
    words: &mut Vec<u32>,
) -> Result<(), NoMemory>
    ensures { OnOk result (words.new.items
        ≡ words.old.items ++ more_told more def.now (canon state.now.state) []) }
{
    if more {
        write_all(state, def, words)
    } else {
        Ok(())
    }
}
