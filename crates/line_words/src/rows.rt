//! The tables: a row for each device of the definition.
ghost use Rattle.std.specs.Prelude.{◌≡◌, ◌≤◌, length, true};
ghost use Rattle.line_words.specs.Reading.{stage_in, thread_in, ask_in, put_rows, mark_rows};
ghost use Rattle.line_words.specs.Reading.{with_rows, more_from};

use crate::words::{FIXED, behind, bit, word};
use act_thread::{Stage, ThreadRow};
use ask_counts::AskRow;
use irq_base::{DeviceList, LineDef};
use line_cell::Cell;
use line_state::LineState;

fn stage(number: u32) -> Stage
    ensures { result ≡ stage_in number }
{
    match number {
        1 => Stage::Begun,
        2 => Stage::Returned,
        3 => Stage::Finished,
        _ => Stage::Idle,
    }
}

/// The row of a thread.
fn thread(words: &[u32]) -> ThreadRow
    ensures { result ≡ thread_in words.now }
{
    ThreadRow {
        woken: bit(words, 0),
        stage: stage(word(words, 1)),
        held: bit(words, 2),
    }
}

/// The row of a device's asks. Whether the device is quiet stands elsewhere.
fn asks(words: &[u32]) -> AskRow
    ensures { result ≡ ask_in words.now }
{
    AskRow {
        unserved: word(words, 0),
        fresh: word(words, 1),
        met_by_handler: word(words, 2),
        met_by_thread: word(words, 3),
        quiet: false,
    }
}

/// Marks the devices whose handlers were called in the round.
fn put_marks(state: &mut LineState<Cell>, devices: &DeviceList, words: &[u32])
    ensures { state.new ≡ record state.old {
      state = record state.old.state {
        list = record state.old.state.list {
          begun = mark_rows (λ _. true) devices.now words.now state.old.state.list.begun;
        };
      };
    } }
{
    let mut left = words;
    for i in 0..devices.len() {
        if let Some(device) = devices.get(i) {
            if bit(left, 0) {
                state.put_begun(device.dev);
            }
        }
        left = behind(left, 1);
    }
}

/// Puts the rows of the threads.
fn put_threads(state: &mut LineState<Cell>, devices: &DeviceList, words: &[u32])
    ensures { state.new ≡ record state.old {
      state = record state.old.state {
        threads = put_rows thread_in 3 devices.now words.now state.old.state.threads;
      };
    } }
{
    let mut left = words;
    for i in 0..devices.len() {
        if let Some(device) = devices.get(i) {
            state.put_thread(device.dev, thread(left));
        }
        left = behind(left, 3);
    }
}

/// Puts the rows of the asks.
fn put_asks(state: &mut LineState<Cell>, devices: &DeviceList, words: &[u32])
    ensures { state.new ≡ record state.old {
      state = record state.old.state {
        asks = put_rows ask_in 4 devices.now words.now state.old.state.asks;
      };
    } }
{
    let mut left = words;
    for i in 0..devices.len() {
        if let Some(device) = devices.get(i) {
            state.put_asks(device.dev, asks(left));
        }
        left = behind(left, 4);
    }
}

/// Puts the rows of the tables that each line has, and answers the numbers behind them.
pub(crate) fn put_tables<'w>(
    state: &mut LineState<Cell>,
    def: &LineDef,
    words: &'w [u32],
) -> &'w [u32]
    requires { length def.now.devices ≤ 256 }
    ensures state { state.new
        ≡ record state.old { state = with_rows def.now words.now state.old.state } }
    ensures left { result.now ≡ more_from def.now words.now }
{
    let count = def.devices.len();
    let marks = behind(words, FIXED);
    put_marks(state, &def.devices, marks);
    let threads = behind(marks, count);
    put_threads(state, &def.devices, threads);
    let asks = behind(threads, 3 * count);
    put_asks(state, &def.devices, asks);
    behind(asks, 4 * count)
}
