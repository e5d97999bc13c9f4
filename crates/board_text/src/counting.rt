//! How many calls and answers of runs there are.
ghost use Rattle.std.specs.Prelude.{◌≡◌, ◌+◌, nat_lt};
ghost use Rattle.board_def.specs.Runs.{is_call_of};
ghost use Rattle.board_stated.specs.FaultsAfter.{count_of_answers, has_no_room_for};
ghost use Rattle.board_stated.specs.FaultsAfter.{has_no_room_to_call};
ghost use Rattle.irq_model.specs.Kinds.{same_dev};
ghost use Rattle.irq_model.specs.Places.{count_of};

use crate::faults::MOST_CALLS;
use board_def::{Board, RunCall, ToldRow};
use board_stated::Writer;
use board_words::AnswerList;
use irq_base::{DevNo, Part};

/// The most calls of all runs.
const MOST_RUN_CALLS: usize = 256;

/// The most calls of a run.
const LONGEST_RUN: usize = 16;

/// The most answers of all told devices.
const MOST_ANSWERS: usize = 65_536;

/// The most answers of a device.
const MOST_OF_A_DEVICE: usize = 4_096;

/// Whether there is no room for one more call of the script that is written.
pub fn has_no_room_to_call(board: &Board, writer: Writer) -> bool
    ensures { result ≡ has_no_room_to_call writer board.now }
{
    match writer {
        Writer::Runs { dev, part } => {
            board.runs_len() >= MOST_RUN_CALLS || calls_of(dev, part, board.runs()) >= LONGEST_RUN
        }
        Writer::Nobody | Writer::Driver => board.calls_len() >= MOST_CALLS,
    }
}

/// Whether there is no room for these answers of the device.
pub fn has_no_room_for(board: &Board, dev: DevNo, answers: &AnswerList) -> bool
    ensures { result ≡ has_no_room_for board.now dev (count_of_answers answers.now) }
{
    exceed(board.told_len(), MOST_ANSWERS, answers)
        || exceed(answers_of(dev, board.told()), MOST_OF_A_DEVICE, answers)
}

/// Whether the answers, after `len` others, are more than `most`.
#[tactic(auto, using(crate::proofs::Left::left_at, crate::proofs::Left::item_there, std::proofs::lemmas::List::drop_all))]
fn exceed(len: usize, most: usize, answers: &AnswerList) -> bool
    ensures { result ≡ nat_lt most (len + count_of_answers answers.now) }
{
    let Some(mut room) = most.checked_sub(len) else {
        return true;
    };
    for i in 0..answers.len() {
        if let Some(word) = answers.get(i) {
            let times = word.times as usize;
            if times > room {
                return true;
            }
            room -= times;
        }
    }
    false
}

/// How many of the calls are of that part of the device.
fn calls_of(dev: DevNo, part: Part, runs: &[RunCall]) -> usize
    ensures { result ≡ count_of (is_call_of dev part) runs.now }
{
    let mut count = 0;
    for call in runs {
        if call.dev.0 == dev.0 && call.part == part {
            count += 1;
        }
    }
    count
}

/// How many of the answers are of the device.
fn answers_of(dev: DevNo, told: &[ToldRow]) -> usize
    ensures { result ≡ count_of (λ r. same_dev dev r.dev) told.now }
{
    let mut count = 0;
    for row in told {
        if row.dev.0 == dev.0 {
            count += 1;
        }
    }
    count
}
