//! What the words ask for.
ghost use Rattle.std.specs.Prelude.{[], ◌∷◌, codes, decimal, map};
ghost use Rattle.log_read.specs.Takes.{Reads};
ghost use Rattle.explore_words.specs.Words.{Finds, FindsWhat, IsCount};

use crate::rows::read_wanted_in;
use crate::{Asked, What};
use irq_base::LineNo;
use log_read::number_of;

/// How many states of a line are visited, if the words don't say.
pub const USUAL_STATES: u32 = 1_000_000;

/// The most states of a line that can be asked for.
pub const MOST_STATES: u32 = 100_000_000;

/// What the words ask for, which follow the program's name; none if they ask for nothing.
pub fn read_words(words: &[&str]) -> Option<Asked>
    ensures { Finds (map (λ w. w.now) words.now) result }
{
    match words {
        ["--states", states, rest @ ..] => read_with_states(states, rest),
        _ => {
            let what = read_what(words)?;
            Some(Asked {
                states: USUAL_STATES,
                what,
            })
        }
    }
}

/// What is asked with this word behind `--states`, and these words behind both.
fn read_with_states(states: &str, rest: &[&str]) -> Option<Asked>
    ensures { Finds (codes "--states" ∷ states.now ∷ map (λ w. w.now) rest.now) result }
{
    let Some(states) = read_states(states.as_bytes()) else {
        return None;
    };
    let Some(what) = read_what(rest) else {
        return None;
    };
    Some(Asked { states, what })
}

/// How many states the word says.
fn read_states(word: &[u8]) -> Option<u32>
    ensures { Reads IsCount decimal word.now result }
{
    let Some(n) = number_of(word) else {
        return None;
    };
    if 1 <= n && n <= MOST_STATES {
        Some(n)
    } else {
        None
    }
}

/// What the words ask for that follow the number of states.
fn read_what(words: &[&str]) -> Option<What>
    ensures { FindsWhat (map (λ w. w.now) words.now) result }
{
    match words {
        [] => Some(What::Survey),
        ["--line", line] => read_line(line),
        ["--play", row @ ..] => read_play(row),
        _ => {
            let (line, wanted) = read_wanted_in(words)?;
            Some(What::Row(line, wanted))
        }
    }
}

/// The row behind `--play`, in one word or in several.
fn read_play(row: &[&str]) -> Option<What>
    ensures { FindsWhat (codes "--play" ∷ map (λ w. w.now) row.now) result }
{
    let Some((line, wanted)) = read_wanted_in(row) else {
        return None;
    };
    Some(What::Play(line, wanted))
}

/// The line whose number the word behind `--line` is.
fn read_line(line: &str) -> Option<What>
    ensures { FindsWhat (codes "--line" ∷ line.now ∷ []) result }
{
    let Some(line) = number_of(line.as_bytes()) else {
        return None;
    };
    Some(What::Line(LineNo(line)))
}
