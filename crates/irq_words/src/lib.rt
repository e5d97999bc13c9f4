//! The words of the command line, and what they ask for.
//!
//! Each command has one list of words, which `words_of` of `specs/` defines; `read_command` finds
//! the command of some words.
#![tactic(auto)]

ghost use Rattle.std.specs.Prelude.{◌≡◌, ◌∷◌, ℕ, List, codes, map};
ghost use Rattle.irq_words.specs.Words.{Asks, Finds};

mod events;
mod few;
mod lines;
mod numbers;

use crate::events::read_events;
use crate::lines::read_lines;
use crate::numbers::number_in;
pub use few::Few;
use irq_base::LineNo;
use irq_hotplug::Event;

/// What the program can be asked for.
pub enum Command {
    /// Read a board and run it by threads. `summary`: print a row for each line in place of the
    /// entries.
    Run { summary: bool },
    /// Read a board and play it. `summary`: print a row for each line in place of the entries.
    Play { summary: bool },
    /// Read a board and a log of it, and judge the log. `why`: say too why it is unlawful, if it
    /// is.
    Check { why: bool },
    /// Make the board that the number generates, play it, and print the summary. Nothing is read.
    Gen { n: u32 },
    /// Read a board, and play it with all its lines behind one demultiplexer.
    Chained,
    /// Read a board, give its lines vectors, of which each processor has `vectors` (1 to 64), take
    /// the events, at most 64, and play the board with the moves that follow.
    Hotplug { vectors: u32, events: Few<Event> },
    /// Read a board, and play it with a sleep in it, in which interrupts of the armed lines wake
    /// the machine.
    Sleep { armed: Few<LineNo> },
}

/// The command with these words, which follow the program's name; none if no command has them.
pub fn read_command(words: &[&str]) -> Option<Command>
    ensures { Finds (map (λ w. w.now) words.now) result }
{
    let (name, words) = words.split_first()?;
    match *name {
        "run" => read_run(words),
        "play" => read_play(words),
        "check" => read_check(words),
        "gen" => read_gen(words),
        "chained" => read_chained(words),
        "hotplug" => read_hotplug(words),
        "sleep" => read_sleep(words),
        _ => None,
    }
}

fn read_run(words: &[&str]) -> Option<Command>
    ensures { Finds (codes "run" ∷ map (λ w. w.now) words.now) result }
{
    match words {
        [] => Some(Command::Run { summary: false }),
        ["--summary"] => Some(Command::Run { summary: true }),
        _ => None,
    }
}

fn read_play(words: &[&str]) -> Option<Command>
    ensures { Finds (codes "play" ∷ map (λ w. w.now) words.now) result }
{
    match words {
        [] => Some(Command::Play { summary: false }),
        ["--summary"] => Some(Command::Play { summary: true }),
        _ => None,
    }
}

fn read_check(words: &[&str]) -> Option<Command>
    ensures { Finds (codes "check" ∷ map (λ w. w.now) words.now) result }
{
    match words {
        [] => Some(Command::Check { why: false }),
        ["--why"] => Some(Command::Check { why: true }),
        _ => None,
    }
}

fn read_gen(words: &[&str]) -> Option<Command>
    ensures { Finds (codes "gen" ∷ map (λ w. w.now) words.now) result }
{
    let [number] = words else {
        return None;
    };
    let n = number_in(number.as_bytes(), 0, u32::MAX)?;
    Some(Command::Gen { n })
}

fn read_chained(words: &[&str]) -> Option<Command>
    ensures { Finds (codes "chained" ∷ map (λ w. w.now) words.now) result }
{
    if words.is_empty() {
        Some(Command::Chained)
    } else {
        None
    }
}

fn read_hotplug(words: &[&str]) -> Option<Command>
    ensures { Finds (codes "hotplug" ∷ map (λ w. w.now) words.now) result }
{
    let (vectors, words) = words.split_first()?;
    let vectors = number_in(vectors.as_bytes(), 1, 64)?;
    let events = read_events(words)?;
    Some(Command::Hotplug { vectors, events })
}

fn read_sleep(words: &[&str]) -> Option<Command>
    ensures { Finds (codes "sleep" ∷ map (λ w. w.now) words.now) result }
{
    let armed = read_lines(words)?;
    Some(Command::Sleep { armed })
}

/// Words ask for one command at most.
pub fn command_is_one()
    ensures { (words : List (List ℕ)) (one other : Command) → Asks words one → Asks words other
        → one ≡ other }
{}
