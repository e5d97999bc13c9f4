//! Words that are events: the list that `hotplug` takes.
ghost use Rattle.std.specs.Prelude.{◌+◌, ◌≤◌, length, map};
ghost use Rattle.std.specs.List.{AllByRecursion};
ghost use Rattle.log_read.specs.Takes.{Reads};
ghost use Rattle.irq_words.specs.Events.{AreEvents, IsEvent, event_word};
ghost use Rattle.irq_words.specs.Reading.{ReadsAfter, ReadsList};

use crate::few::{Few, MOST};
use crate::numbers::number_in;
use irq_base::CpuNo;
use irq_hotplug::Event;

/// The greatest number of a processor.
const LAST_CPU: u32 = 31;

/// The event that the word is: `off:` or `on:`, and a processor's number.
fn read_event(word: &[u8]) -> Option<Event>
    ensures { Reads IsEvent event_word word.now result }
{
    match word {
        [b'o', b'f', b'f', b':', number @ ..] => {
            let cpu = number_in(number, 0, LAST_CPU)?;
            Some(Event::Off(CpuNo(cpu)))
        }
        [b'o', b'n', b':', number @ ..] => {
            let cpu = number_in(number, 0, LAST_CPU)?;
            Some(Event::On(CpuNo(cpu)))
        }
        _ => None,
    }
}

/// The events of `before`, and behind them those that the words name.
fn events_after(before: Few<Event>, words: &[&str]) -> Option<Few<Event>>
    requires { length before + length words.now ≤ 64 }
    ensures { ReadsAfter (AllByRecursion IsEvent) event_word before (map (λ w. w.now) words.now)
        result }
{
    let Some((first, rest)) = words.split_first() else {
        return Some(before);
    };
    let Some(event) = read_event(first.as_bytes()) else {
        return None;
    };
    let mut before = before;
    before.push(event);
    events_after(before, rest)
}

/// The events that the words are, at most 64.
pub(crate) fn read_events(words: &[&str]) -> Option<Few<Event>>
    ensures { ReadsList AreEvents event_word (map (λ w. w.now) words.now) result }
{
    if words.len() > MOST {
        return None;
    }
    events_after(Few::new(Event::Off(CpuNo(0))), words)
}
