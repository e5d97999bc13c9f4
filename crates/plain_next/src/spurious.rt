//! The rule on spurious interrupts.
ghost use Rattle.std.specs.Prelude.{◌≡◌, ◌≤◌, ◌+◌, ◌∷◌, length};
ghost use Rattle.irq_model.specs.Spurious.{counted, unhandled, judged, judged_by_threads, noted};
ghost use Rattle.irq_model.specs.Spurious.{now, round_wakes, round_handles, noted_end, counts_of};
ghost use Rattle.irq_model.specs.Spurious.{note_of};

use crate::entry_tests::EntryTest;
use crate::places::has;
use crate::rounds::round;
use irq_base::{CpuEntry, DriverEntry, Entry, LineDef, LinkAnswer, Note, ThreadEntry};
use std::marker::Model;

/// What the line keeps for the rule.
#[derive(Clone, Copy)]
struct SpuriousCounts {
    /// The ends that the open window has counted.
    irq_count: u32,
    /// The ends of the open window that were unhandled.
    irqs_unhandled: u32,
    /// The runs of threads that answered IRQ_HANDLED.
    threads_handled: u32,
    /// An end woke a thread and waits to be judged by what the threads did.
    deferred: bool,
    /// What `threads_handled` was when an end was last judged by it.
    last: u32,
    /// The moment of the last unhandled end, in milliseconds.
    last_unhandled: u32,
}

impl Model for SpuriousCounts {
    ghost use Rattle.irq_model.specs.Spurious.{Counts};

    ghost Value = { Counts };

    ghost view = { λ c. record {
      irq_count = c.irq_count;
      irqs_unhandled = c.irqs_unhandled;
      threads_handled = c.threads_handled;
      deferred = c.deferred;
      last = c.last;
      last_unhandled = c.last_unhandled;
    } };

    ghost inverse = { λ c. record {
      irq_count = c.irq_count;
      irqs_unhandled = c.irqs_unhandled;
      threads_handled = c.threads_handled;
      deferred = c.deferred;
      last = c.last;
      last_unhandled = c.last_unhandled;
    } };
}

/// The note of an end, and what the line keeps after it.
#[derive(Clone, Copy)]
struct NotedEnd {
    note: Note,
    counts: SpuriousCounts,
}

impl Model for NotedEnd {
    ghost use Rattle.irq_model.specs.Spurious.{Noted};

    ghost Value = { Noted };

    ghost view = { λ n. record { note = n.note; counts = n.counts } };

    ghost inverse = { λ n. record { note = n.note; counts = n.counts } };
}

/// The note of an end that comes now.
pub fn note_of(def: &LineDef, past: &[Entry]) -> Note
    requires { length past.now ≤ 100000000 }
    ensures { result ≡ note_of def.now past.now }
{
    noted_end(def, past, counts_of(def, past)).note
}

/// One more end of the window.
fn counted(window: u32, limit: u32, kept: SpuriousCounts) -> NotedEnd
    requires { kept.irq_count ≤ 100000000 }
    ensures { result ≡ counted window limit kept }
{
    if kept.irqs_unhandled == 0 {
        return NotedEnd {
            note: Note::Quiet,
            counts: kept,
        };
    }
    if kept.irq_count + 1 < window {
        let counts = SpuriousCounts {
            irq_count: kept.irq_count + 1,
            ..kept
        };
        return NotedEnd {
            note: Note::Counted,
            counts,
        };
    }
    let note = if kept.irqs_unhandled > limit {
        Note::Killed
    } else {
        Note::Counted
    };
    let counts = SpuriousCounts {
        irq_count: 0,
        irqs_unhandled: 0,
        ..kept
    };
    NotedEnd { note, counts }
}

/// An unhandled end; if it comes long after the last unhandled one, it begins the count anew.
fn unhandled(now: u32, kept: SpuriousCounts) -> SpuriousCounts
    requires { kept.irqs_unhandled ≤ 100000000 }
    ensures { result ≡ unhandled now kept }
{
    let irqs_unhandled = if now.saturating_sub(kept.last_unhandled) > 100 {
        1
    } else {
        kept.irqs_unhandled + 1
    };
    SpuriousCounts {
        irqs_unhandled,
        last_unhandled: now,
        ..kept
    }
}

/// An end, by whether it was handled.
fn judged(window: u32, limit: u32, now: u32, handled: bool, kept: SpuriousCounts) -> NotedEnd
    requires count { kept.irq_count ≤ 100000000 }
    requires unhandled { kept.irqs_unhandled ≤ 100000000 }
    ensures { result ≡ judged window limit now handled kept }
{
    if handled {
        counted(window, limit, kept)
    } else {
        counted(window, limit, unhandled(now, kept))
    }
}

/// An end whose round woke threads alone: judged at the next by whether a thread has served since.
fn judged_by_threads(window: u32, limit: u32, now: u32, kept: SpuriousCounts) -> NotedEnd
    requires count { kept.irq_count ≤ 100000000 }
    requires unhandled { kept.irqs_unhandled ≤ 100000000 }
    ensures { result ≡ judged_by_threads window limit now kept }
{
    if kept.threads_handled == kept.last {
        return judged(window, limit, now, false, kept);
    }
    let served = SpuriousCounts {
        last: kept.threads_handled,
        ..kept
    };
    judged(window, limit, now, true, served)
}

/// The note of an end, by the union of the answers of its round, and what the line keeps after it.
fn noted(
    window: u32,
    limit: u32,
    now: u32,
    wake: bool,
    handled: bool,
    kept: SpuriousCounts,
) -> NotedEnd
    requires count { kept.irq_count ≤ 100000000 }
    requires unhandled { kept.irqs_unhandled ≤ 100000000 }
    ensures { result ≡ noted window limit now wake handled kept }
{
    if !wake {
        return judged(window, limit, now, handled, kept);
    }
    if handled {
        let settled = SpuriousCounts {
            deferred: false,
            ..kept
        };
        return judged(window, limit, now, true, settled);
    }
    if kept.deferred {
        return judged_by_threads(window, limit, now, kept);
    }
    let counts = SpuriousCounts {
        deferred: true,
        ..kept
    };
    NotedEnd {
        note: Note::Quiet,
        counts,
    }
}

/// The greatest moment handed in, in milliseconds.
fn now(past: &[Entry]) -> u32
    ensures { result ≡ now past.now }
{
    let mut latest = 0;
    for i in (0..past.len()).rev() {
        if let Entry::Driver(_, DriverEntry::Moment { at }) = past[i] {
            latest = at.max(latest);
        }
    }
    latest
}

/// Some handler of the round woke its thread.
#[tactic(auto, unfolding(crate::specs::Passes::passes))]
fn round_wakes(def: &LineDef, past: &[Entry]) -> bool
    ensures { result ≡ round_wakes def.now past.now }
{
    has(round(def, past), EntryTest::ReturnsWake)
}

/// Some handler of the round handled.
#[tactic(auto, unfolding(crate::specs::Passes::passes))]
fn round_handles(def: &LineDef, past: &[Entry]) -> bool
    ensures { result ≡ round_handles def.now past.now }
{
    has(round(def, past), EntryTest::ReturnsHandled)
}

/// What an end makes of the counts.
fn noted_end(def: &LineDef, past: &[Entry], kept: SpuriousCounts) -> NotedEnd
    requires count { kept.irq_count ≤ 100000000 }
    requires unhandled { kept.irqs_unhandled ≤ 100000000 }
    ensures { result ≡ noted_end def.now past.now kept }
{
    let wake = round_wakes(def, past);
    let handled = round_handles(def, past);
    noted(def.window, def.limit, now(past), wake, handled, kept)
}

/// One more run of a thread answered IRQ_HANDLED.
fn one_more_handled(kept: SpuriousCounts) -> SpuriousCounts
    requires { kept.threads_handled ≤ 100000000 }
    ensures { result ≡ record kept { threads_handled = kept.threads_handled + 1 } }
{
    SpuriousCounts {
        threads_handled: kept.threads_handled + 1,
        ..kept
    }
}

/// What one more entry makes of the counts.
fn counts_after(def: &LineDef, entry: Entry, past: &[Entry], kept: SpuriousCounts) -> SpuriousCounts
    requires few { length past.now ≤ 100000000 }
    requires counts { kept ≡ counts_of def.now past.now }
    ensures { result ≡ counts_of def.now (entry ∷ past.now) }
{
    match entry {
        Entry::Thread(_, ThreadEntry::Return { handled: true, .. }) => one_more_handled(kept),
        Entry::Driver(
            _,
            DriverEntry::Request {
                answer: LinkAnswer::Linked,
                ..
            },
        ) => SpuriousCounts {
            irq_count: 0,
            irqs_unhandled: 0,
            ..kept
        },
        Entry::Cpu(_, CpuEntry::End { .. }) => noted_end(def, past, kept).counts,
        _ => kept,
    }
}

/// What the line keeps for the rule.
fn counts_of(def: &LineDef, past: &[Entry]) -> SpuriousCounts
    requires { length past.now ≤ 100000000 }
    ensures { result ≡ counts_of def.now past.now }
{
    let mut counts = SpuriousCounts {
        irq_count: 0,
        irqs_unhandled: 0,
        threads_handled: 0,
        deferred: false,
        last: 0,
        last_unhandled: 0,
    };
    for i in (0..past.len()).rev() {
        counts = counts_after(def, past[i], &past[i + 1..], counts);
    }
    counts
}
