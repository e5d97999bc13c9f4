//! What the board says of a run: what it answers, and the calls that it makes.
ghost use Rattle.std.specs.Prelude.{◌≡◌, ◌≤◌, ◌<◌, ◌+◌, ◌∷◌, length, drop, slice_get, IfOk};
ghost use Rattle.irq_base.specs.Handlers.{answer_of, answer_of_told};
ghost use Rattle.irq_model.specs.Lines.{told_in, run_script};
ghost use Rattle.irq_model.specs.Runs.{runs_before, told_of, met_by, answer_of_run_now};
ghost use Rattle.irq_model.specs.Runs.{serves_by_word, is_that_part, served_by_run};
ghost use Rattle.irq_model.specs.Runs.{is_recognised, makes_calls, entries_of_run, due_in_run};

use crate::asks::{serving, taken_away, unserved_asks};
use crate::due::due_of;
use crate::entry_tests::EntryTest;
use crate::lines::{is_same_part, kind_of};
use crate::places::{before, count_of, oldest_first, since};
use crate::scripts::run_script;
use irq_base::{Answer, Call, DevNo, Entry, Kind, LineDef, NoMemory, Part, ToldAnswer, ToldList};
use std::alloc::Global;

// ---- what a run answers

/// How many runs of that part of the device began before the one that is there.
#[tactic(auto, unfolding(crate::specs::Passes::passes))]
fn runs_before(part: Part, dev: DevNo, past: &[Entry]) -> u32
    requires { length past.now ≤ 100000000 }
    ensures { result ≡ runs_before part dev past.now }
{
    let begins = EntryTest::BeginsRun(part, dev);
    count_of(before(past, begins), begins)
}

/// The answer at index `place` of the list.
#[tactic(auto, using(irq_model::proofs::Lists::next_item))]
fn answer_at(told: &ToldList, place: usize) -> (DevNo, Part, ToldAnswer)
    requires { place < length told.now }
    ensures { drop place told.now ≡ result ∷ drop (place + 1) told.now }
{
    match told.get(place) {
        Some(answer) => answer,
        None => unreachable!(),
    }
}

/// What that part of the device answers in its run after `n` others.
fn told_after(told: &ToldList, dev: DevNo, part: Part, n: u32) -> Option<ToldAnswer>
    ensures { result ≡ slice_get (told_in told.now dev part) n }
{
    let mut left = n;
    for i in 0..told.len() {
        let (other, its_part, answer) = answer_at(told, i);
        if dev == other && is_same_part(part, its_part) {
            if left == 0 {
                return Some(answer);
            }
            left -= 1;
        }
    }
    None
}

/// The answer that the board has for the run.
#[tactic(auto, using(crate::proofs::Told::at_most_all))]
pub fn told_of(def: &LineDef, part: Part, dev: DevNo, past: &[Entry]) -> Option<ToldAnswer>
    requires { length past.now ≤ 100000000 }
    ensures { result ≡ told_of def.now part dev past.now }
{
    told_after(&def.told, dev, part, runs_before(part, dev, past))
}

/// How many asks were unserved as the run began.
#[tactic(auto, unfolding(crate::specs::Passes::passes))]
pub fn met_by(def: &LineDef, part: Part, dev: DevNo, past: &[Entry]) -> u32
    requires { length past.now ≤ 100000000 }
    ensures { result ≡ met_by def.now part dev past.now }
{
    unserved_asks(def, dev, before(past, EntryTest::BeginsRun(part, dev)))
}

/// What the kernel is told.
fn answer_of_told(told: Option<ToldAnswer>) -> Answer
    ensures { result ≡ answer_of_told told }
{
    match told {
        Some(ToldAnswer::Handled | ToldAnswer::Claims) => Answer::Handled,
        Some(ToldAnswer::Wake) => Answer::Wake,
        Some(ToldAnswer::Nothing) | None => Answer::Nothing,
    }
}

/// The answer of a run that begins with `unserved` unserved asks.
fn answer_of(kind: Kind, part: Part, unserved: u32, told: Option<ToldAnswer>) -> Answer
    ensures { result ≡ answer_of kind part unserved told }
{
    match (kind, part) {
        (Kind::Direct, Part::Primary) if unserved > 0 => Answer::Handled,
        (Kind::Check, Part::Primary) if unserved > 0 => Answer::Wake,
        (Kind::Null, Part::Primary) => Answer::Wake,
        (Kind::Check | Kind::Null, Part::Thread) if unserved > 0 => Answer::Handled,
        (Kind::Told { .. }, _) => answer_of_told(told),
        _ => Answer::Nothing,
    }
}

/// What the run answers.
pub fn answer_of_run_now(def: &LineDef, part: Part, dev: DevNo, past: &[Entry]) -> Answer
    requires { length past.now ≤ 100000000 }
    ensures { result ≡ answer_of_run_now def.now part dev past.now }
{
    let unserved = met_by(def, part, dev, past);
    let told = told_of(def, part, dev, past);
    answer_of(kind_of(def, dev), part, unserved, told)
}

/// A run of the kind serves: a told device's only where its word is `handled`.
fn serves_by_word(kind: Kind, told: Option<ToldAnswer>) -> bool
    ensures { result ≡ serves_by_word kind told }
{
    match kind {
        Kind::Told { .. } => matches!(told, Some(ToldAnswer::Handled)),
        _ => true,
    }
}

/// Runs of that part serve by returning.
fn is_that_part(part: Part, serving: Option<Part>) -> bool
    ensures { result ≡ is_that_part part serving }
{
    match serving {
        Some(serving) => is_same_part(part, serving),
        None => false,
    }
}

/// How many asks the run serves as it returns.
pub fn served_by_run(def: &LineDef, part: Part, dev: DevNo, past: &[Entry]) -> u32
    requires { length past.now ≤ 100000000 }
    ensures { result ≡ served_by_run def.now part dev past.now }
{
    let told = told_of(def, part, dev, past);
    if is_that_part(part, serving(def, dev)) && serves_by_word(kind_of(def, dev), told) {
        return taken_away(def, part, dev, past);
    }
    0
}

// ---- the calls of a run

/// The handler recognises its device.
fn is_recognised(answer: Answer) -> bool
    ensures { result ≡ is_recognised answer }
{
    !matches!(answer, Answer::Nothing)
}

/// The run makes the calls of its script.
fn makes_calls(def: &LineDef, part: Part, dev: DevNo, past: &[Entry]) -> bool
    requires { length past.now ≤ 100000000 }
    ensures { result ≡ makes_calls def.now part dev past.now }
{
    match part {
        Part::Primary => is_recognised(answer_of_run_now(def, Part::Primary, dev, past)),
        Part::Thread => true,
    }
}

/// The entries of the run's calls so far, the oldest first.
#[tactic(auto, unfolding(crate::specs::Passes::passes))]
fn entries_of_run(
    alloc: Global,
    part: Part,
    dev: DevNo,
    past: &[Entry],
) -> Result<Vec<Entry>, NoMemory>
    ensures { IfOk result (λ entries. entries.items ≡ entries_of_run part dev past.now) }
{
    match part {
        Part::Primary => {
            let run = since(past, EntryTest::BeginOrReturn);
            oldest_first(alloc, run, EntryTest::CpuCall)
        }
        Part::Thread => {
            let run = since(past, EntryTest::ThreadBegin(dev));
            oldest_first(alloc, run, EntryTest::ThreadCall(dev))
        }
    }
}

/// The run's first call that isn't complete, and how many entries it has made.
pub fn due_in_run(
    alloc: Global,
    def: &LineDef,
    part: Part,
    dev: DevNo,
    past: &[Entry],
) -> Result<Option<(Call, usize)>, NoMemory>
    requires { length past.now ≤ 100000000 }
    ensures { IfOk result (λ due. due ≡ due_in_run def.now part dev past.now) }
{
    if !makes_calls(def, part, dev, past) {
        return Ok(None);
    }
    let script = run_script(alloc, &def.runs, dev, part)?;
    let entries = entries_of_run(alloc, part, dev, past)?;
    Ok(due_of(&script, &entries))
}
