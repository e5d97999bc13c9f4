//! Asks, the runs that serve them, and a device's own interrupt.
ghost use Rattle.std.specs.Prelude.{◌≡◌, ◌≤◌, ◌&&◌, not, nat_lt, length};
ghost use Rattle.std.specs.List.{list_any};
ghost use Rattle.irq_base.specs.Handlers.{serving_part};
ghost use Rattle.irq_model.specs.Asks.{unless_by_script, serving, since_served_run, left_by_runs};
ghost use Rattle.irq_model.specs.Asks.{unserved_asks, taken_away, is_quiet, is_high};
ghost use Rattle.irq_model.specs.Asks.{begins_run};
ghost use Rattle.irq_model.specs.Kinds.{is_serve};
ghost use Rattle.irq_model.specs.Places.{since};

use crate::entry_tests::EntryTest;
use crate::lines::{any_device, is_level_line, kind_of};
use crate::places::{before, count_of, has, since, stands};
use crate::scripts::serves_by_script;
use irq_base::{DevNo, Entry, Kind, LineDef, Part};

/// The part whose runs serve as they return, by the device's kind.
fn serving_part(kind: Kind) -> Option<Part>
    ensures { result ≡ serving_part kind }
{
    match kind {
        Kind::Direct | Kind::Odd | Kind::Told { threaded: false } => Some(Part::Primary),
        Kind::Check | Kind::Null | Kind::Told { threaded: true } => Some(Part::Thread),
        Kind::Stuck => None,
    }
}

/// The part, unless its script serves the device itself.
fn unless_by_script(def: &LineDef, dev: DevNo, part: Option<Part>) -> Option<Part>
    ensures { result ≡ unless_by_script def.now dev part }
{
    let part = part?;
    if serves_by_script(&def.runs, dev, part) {
        None
    } else {
        Some(part)
    }
}

/// The part whose runs serve as they return.
pub fn serving(def: &LineDef, dev: DevNo) -> Option<Part>
    ensures { result ≡ serving def.now dev }
{
    unless_by_script(def, dev, serving_part(kind_of(def, dev)))
}

/// How many asks of the device came after the beginning of its last run that returned and had
/// served; all its asks if none has.
#[tactic(auto, unfolding(crate::specs::Passes::passes))]
fn since_served_run(part: Part, dev: DevNo, past: &[Entry]) -> u32
    requires { length past.now ≤ 100000000 }
    ensures { result ≡ since_served_run part dev past.now }
{
    let ends = EntryTest::ReturnsServed(part, dev);
    let since_end = since(past, ends);
    let run = since(before(past, ends), EntryTest::BeginsRun(part, dev));
    count_of(since_end, EntryTest::Ask(dev)) + count_of(run, EntryTest::Ask(dev))
}

/// How many asks of the device its runs have left.
#[tactic(auto, unfolding(crate::specs::Passes::passes))]
fn left_by_runs(part: Option<Part>, dev: DevNo, past: &[Entry]) -> u32
    requires { length past.now ≤ 100000000 }
    ensures { result ≡ left_by_runs part dev past.now }
{
    match part {
        Some(part) => since_served_run(part, dev, past),
        None => count_of(past, EntryTest::Ask(dev)),
    }
}

/// How many asks of the device nobody has served.
#[tactic(auto, unfolding(crate::specs::Passes::passes))]
pub fn unserved_asks(def: &LineDef, dev: DevNo, past: &[Entry]) -> u32
    requires { length past.now ≤ 100000000 }
    ensures { result ≡ unserved_asks def.now dev past.now }
{
    let since_serve = since(past, EntryTest::Serve(dev));
    count_of(since_serve, EntryTest::Ask(dev)).min(left_by_runs(serving(def, dev), dev, past))
}

/// A call has served the device since the run began.
#[tactic(auto, unfolding(crate::specs::Passes::passes))]
fn is_served_meanwhile(part: Part, dev: DevNo, past: &[Entry]) -> bool
    ensures { result ≡ list_any (is_serve dev) (since (begins_run part dev) past.now) }
{
    has(
        since(past, EntryTest::BeginsRun(part, dev)),
        EntryTest::Serve(dev),
    )
}

/// What a run of that part takes away as it returns, if it serves.
#[tactic(auto, unfolding(crate::specs::Passes::passes))]
pub fn taken_away(def: &LineDef, part: Part, dev: DevNo, past: &[Entry]) -> u32
    requires { length past.now ≤ 100000000 }
    ensures { result ≡ taken_away def.now part dev past.now }
{
    if is_served_meanwhile(part, dev, past) {
        return 0;
    }
    unserved_asks(def, dev, before(past, EntryTest::BeginsRun(part, dev)))
}

/// The device's own interrupt was turned off, and not on since.
#[tactic(auto, unfolding(crate::specs::Passes::passes))]
pub fn is_quiet(past: &[Entry], dev: DevNo) -> bool
    ensures { result ≡ is_quiet past.now dev }
{
    stands(past, EntryTest::TurnsOff(dev), EntryTest::TurnsOn(dev))
}

/// The device holds the signal of a level line high.
fn holds_high(def: &LineDef, dev: DevNo, past: &[Entry]) -> bool
    requires { length past.now ≤ 100000000 }
    ensures { result
        ≡ (not (is_quiet past.now dev) && nat_lt 0 (unserved_asks def.now dev past.now)) }
{
    !is_quiet(past, dev) && unserved_asks(def, dev, past) > 0
}

/// The signal of a level line is high: some device that isn't quiet, linked or not, has an unserved
/// ask.
pub fn is_high(def: &LineDef, past: &[Entry]) -> bool
    requires { length past.now ≤ 100000000 }
    ensures { result ≡ is_high def.now past.now }
{
    is_level_line(def) && any_device(def, |d| holds_high(def, d, past))
}
