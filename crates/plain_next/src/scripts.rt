//! The calls that a driver makes, and those that the runs of a device make.
ghost use Rattle.std.specs.Prelude.{◌≡◌, ◌<◌, ◌+◌, ◌∷◌, length, drop, IfOk};
ghost use Rattle.std.specs.List.{list_any};
ghost use Rattle.irq_model.specs.Asks.{serves_itself};
ghost use Rattle.irq_model.specs.Due.{calls_by};
ghost use Rattle.irq_model.specs.Lines.{script_in};

use crate::lines::is_same_part;
use irq_base::{Call, CallList, DevNo, DriverNo, NoMemory, Part, RunCallList};
use std::alloc::Global;

/// The call at index `place` of the list, with its driver.
#[tactic(auto, using(irq_model::proofs::Lists::next_item))]
fn call_at(calls: &CallList, place: usize) -> (DriverNo, Call)
    requires { place < length calls.now }
    ensures { drop place calls.now ≡ result ∷ drop (place + 1) calls.now }
{
    match calls.get(place) {
        Some(call) => call,
        None => unreachable!(),
    }
}

/// The call at index `place` of the list, with its device and part.
#[tactic(auto, using(irq_model::proofs::Lists::next_item))]
fn run_call_at(runs: &RunCallList, place: usize) -> (DevNo, Part, Call)
    requires { place < length runs.now }
    ensures { drop place runs.now ≡ result ∷ drop (place + 1) runs.now }
{
    match runs.get(place) {
        Some(call) => call,
        None => unreachable!(),
    }
}

/// The driver's calls, in order.
pub fn calls_by(alloc: Global, calls: &CallList, driver: DriverNo) -> Result<Vec<Call>, NoMemory>
    ensures { IfOk result (λ own. own.items ≡ calls_by driver calls.now) }
{
    let mut own = Vec::new(alloc);
    for i in 0..calls.len() {
        let (other, call) = call_at(calls, i);
        if driver == other {
            own.push(call)?;
        }
    }
    Ok(own)
}

/// The calls that a run of that part of the device makes, in order.
pub fn run_script(
    alloc: Global,
    runs: &RunCallList,
    dev: DevNo,
    part: Part,
) -> Result<Vec<Call>, NoMemory>
    ensures { IfOk result (λ own. own.items ≡ script_in runs.now dev part) }
{
    let mut own = Vec::new(alloc);
    for i in 0..runs.len() {
        let (other, its_part, call) = run_call_at(runs, i);
        if dev == other && is_same_part(part, its_part) {
            own.push(call)?;
        }
    }
    Ok(own)
}

/// The call serves the device.
fn serves_itself(dev: DevNo, call: Call) -> bool
    ensures { result ≡ serves_itself dev call }
{
    matches!(call, Call::Serve { dev: other } if dev == other)
}

/// Runs of that part of the device serve it by a call.
pub fn serves_by_script(runs: &RunCallList, dev: DevNo, part: Part) -> bool
    ensures { result ≡ list_any (serves_itself dev) (script_in runs.now dev part) }
{
    for i in 0..runs.len() {
        let (other, its_part, call) = run_call_at(runs, i);
        if dev == other && is_same_part(part, its_part) && serves_itself(dev, call) {
            return true;
        }
    }
    false
}
