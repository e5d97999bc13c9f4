//! The calls of a definition.
ghost use Rattle.std.specs.Prelude.{◌≡◌, ◌+◌, ◌<◌, ◌∷◌, drop, length};
ghost use Rattle.std.specs.List.{list_all};
ghost use Rattle.irq_model.specs.Valid.{requests_dev, frees_dev, names_one_of};
ghost use Rattle.line_valid.specs.Deciding.{links_dev, shares, agrees, has_one_owner};
ghost use Rattle.line_valid.specs.Deciding.{is_freed_first, is_freed_after, is_freed_between};

use crate::devices::is_there;
use irq_base::{Call, CallList, DevNo, DeviceList, DriverNo, LineDef};

/// The call at index `place`.
#[tactic(auto, using(irq_model::proofs::Lists::next_item))]
pub(crate) fn call_at(calls: &CallList, place: usize) -> (DriverNo, Call)
    requires { place < length calls.now }
    ensures { drop place calls.now ≡ result ∷ drop (place + 1) calls.now }
{
    match calls.get(place) {
        Some(call) => call,
        None => unreachable!(),
    }
}

/// Whether the call names a device of the list, or no device.
fn names_one_of(devices: &DeviceList, call: Call) -> bool
    ensures { result ≡ names_one_of devices.now call }
{
    match call {
        Call::Ask { dev } | Call::Request { dev, .. } | Call::Free { dev } => {
            is_there(devices, dev, 0)
        }
        _ => true,
    }
}

/// Whether each call names devices of the line alone.
pub(crate) fn all_named(def: &LineDef) -> bool
    ensures { result ≡ list_all (λ c. names_one_of def.now.devices c.1) def.now.calls }
{
    for i in 0..def.calls.len() {
        if !names_one_of(&def.devices, call_at(&def.calls, i).1) {
            return false;
        }
    }
    true
}

fn requests_dev(dev: DevNo, call: Call) -> bool
    ensures { result ≡ requests_dev dev call }
{
    matches!(call, Call::Request { dev: other, .. } if dev == other)
}

fn frees_dev(dev: DevNo, call: Call) -> bool
    ensures { result ≡ frees_dev dev call }
{
    matches!(call, Call::Free { dev: other } if dev == other)
}

/// Whether both calls request or free the same device.
fn shares(call: Call, other: Call) -> bool
    ensures { result ≡ shares call other }
{
    match call {
        Call::Request { dev, .. } | Call::Free { dev } => {
            requests_dev(dev, other) || frees_dev(dev, other)
        }
        _ => false,
    }
}

/// Whether the calls are made by one driver, or don't both request or free the same device.
fn agrees(call: (DriverNo, Call), other: (DriverNo, Call)) -> bool
    ensures { result ≡ agrees call other }
{
    !shares(call.1, other.1) || call.0 == other.0
}

fn agrees_with_all(calls: &CallList, call: (DriverNo, Call)) -> bool
    ensures { result ≡ list_all (agrees call) calls.now }
{
    for i in 0..calls.len() {
        if !agrees(call, call_at(calls, i)) {
            return false;
        }
    }
    true
}

/// Whether each device is requested and freed by one driver.
pub(crate) fn has_one_owner(calls: &CallList) -> bool
    ensures { result ≡ has_one_owner calls.now }
{
    for i in 0..calls.len() {
        if !agrees_with_all(calls, call_at(calls, i)) {
            return false;
        }
    }
    true
}

/// Whether from index `from` on no request of the device comes before a free of it.
fn is_freed_first(calls: &CallList, dev: DevNo, from: usize) -> bool
    ensures { result ≡ is_freed_first dev (drop from calls.now) }
{
    for i in from..calls.len() {
        let (_, call) = call_at(calls, i);
        if frees_dev(dev, call) {
            return true;
        }
        if requests_dev(dev, call) {
            return false;
        }
    }
    true
}

fn is_freed_after(calls: &CallList, call: Call, from: usize) -> bool
    ensures { result ≡ is_freed_after call (drop from calls.now) }
{
    match call {
        Call::Request { dev, .. } => is_freed_first(calls, dev, from),
        _ => true,
    }
}

/// Whether a free stands between any two requests of one device.
pub(crate) fn is_freed_between(calls: &CallList) -> bool
    ensures { result ≡ is_freed_between calls.now }
{
    for i in 0..calls.len() {
        if !is_freed_after(calls, call_at(calls, i).1, i + 1) {
            return false;
        }
    }
    true
}
