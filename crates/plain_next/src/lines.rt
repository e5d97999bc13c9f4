//! What is fixed of a line.
ghost use Rattle.std.specs.Prelude.{◌≡◌, ◌<◌, ◌≤◌, Bool, ◌+◌, ◌∷◌, drop, length};
ghost use Rattle.std.specs.List.{list_any};
ghost use Rattle.irq_base.specs.declared.numbers.DevNo.{DevNo};
ghost use Rattle.irq_model.specs.Places.{count_of};
ghost use Rattle.plain_next.specs.Tests.{Computes};
ghost use Rattle.irq_model.specs.Lines.{is_edge_line, is_level_line, is_eoi_flow, serves};
ghost use Rattle.irq_model.specs.Lines.{has_device, kind_in, kind_of, is_in_mask, same_part};
ghost use Rattle.irq_model.specs.Lines.{is_held, does_forget};

use irq_base::{DevNo, DeviceDef, DeviceList, FlowKind, Kind, LineDef, Part, Trigger};

/// The line is raised by edges.
pub fn is_edge_line(def: &LineDef) -> bool
    ensures { result ≡ is_edge_line def.now }
{
    matches!(def.trigger, Trigger::Edge)
}

/// The line is raised by a level.
pub fn is_level_line(def: &LineDef) -> bool
    ensures { result ≡ is_level_line def.now }
{
    matches!(def.trigger, Trigger::Level)
}

/// The line has the fast-EOI flow.
pub fn is_eoi_flow(def: &LineDef) -> bool
    ensures { result ≡ is_eoi_flow def.now.flow }
{
    matches!(def.flow, FlowKind::Eoi)
}

/// The line's cell keeps an interrupt in service from its take to its end.
pub fn serves(def: &LineDef) -> bool
    ensures { result ≡ serves def.now }
{
    is_level_line(def) && is_eoi_flow(def)
}

/// The device at index `place` of the list.
#[tactic(auto, using(irq_model::proofs::Lists::next_item))]
fn device_at(devices: &DeviceList, place: usize) -> DeviceDef
    requires { place < length devices.now }
    ensures { drop place devices.now ≡ result ∷ drop (place + 1) devices.now }
{
    match devices.get(place) {
        Some(device) => device,
        None => unreachable!(),
    }
}

/// The kind of the device; a device that isn't in the list counts as stuck, so it never serves.
fn kind_in(devices: &DeviceList, dev: DevNo) -> Kind
    ensures { result ≡ kind_in devices.now dev }
{
    for i in 0..devices.len() {
        let device = device_at(devices, i);
        if dev == device.dev {
            return device.kind;
        }
    }
    Kind::Stuck
}

/// The kind of the line's device.
pub fn kind_of(def: &LineDef, dev: DevNo) -> Kind
    ensures { result ≡ kind_of def.now dev }
{
    kind_in(&def.devices, dev)
}

/// Both are the same part.
pub fn is_same_part(part: Part, other: Part) -> bool
    ensures { result ≡ same_part part other }
{
    part == other
}

/// The device's signal stays until all is served.
pub fn is_held(def: &LineDef, dev: DevNo) -> bool
    ensures { result ≡ is_held def.now dev }
{
    for i in 0..def.devices.len() {
        let device = device_at(&def.devices, i);
        if dev == device.dev && device.held {
            return true;
        }
    }
    false
}

/// The device makes no edge as its own interrupt is turned on.
pub fn does_forget(def: &LineDef, dev: DevNo) -> bool
    ensures { result ≡ does_forget def.now dev }
{
    for i in 0..def.devices.len() {
        let device = device_at(&def.devices, i);
        if dev == device.dev && device.forgets {
            return true;
        }
    }
    false
}

/// The line has the device.
pub fn has_device(def: &LineDef, dev: DevNo) -> bool
    ensures { result ≡ has_device def.now dev }
{
    any_device(def, |other| dev == other)
}

/// The processor with this number is in the mask.
pub fn is_in_mask(mask: u32, cpu: u32) -> bool
    requires { cpu < 32 }
    ensures { result ≡ is_in_mask mask cpu }
{
    (mask >> cpu) & 1 == 1
}

/// Some device of the line passes the test.
pub fn any_device<T: Fn(DevNo) -> bool + Drop>(def: &LineDef, test: T) -> bool
    requires { T.IsAlwaysCallable test }
    ensures { (x : DevNo → Bool) → Computes (T.post test) x
        → result ≡ list_any (λ device. x device.dev) def.now.devices }
{
    for i in 0..def.devices.len() {
        if test(device_at(&def.devices, i).dev) {
            return true;
        }
    }
    false
}

/// How many devices of the line pass the test.
pub fn count_devices<T: Fn(DevNo) -> bool + Drop>(def: &LineDef, test: T) -> u32
    requires callable { T.IsAlwaysCallable test }
    requires few { length def.now.devices ≤ 256 }
    ensures value { (x : DevNo → Bool) → Computes (T.post test) x
        → result ≡ count_of (λ device. x device.dev) def.now.devices }
    ensures within { result ≤ 256 }
{
    let mut count = 0;
    for i in 0..def.devices.len() {
        if test(device_at(&def.devices, i).dev) {
            count += 1;
        }
    }
    count
}
