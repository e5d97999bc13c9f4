//! The devices of a definition.
ghost use Rattle.std.specs.Prelude.{◌≡◌, ◌+◌, ◌<◌, ◌∷◌, drop, length};
ghost use Rattle.std.specs.List.{list_all, list_any};
ghost use Rattle.irq_model.specs.Kinds.{same_line};
ghost use Rattle.irq_model.specs.Lines.{is_device};
ghost use Rattle.line_valid.specs.Deciding.{has_distinct};

use irq_base::{DevNo, DeviceDef, DeviceList, LineDef};

/// Whether all devices are the line's own.
pub(crate) fn all_on_line(def: &LineDef) -> bool
    ensures { result ≡ list_all (λ x. same_line x.line def.now.line) def.now.devices }
{
    for i in 0..def.devices.len() {
        if device_at(&def.devices, i).line != def.line {
            return false;
        }
    }
    true
}

/// Whether a device from index `from` on has this number.
pub(crate) fn is_there(devices: &DeviceList, dev: DevNo, from: usize) -> bool
    ensures { result ≡ list_any (is_device dev) (drop from devices.now) }
{
    for i in from..devices.len() {
        if device_at(devices, i).dev == dev {
            return true;
        }
    }
    false
}

/// Whether no two devices have the same number.
pub(crate) fn has_distinct(devices: &DeviceList) -> bool
    ensures { result ≡ has_distinct devices.now }
{
    for i in 0..devices.len() {
        if is_there(devices, device_at(devices, i).dev, i + 1) {
            return false;
        }
    }
    true
}

/// The device at index `place`.
#[tactic(auto, using(irq_model::proofs::Lists::next_item))]
pub(crate) fn device_at(devices: &DeviceList, place: usize) -> DeviceDef
    requires { place < length devices.now }
    ensures { drop place devices.now ≡ result ∷ drop (place + 1) devices.now }
{
    match devices.get(place) {
        Some(device) => device,
        None => unreachable!(),
    }
}
