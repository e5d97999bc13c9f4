//! Who owns the devices: the driver that made the first request or free of a device makes all of
//! them, and between two requests stands a free.
ghost use Rattle.std.specs.Prelude.{◌≡◌, List, [], ◌∷◌, ◌++◌, OnOk};
ghost use Rattle.board_def.specs.Rules.{is_bad_owner};
ghost use Rattle.board_def.specs.declared.rows.ScriptCall.{ScriptCall};
ghost use Rattle.indexmap.specs.IndexMap.{insert_entry};
ghost use Rattle.irq_model.specs.Kinds.{same_dev};
ghost use Rattle.board_text.specs.Owned.{owner_in, Owns, owner_noted};

use board_def::ScriptCall;
use indexmap::IndexMap;
use irq_base::{Call, DevNo, DriverNo, NoMemory};
use std::alloc::Global;
use std::marker::Model;

/// What the scripts so far say of a device.
#[derive(Clone, Copy, PartialEq, Eq)]
pub struct Owner {
    /// The driver that made the first request or free of the device.
    pub driver: DriverNo,
    /// Of the requests and frees of the device, the last is a request.
    pub requested: bool,
}

/// The owners of the devices that were requested or freed so far. Contracts see the pairs of a
/// device and its owner.
#[derive(Drop)]
pub struct Owners {
    devices: IndexMap<DevNo, Owner>,
}

impl Model for Owners {
    ghost use Rattle.std.specs.Prelude.{List};
    ghost use Rattle.irq_base.specs.declared.numbers.DevNo.{DevNo};
    ghost use Rattle.board_text.specs.declared.owners.Owner.{Owner};

    ghost Value = { List (DevNo × Owner) };

    ghost view = { λ o. o.devices.entries };
}

impl Owners {
    /// No device has an owner.
    pub fn new(alloc: Global) -> Owners
        ensures { result ≡ [] }
    {
        Owners {
            devices: IndexMap::new(alloc),
        }
    }

    /// The owner of the device.
    fn of(&self, dev: DevNo) -> Option<Owner>
        ensures { result ≡ owner_in dev self.now }
    {
        self.devices.get(&dev).copied()
    }

    /// Whether the rule forbids the driver this call after the calls so far.
    pub fn forbid(&self, driver: DriverNo, call: Call) -> bool
        ensures { (calls : List ScriptCall) → Owns self.now calls
            → result ≡ is_bad_owner calls driver call }
    {
        match call {
            Call::Request { dev, .. } => match self.of(dev) {
                Some(owner) => owner.driver.0 != driver.0 || owner.requested,
                None => false,
            },
            Call::Free { dev } => match self.of(dev) {
                Some(owner) => owner.driver.0 != driver.0,
                None => false,
            },
            Call::Ask { .. }
            | Call::Disable
            | Call::DisableNosync
            | Call::Enable
            | Call::Sync
            | Call::Affinity { .. }
            | Call::Moment { .. }
            | Call::SyncHard
            | Call::DisableHard
            | Call::Wake { .. }
            | Call::Quiet { .. }
            | Call::Arm { .. }
            | Call::Serve { .. } => false,
        }
    }

    /// Takes note of a call after the calls so far.
    pub fn note(&mut self, call: &ScriptCall) -> Result<(), NoMemory>
        ensures { (calls : List ScriptCall) → Owns self.old calls
            → OnOk result (Owns self.new (calls ++ call.now ∷ [])) }
    {
        match call.call {
            Call::Request { dev, .. } => self.note_owner(dev, call.driver, true),
            Call::Free { dev } => self.note_owner(dev, call.driver, false),
            Call::Ask { .. }
            | Call::Disable
            | Call::DisableNosync
            | Call::Enable
            | Call::Sync
            | Call::Affinity { .. }
            | Call::Moment { .. }
            | Call::SyncHard
            | Call::DisableHard
            | Call::Wake { .. }
            | Call::Quiet { .. }
            | Call::Arm { .. }
            | Call::Serve { .. } => Ok(()),
        }
    }

    /// Takes note of a request or a free by the driver.
    fn note_owner(&mut self, dev: DevNo, driver: DriverNo, requested: bool) -> Result<(), NoMemory>
        ensures { OnOk result
            (self.new
            ≡ insert_entry same_dev self.old dev
            (owner_noted (owner_in dev self.old) driver requested)) }
    {
        let driver = match self.of(dev) {
            Some(owner) => owner.driver,
            None => driver,
        };
        self.devices.insert(dev, Owner { driver, requested })?;
        Ok(())
    }
}
