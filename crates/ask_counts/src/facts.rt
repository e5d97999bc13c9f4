//! What is fixed of a line's devices.
ghost use Rattle.std.specs.Prelude.{◌≡◌, ◌++◌, [], ◌∷◌, ◌&&◌, None, IfOk, OnOk};
ghost use Rattle.std.specs.List.{list_any};
ghost use Rattle.irq_base.specs.Handlers.{serving_part};
ghost use Rattle.irq_model.specs.Asks.{serves_itself, serving};
ghost use Rattle.irq_model.specs.Kinds.{same_dev};
ghost use Rattle.irq_model.specs.Lines.{kind_of, same_part, script_in};
ghost use Rattle.irq_model.specs.Valid.{HasDistinctDevices};
ghost use Rattle.device_table.specs.Rows.{at};
ghost use Rattle.ask_counts.specs.Facts.{all_facts, facts_at};

use device_table::{DeviceTable, same_part};
use irq_base::{Call, DevNo, Kind, LineDef, NoMemory, Part, RunCallList};
use std::alloc::Global;
use std::marker::Model;

/// What is fixed of a device.
#[derive(Clone, Copy)]
pub struct DeviceFacts {
    /// How its handlers work.
    pub kind: Kind,
    /// The part whose runs serve as they return: none if no part of its kind does, or if that
    /// part's script serves the device itself.
    pub serving: Option<Part>,
    /// On an edge line its signal stays until all is served.
    pub held: bool,
    /// On an edge line no edge comes as its own interrupt is turned on.
    pub forgets: bool,
}

/// What is fixed of a line's devices, by their numbers. Contracts see the list of the numbers with
/// the facts.
#[derive(Drop)]
pub struct FactTable {
    rows: DeviceTable<DeviceFacts>,
}

impl Model for FactTable {
    ghost use Rattle.std.specs.Prelude.{List};
    ghost use Rattle.irq_base.specs.declared.numbers.DevNo.{DevNo};
    ghost use Rattle.ask_counts.specs.declared.facts.DeviceFacts.{DeviceFacts};

    ghost Value = { List (DevNo × DeviceFacts) };

    ghost view = { λ t. t.rows };
}

impl FactTable {
    /// The facts of the definition's devices. The only error is `NoMemory`.
    pub fn new(alloc: Global, def: &LineDef) -> Result<FactTable, NoMemory>
        requires { HasDistinctDevices def.now.devices }
        ensures { IfOk result (λ t. t ≡ all_facts def.now) }
    {
        let mut facts = FactTable {
            rows: DeviceTable::empty(alloc),
        };
        for i in 0..def.devices.len() {
            if let Some(device) = def.devices.get(i) {
                let serving = serving(&def.runs, device.dev, device.kind);
                facts.add(
                    device.dev,
                    DeviceFacts {
                        kind: device.kind,
                        serving,
                        held: device.held,
                        forgets: device.forgets,
                    },
                )?;
            }
        }
        Ok(facts)
    }

    /// Adds a device that isn't there, at the end.
    fn add(&mut self, dev: DevNo, facts: DeviceFacts) -> Result<(), NoMemory>
        requires { at self.old dev ≡ None }
        ensures { OnOk result (self.new ≡ self.old ++ (dev, facts) ∷ []) }
    {
        self.rows.add(dev, facts)?;
        Ok(())
    }

    /// The facts of the device; a device that the line lacks is a stuck one.
    #[inline(always)]
    pub fn get(&self, dev: DevNo) -> DeviceFacts
        ensures { result ≡ facts_at self.now dev }
    {
        match self.rows.get(dev) {
            Some(facts) => facts,
            None => DeviceFacts {
                kind: Kind::Stuck,
                serving: None,
                held: false,
                forgets: false,
            },
        }
    }
}

/// The part of a device of this kind whose runs serve as they return.
fn serving(runs: &RunCallList, dev: DevNo, kind: Kind) -> Option<Part>
    ensures { (def : LineDef) → def.runs ≡ runs.now → kind_of def dev ≡ kind
        → result ≡ serving def dev }
{
    let part = serving_part(kind)?;
    if serves_itself(runs, dev, part) {
        None
    } else {
        Some(part)
    }
}

/// The part of a device of this kind whose runs serve, if its script doesn't.
fn serving_part(kind: Kind) -> Option<Part>
    ensures { result ≡ serving_part kind }
{
    match kind {
        Kind::Direct | Kind::Odd | Kind::Told { threaded: false } => Some(Part::Primary),
        Kind::Check | Kind::Null | Kind::Told { threaded: true } => Some(Part::Thread),
        Kind::Stuck => None,
    }
}

/// Whether the script of that part of the device serves the device.
fn serves_itself(runs: &RunCallList, dev: DevNo, part: Part) -> bool
    ensures { result ≡ list_any (serves_itself dev) (script_in runs.now dev part) }
{
    for i in 0..runs.len() {
        if let Some((owner, its_part, call)) = runs.get(i) {
            if is_own_serve(dev, part, owner, its_part, call) {
                return true;
            }
        }
    }
    false
}

/// Whether that part of the device makes the call, and serves the device by it.
fn is_own_serve(dev: DevNo, part: Part, owner: DevNo, its_part: Part, call: Call) -> bool
    ensures { result ≡ ((same_dev dev owner && same_part part its_part)
        && serves_itself dev call) }
{
    dev == owner && same_part(part, its_part) && serves_this(dev, call)
}

/// Whether the call serves the device.
fn serves_this(dev: DevNo, call: Call) -> bool
    ensures { result ≡ serves_itself dev call }
{
    match call {
        Call::Serve { dev: served } => dev == served,
        _ => false,
    }
}
