//! A line over messages that go straight to the vectors, by hand.
ghost use Rattle.std.specs.Prelude.{◌≡◌, Some, [], ◌∷◌, IfOk, true, false};
ghost use Rattle.irq_base.specs.Cell.{fresh_cell};
ghost use Rattle.irq_base.specs.declared.lines.Trigger.TheVariants as triggers;
ghost use Rattle.line_makers.specs.Chips.{HasChips, cell_of_line};

use board_lines::MakesChainLine;
use callbacks::ByKind;
use chip_msi::Message;
use domain_chain::Chain;
use domain_hier::{AllocAnswer, Hierarchy};
use irq_base::{
    Actor, Call, CallList, ControllerKind, DevNo, DeviceDef, DeviceList, DomainDef, DriverNo,
    Flags, FlowKind, Kind, LineDef, LineNo, MapKind, NoMemory, RunCallList, ToldList, Trigger,
};
use irq_line::{IrqLine, Stepped};
use line_core::Line;
use line_makers::MakesDomainLine;
use line_valid::is_valid;
use std::alloc::Global;

const VECTOR: DomainDef = DomainDef {
    map: MapKind::Linear(8),
    kind: ControllerKind::Vector,
    parent: None,
};

const NEAR: DomainDef = DomainDef {
    map: MapKind::Tree,
    kind: ControllerKind::Msi,
    parent: Some(0),
};

const DEVICE: DeviceDef = DeviceDef {
    dev: DevNo(1),
    line: LineNo(2),
    kind: Kind::Direct,
    held: false,
    forgets: false,
};

const REQUEST: Call = Call::Request {
    dev: DevNo(1),
    flags: Flags {
        shared: false,
        oneshot: false,
        noauto: false,
    },
};

/// Two lines of messages: virq 1 has vector 0, and virq 2 vector 1.
fn near_vectors(alloc: Global) -> Result<Hierarchy, NoMemory>
    ensures { IfOk result (λ h. h ≡ record {
      domains = VECTOR ∷ NEAR ∷ [];
      paths = Some ((1, 39) ∷ (0, 0) ∷ []) ∷ Some ((1, 40) ∷ (0, 1) ∷ []) ∷ [];
    }) }
{
    let mut domains = Hierarchy::new(alloc);
    domains.add_domain(VECTOR)?;
    domains.add_domain(NEAR)?;
    let AllocAnswer::Ok(_) = domains.alloc(1, 39) else {
        return Err(NoMemory);
    };
    let AllocAnswer::Ok(_) = domains.alloc(1, 40) else {
        return Err(NoMemory);
    };
    Ok(domains)
}

/// The definition of a line of messages, which processor 1 of two takes; a driver makes its device
/// ask.
fn definition(alloc: Global) -> Result<LineDef, NoMemory>
    ensures { IfOk result (λ def. cell_of_line def
        ≡ fresh_cell triggers.Edge true false true false) }
{
    let mut devices = DeviceList::new(alloc);
    devices.push(DEVICE)?;
    let mut calls = CallList::new(alloc);
    calls.push((DriverNo(1), REQUEST))?;
    Ok(LineDef {
        line: LineNo(2),
        flow: FlowKind::Edge,
        trigger: Trigger::Edge,
        keeps: true,
        recalls: false,
        retriggers: true,
        unlazy: false,
        later: false,
        mask: 2,
        cpus: 2,
        window: 100_000,
        limit: 99_900,
        log: 8,
        devices,
        calls,
        runs: RunCallList::new(alloc),
        told: ToldList::new(alloc),
    })
}

/// The line of virq 2.
fn second_line(alloc: Global, domains: &Hierarchy, def: &LineDef) -> Result<Line<Chain>, NoMemory>
    requires { HasChips domains.now 2 def.now }
{
    MakesChainLine.make(alloc, domains, 2, def)
}

#[test]
fn message_of_a_line(rt: HostRuntime) -> Result<(), NoMemory> {
    let domains = near_vectors(rt.alloc())?;
    let def = definition(rt.alloc())?;
    if !is_valid(&def) {
        return Err(NoMemory);
    }
    let mut line = second_line(rt.alloc(), &domains, &def)?;
    assert!(rt; line.chip().message().is_none());
    let step = line.step(Actor::Driver(DriverNo(1)), &mut ByKind);
    assert!(rt; matches!(&step, Ok(Stepped::Added(_))));
    let message = Message {
        address: 0xFEE0_1000,
        payload: 1,
    };
    assert!(rt; line.chip().message() == Some(message));
    Ok(())
}
