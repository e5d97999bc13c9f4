//! A step of a line of the repository comes, though its log is no longer than its bound.
ghost use Rattle.std.specs.Prelude.{◌≡◌, IfOk};
ghost use Rattle.part_tests.specs.AskedLine.{asked_line};

use callbacks::ByKind;
use irq_base::{
    Actor, Call, CallList, CpuNo, DevNo, DeviceDef, DeviceList, DriverEntry, DriverNo, Entry,
    FlowKind, Kind, LineDef, LineNo, NoMemory, RunCallList, ToldList, Trigger,
};
use irq_line::Stepped;
use line_orders::step_within_bound;
use plain_line::PlainLine;
use std::alloc::Global;
use std::process::Abort;
use std::test::Fail;

const LINE: LineNo = LineNo(7);

const DEV: DevNo = DevNo(3);

const DRIVER: DriverNo = DriverNo(1);

/// One device and one ask: (6 + 8) times 2 entries.
fn asked(alloc: Global) -> Result<LineDef, NoMemory>
    ensures { IfOk result (λ def. def ≡ asked_line) }
{
    let mut devices = DeviceList::new(alloc);
    devices.push(DeviceDef {
        dev: DEV,
        line: LINE,
        kind: Kind::Direct,
        held: false,
        forgets: false,
    })?;
    let mut calls = CallList::new(alloc);
    calls.push((DRIVER, Call::Ask { dev: DEV }))?;
    Ok(LineDef {
        line: LINE,
        flow: FlowKind::Edge,
        trigger: Trigger::Edge,
        keeps: true,
        recalls: true,
        retriggers: true,
        unlazy: false,
        later: false,
        mask: 1,
        cpus: 1,
        window: 100_000,
        limit: 99_900,
        log: 28,
        devices,
        calls,
        runs: RunCallList::new(alloc),
        told: ToldList::new(alloc),
    })
}

#[test]
#[tactic(auto, using(crate::proofs::AskedLine::asked_is_valid, crate::proofs::AskedLine::asked_has_valid_runs, crate::proofs::AskedLine::asked_never_waits, crate::proofs::AskedLine::asked_is_bounded, crate::proofs::AskedLine::asked_is_ample))]
fn a_step_comes(rt: HostRuntime) -> Result<(), Fail> {
    let def = asked(rt.alloc())?;
    let mut line = PlainLine::new(rt.alloc(), &def)?;
    let first = step_within_bound(&mut line, Actor::Driver(DRIVER), &mut ByKind)?;
    assert!(&rt;
        first
            == Stepped::Added(Entry::Driver(
                DRIVER,
                DriverEntry::Ask {
                    edge: true,
                    dev: DEV
                }
            ))
    );
    let next = step_within_bound(&mut line, Actor::Cpu(CpuNo(0)), &mut ByKind)?;
    assert!(&rt; next == Stepped::NotYet);
    Ok(())
}
