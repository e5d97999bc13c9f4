//! The definition of the line.
use irq_base::{
    Call, CallList, DevNo, DeviceDef, DeviceList, DriverNo, Flags, FlowKind, Kind, LineDef, LineNo,
    NoMemory, RunCallList, ToldList, Trigger,
};
use std::alloc::Global;

const LINE: LineNo = LineNo(1);

const DEV: DevNo = DevNo(1);

/// An edge line with one device, and one driver that requests it and has it ask twice. The only
/// error is `NoMemory`.
pub fn one_line(alloc: Global) -> Result<LineDef, NoMemory> {
    let mut devices = DeviceList::new(alloc);
    devices.push(DeviceDef {
        dev: DEV,
        line: LINE,
        kind: Kind::Direct,
        held: false,
        forgets: false,
    })?;
    let mut calls = CallList::new(alloc);
    let request = Call::Request {
        dev: DEV,
        flags: Flags::NONE,
    };
    for call in [request, Call::Ask { dev: DEV }, Call::Ask { dev: DEV }] {
        calls.push((DriverNo(1), call))?;
    }
    Ok(LineDef {
        line: LINE,
        flow: FlowKind::Edge,
        trigger: Trigger::Edge,
        keeps: true,
        recalls: true,
        retriggers: true,
        unlazy: false,
        later: false,
        mask: 1,
        cpus: 1,
        window: 100_000,
        limit: 99_900,
        log: 1000,
        devices,
        calls,
        runs: RunCallList::new(alloc),
        told: ToldList::new(alloc),
    })
}
