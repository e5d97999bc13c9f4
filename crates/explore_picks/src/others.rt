//! The actors that may move on other lines.
use board_core::System;
use board_def::Board;
use irq_base::{Actor, CpuNo, LineNo, NoMemory};
use irq_line::IrqLine;
use std::alloc::Global;

/// The threads of the other lines, the processors and the drivers. The only error is `NoMemory`.
pub(crate) fn others_of(
    alloc: Global,
    board: &Board,
    line: LineNo,
) -> Result<Vec<Actor>, NoMemory> {
    let mut others = Vec::new(alloc);
    push_threads(&mut others, board, line)?;
    for cpu in 0..board.cpus() {
        others.push(Actor::Cpu(CpuNo(cpu)))?;
    }
    for place in 0..board.drivers_len() {
        if let Some(driver) = board.driver(place) {
            others.push(Actor::Driver(driver))?;
        }
    }
    Ok(others)
}

/// The threads of the other lines. The only error is `NoMemory`.
fn push_threads(others: &mut Vec<Actor>, board: &Board, line: LineNo) -> Result<(), NoMemory> {
    for place in 0..board.devices_len() {
        if let Some(device) = board.device(place) {
            if device.line != line {
                others.push(Actor::Thread(device.dev))?;
            }
        }
    }
    Ok(())
}

/// Whether the actor's next move, if it has one, is on another line.
pub(crate) fn is_elsewhere<L: IrqLine>(system: &System<'_, L>, line: LineNo, actor: Actor) -> bool {
    match actor {
        Actor::Thread(dev) => match system.board().find_device(dev) {
            Some(device) => device.line != line,
            None => false,
        },
        Actor::Cpu(cpu) => is_cpu_elsewhere(system, line, cpu),
        Actor::Driver(driver) => match system.due_call(driver) {
            Some(call) => call.line != line,
            None => false,
        },
    }
}

/// Whether the processor is in the flow of another line, or takes from another line first.
fn is_cpu_elsewhere<L: IrqLine>(system: &System<'_, L>, line: LineNo, cpu: CpuNo) -> bool {
    if let Some(of) = system.flow_line(cpu) {
        return of != line;
    }
    let place = system.takes(cpu).trailing_zeros() as usize;
    match system.lines().get(place) {
        Some(first) => first.definition().line != line,
        None => false,
    }
}
