//! Who has a worker.
ghost use Rattle.std.specs.Prelude.{◌≡◌, ◌++◌, IfOk, OnOk, map, filter};
ghost use Rattle.irq_base.specs.declared.devices.DeviceDef.{DeviceDef};
ghost use Rattle.irq_base.specs.declared.entries.Actor.TheVariants as kinds;
ghost use Rattle.play_laws.specs.Actors.{count_up};
ghost use Rattle.board_play.specs.Order.{drivers_of};
ghost use Rattle.workers.specs.Fit.{has_worker, workers_of};

use crate::lines::SharedLines;
use board_def::Board;
use irq_base::{Actor, CpuNo, NoMemory};
use irq_line::IrqLine;
use std::alloc::Global;

/// The actors that get a worker: the threads of the lines' devices, the processors and the drivers.
pub(crate) fn make_crew<L: IrqLine>(
    alloc: Global,
    board: &Board,
    lines: &SharedLines<L>,
) -> Result<Vec<Actor>, NoMemory>
    ensures { IfOk result (λ crew. crew.items ≡ workers_of board.now lines.now) }
{
    let mut crew = Vec::new(alloc);
    push_threads(&mut crew, board, lines)?;
    push_cpus(&mut crew, board.cpus())?;
    push_drivers(&mut crew, board)?;
    Ok(crew)
}

fn push_threads<L: IrqLine>(
    crew: &mut Vec<Actor>,
    board: &Board,
    lines: &SharedLines<L>,
) -> Result<(), NoMemory>
    ensures { OnOk result
        (crew.new.items
        ≡ crew.old.items ++ map (λ (x : DeviceDef). kinds.Thread x.dev)
        (filter (has_worker lines.now) board.now.devices)) }
{
    for i in 0..board.devices_len() {
        let Some(device) = board.device(i) else {
            unreachable!();
        };
        if lines.has_worker(device) {
            crew.push(Actor::Thread(device.dev))?;
        }
    }
    Ok(())
}

fn push_cpus(crew: &mut Vec<Actor>, cpus: u32) -> Result<(), NoMemory>
    ensures { OnOk result
        (crew.new.items
        ≡ crew.old.items ++ map (λ n. kinds.Cpu (record { 0 = n })) (count_up 0 cpus)) }
{
    for cpu in 0..cpus {
        crew.push(Actor::Cpu(CpuNo(cpu)))?;
    }
    Ok(())
}

fn push_drivers(crew: &mut Vec<Actor>, board: &Board) -> Result<(), NoMemory>
    ensures { OnOk result (crew.new.items ≡ crew.old.items ++ drivers_of board.now) }
{
    for i in 0..board.drivers_len() {
        let Some(driver) = board.driver(i) else {
            unreachable!();
        };
        crew.push(Actor::Driver(driver))?;
    }
    Ok(())
}
