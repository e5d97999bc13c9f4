//! Who may move on a line.
use irq_base::{Actor, CpuNo, LineDef, NoMemory};
use std::alloc::Global;

/// The actors of the line, each once: the threads of its devices, the processors of its machine,
/// and its drivers.
pub(crate) fn actors_of(alloc: Global, def: &LineDef) -> Result<Vec<Actor>, NoMemory> {
    let mut actors = Vec::new(alloc);
    add_threads(&mut actors, def)?;
    for cpu in 0..def.cpus {
        actors.push(Actor::Cpu(CpuNo(cpu)))?;
    }
    add_drivers(&mut actors, def)?;
    Ok(actors)
}

fn add_threads(actors: &mut Vec<Actor>, def: &LineDef) -> Result<(), NoMemory> {
    for i in 0..def.devices.len() {
        match def.devices.get(i) {
            Some(device) if device.kind.has_thread() => {
                actors.push(Actor::Thread(device.dev))?;
            }
            _ => {}
        }
    }
    Ok(())
}

fn add_drivers(actors: &mut Vec<Actor>, def: &LineDef) -> Result<(), NoMemory> {
    for i in 0..def.calls.len() {
        if let Some((driver, _)) = def.calls.get(i) {
            let driver = Actor::Driver(driver);
            if !actors.contains(&driver) {
                actors.push(driver)?;
            }
        }
    }
    Ok(())
}
