//! Events, one after another.
ghost use Rattle.std.specs.Prelude.{◌≡◌, OnErr, OnOk};
ghost use Rattle.notifiers.specs.Told.{Told};
ghost use Rattle.irq_hotplug.specs.Fleet.{IsAfterSome, after_event, after_events};
ghost use Rattle.irq_hotplug.specs.Notices.{TellsMore};

use crate::fleet::Fleet;
use irq_base::{CpuNo, NoMemory};
use notifiers::Notifier;
use std::alloc::Global;

/// What happens to a processor.
#[derive(Clone, Copy, PartialEq, Eq)]
pub enum Event {
    /// It is to go offline (`cpu_down` of `kernel/cpu.c`).
    Off(CpuNo),
    /// It is to come online (`cpu_up`).
    On(CpuNo),
}

/// Takes the event. Adds the rows of its answer and of the lines that move. If it is refused
/// memory, nothing changes.
fn take_event<N: Notifier>(
    alloc: Global,
    fleet: &mut Fleet,
    event: Event,
    notify: &mut N,
) -> Result<(), NoMemory>
    ensures after { OnOk result (fleet.new ≡ after_event fleet.old event) }
    ensures refused { OnErr result (fleet.new ≡ fleet.old) }
    ensures told { TellsMore (λ placings. Told N.tells placings notify.old notify.new)
        fleet.old.said fleet.new.said }
{
    match event {
        Event::Off(cpu) => {
            fleet.offline(alloc, cpu, notify)?;
        }
        Event::On(cpu) => {
            fleet.online(cpu)?;
        }
    }
    Ok(())
}

/// Takes the events in order, and tells each placing to the notifier. The only error is `NoMemory`,
/// at one of the events; those before it were taken.
pub fn take_events<N: Notifier>(
    alloc: Global,
    fleet: &mut Fleet,
    events: &[Event],
    notify: &mut N,
) -> Result<(), NoMemory>
    ensures after { OnOk result (fleet.new ≡ after_events fleet.old events.now) }
    ensures some { OnErr result (IsAfterSome fleet.old events.now fleet.new) }
    ensures told { TellsMore (λ placings. Told N.tells placings notify.old notify.new)
        fleet.old.said fleet.new.said }
{
    for event in events {
        take_event(alloc, fleet, *event, notify)?;
    }
    Ok(())
}
