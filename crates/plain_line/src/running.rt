//! The run of a handler that an entry ends.
ghost use Rattle.std.specs.Prelude.{◌≡◌, ◌≤◌, length, IfErr, OnErr, OnOk, Some};
ghost use Rattle.irq_base.specs.declared.devices.Run.{Run};
ghost use Rattle.irq_base.specs.declared.numbers.CpuNo.{CpuNo};
ghost use Rattle.callbacks.specs.Heard.{Heard, one_run};
ghost use Rattle.irq_line.specs.Runs.{device_of, run_at, run_ended};

use callbacks::Hears;
use irq_base::{CpuEntry, DevNo, DeviceDef, Entry, LineDef, Part, Run, ThreadEntry};
use plain_next::{does_forget, is_held, kind_of, met_by, told_of};

/// Has the answer of the run that the entry ends, if it ends one.
///
/// # Errors
///
/// The answer isn't at hand. Nothing has changed then.
pub(crate) fn hear<E: Hears>(
    def: &LineDef,
    past: &[Entry],
    entry: Entry,
    ears: &mut E,
) -> Result<(), E::Lack>
    requires { length past.now ≤ 100000000 }
    ensures heard { OnOk result (Heard E.hears (one_run (run_ended def.now past.now entry)) ears.old
        ears.new) }
    ensures lacking { IfErr result (λ lack. (run : Run)
        × (run_ended def.now past.now entry ≡ Some run) × E.lacks ears.old run lack) }
    ensures unheard { OnErr result (ears.new ≡ ears.old) }
{
    let Some(run) = run_ended(def, past, entry) else {
        return Ok(());
    };
    match ears.hear(run) {
        Ok(_answer) => Ok(()),
        Err(lack) => Err(lack),
    }
}

/// The line's device with this number.
fn device(def: &LineDef, dev: DevNo) -> DeviceDef
    ensures { result ≡ device_of def.now dev }
{
    DeviceDef {
        dev,
        line: def.line,
        kind: kind_of(def, dev),
        held: is_held(def, dev),
        forgets: does_forget(def, dev),
    }
}

/// The run of that part of the device.
fn run_at(def: &LineDef, part: Part, dev: DevNo, past: &[Entry]) -> Run
    requires { length past.now ≤ 100000000 }
    ensures { result ≡ run_at def.now part dev past.now }
{
    Run {
        def: device(def, dev),
        part,
        unserved: met_by(def, part, dev, past),
        told: told_of(def, part, dev, past),
    }
}

/// The run of a handler that the processor's entry ends.
fn run_of_cpu(def: &LineDef, past: &[Entry], entry: CpuEntry) -> Option<Run>
    requires { length past.now ≤ 100000000 }
    ensures { (cpu : CpuNo) → result ≡ run_ended def.now past.now (Entry.Cpu cpu entry) }
{
    match entry {
        CpuEntry::Return { dev, .. } => Some(run_at(def, Part::Primary, dev, past)),
        _ => None,
    }
}

/// The run of the device's thread that the thread's entry ends.
fn run_of_thread(def: &LineDef, past: &[Entry], dev: DevNo, entry: ThreadEntry) -> Option<Run>
    requires { length past.now ≤ 100000000 }
    ensures { result ≡ run_ended def.now past.now (Entry.Thread dev entry) }
{
    match entry {
        ThreadEntry::Return { .. } => Some(run_at(def, Part::Thread, dev, past)),
        _ => None,
    }
}

/// The run that the entry ends, after a past whose newest entry comes first.
fn run_ended(def: &LineDef, past: &[Entry], entry: Entry) -> Option<Run>
    requires { length past.now ≤ 100000000 }
    ensures { result ≡ run_ended def.now past.now entry }
{
    match entry {
        Entry::Cpu(_, entry) => run_of_cpu(def, past, entry),
        Entry::Thread(dev, entry) => run_of_thread(def, past, dev, entry),
        _ => None,
    }
}
