//! Whether a board has what a row names.
ghost use Rattle.std.specs.Prelude.{◌≡◌};
ghost use Rattle.board_def.specs.Rules.{find_device, is_on_line};
ghost use Rattle.irq_explore.specs.Present.{dev_named, dev_of_call, dev_of_cpu, dev_of_driver};
ghost use Rattle.irq_explore.specs.Present.{has_actor, has_dev, has_named};

use board_def::Board;
use irq_base::{Actor, CallEntry, CpuEntry, DevNo, DriverEntry, Entry, LineNo};
use line_wanted::Wanted;

/// The device that a processor's entry is about.
fn dev_of_cpu(entry: CpuEntry) -> Option<DevNo>
    ensures { result ≡ dev_of_cpu entry }
{
    match entry {
        CpuEntry::Begin { dev } | CpuEntry::Return { dev, .. } => Some(dev),
        CpuEntry::Take { .. } | CpuEntry::End { .. } => None,
    }
}

/// The device that a driver's entry is about.
fn dev_of_driver(entry: DriverEntry) -> Option<DevNo>
    ensures { result ≡ dev_of_driver entry }
{
    match entry {
        DriverEntry::Ask { dev, .. } | DriverEntry::Request { dev, .. } => Some(dev),
        DriverEntry::Affinity { .. } | DriverEntry::Moment { .. } => None,
    }
}

/// The device that the step of a call is about.
fn dev_of_call(call: CallEntry) -> Option<DevNo>
    ensures { result ≡ dev_of_call call }
{
    match call {
        CallEntry::Unlink { dev, .. }
        | CallEntry::Freed { dev }
        | CallEntry::Wake { dev, .. }
        | CallEntry::Quiet { dev }
        | CallEntry::Arm { dev, .. }
        | CallEntry::Serve { dev, .. } => Some(dev),
        CallEntry::Disable | CallEntry::HardClear | CallEntry::Synced | CallEntry::Enable { .. } =>
            None,
    }
}

/// The device that the entry is about, besides its maker's.
fn dev_named(entry: Entry) -> Option<DevNo>
    ensures { result ≡ dev_named entry }
{
    match entry {
        Entry::Cpu(_, entry) => dev_of_cpu(entry),
        Entry::Thread(_, _) => None,
        Entry::Driver(_, entry) => dev_of_driver(entry),
        Entry::CpuCall(_, call) | Entry::ThreadCall(_, call) | Entry::DriverCall(_, call) => {
            dev_of_call(call)
        }
    }
}

/// Whether the device is one of the line's.
fn is_on_line(board: &Board, line: LineNo, dev: DevNo) -> bool
    ensures { result ≡ is_on_line line (find_device board.now.devices dev) }
{
    match board.find_device(dev) {
        Some(device) => device.line == line,
        None => false,
    }
}

/// Whether the device, if one is named, is one of the line's.
fn has_dev(board: &Board, line: LineNo, dev: Option<DevNo>) -> bool
    ensures { result ≡ has_dev board.now line dev }
{
    match dev {
        Some(dev) => is_on_line(board, line, dev),
        None => true,
    }
}

/// Whether the board has the processor or the driver, or the thread's device on that line.
fn has_actor(board: &Board, line: LineNo, actor: Actor) -> bool
    ensures { result ≡ has_actor board.now line actor }
{
    match actor {
        Actor::Cpu(cpu) => cpu.0 < board.cpus(),
        Actor::Driver(driver) => board.has_driver(driver),
        Actor::Thread(dev) => is_on_line(board, line, dev),
    }
}

/// Whether the board has who and what the row names, the devices on that line.
pub(crate) fn has_named(board: &Board, line: LineNo, wanted: Wanted) -> bool
    ensures { result ≡ has_named board.now line wanted }
{
    match wanted {
        Wanted::Row(entry) => {
            has_actor(board, line, entry.actor()) && has_dev(board, line, dev_named(entry))
        }
        Wanted::Rest(left) => match left.hung {
            Some(actor) => has_actor(board, line, actor),
            None => true,
        },
    }
}
