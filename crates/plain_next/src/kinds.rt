//! Tests on one entry.
ghost use Rattle.std.specs.Prelude.{◌≡◌};
ghost use Rattle.irq_model.specs.Kinds.{is_device_edge, is_ask, is_begin};
ghost use Rattle.irq_model.specs.Kinds.{is_begin_or_return, returns_wake, returns_handled, wakes};
ghost use Rattle.irq_model.specs.Kinds.{is_thread_begin, is_thread_return, is_finish};
ghost use Rattle.irq_model.specs.Kinds.{is_cleared_finish, is_done, is_take, is_resend_take};
ghost use Rattle.irq_model.specs.Kinds.{is_handle, is_busy, is_off, is_again, is_leave, is_kill};
ghost use Rattle.irq_model.specs.Kinds.{is_reopening, is_linked_request, links_dev, unlinks_dev};
ghost use Rattle.irq_model.specs.Kinds.{is_last_unlink, opened_by_enable, opened_of, is_start};
ghost use Rattle.irq_model.specs.Kinds.{is_chip_start, is_soft_start, is_disable, is_by_driver};
ghost use Rattle.irq_model.specs.Kinds.{is_unlink, is_freed, is_freed_by, made_by};
ghost use Rattle.irq_model.specs.Kinds.{turns_off, turns_on, is_serve, is_cpu_call, is_thread_call};
ghost use Rattle.irq_model.specs.Links.{is_deepening, is_lowering};
ghost use Rattle.plain_next.specs.Calls.{call_of, dev_linked, dev_unlinked};
ghost use Rattle.plain_next.specs.Calls.{returns_and_wakes, wakes_by_some_call};

use irq_base::{
    Actor, Answer, CallEntry, CpuEntry, DevNo, DriverEntry, DriverNo, EnableAnswer, Entry,
    LinkAnswer, Note, Opened, Resend, TakeAnswer, ThreadEntry, UnlinkAnswer, Way,
};

/// The step of a call, whoever made it.
pub fn call_of(entry: Entry) -> Option<CallEntry>
    ensures { result ≡ call_of entry }
{
    match entry {
        Entry::CpuCall(_, call) | Entry::ThreadCall(_, call) | Entry::DriverCall(_, call) => {
            Some(call)
        }
        Entry::Cpu(..) | Entry::Thread(..) | Entry::Driver(..) => None,
    }
}

/// The actor's step of a call.
pub fn made_by(actor: Actor, call: CallEntry) -> Entry
    ensures { result ≡ made_by actor call }
{
    match actor {
        Actor::Cpu(cpu) => Entry::CpuCall(cpu, call),
        Actor::Thread(dev) => Entry::ThreadCall(dev, call),
        Actor::Driver(driver) => Entry::DriverCall(driver, call),
    }
}

/// A device makes an edge, if the line is raised by edges: by an ask, or as its own interrupt is
/// turned on.
pub fn is_device_edge(entry: Entry) -> bool
    ensures { result ≡ is_device_edge entry }
{
    if let Entry::Driver(_, DriverEntry::Ask { edge, .. }) = entry {
        return edge;
    }
    matches!(call_of(entry), Some(CallEntry::Arm { edge: true, .. }))
}

/// The device asks for service.
pub fn is_ask(dev: DevNo, entry: Entry) -> bool
    ensures { result ≡ is_ask dev entry }
{
    matches!(entry, Entry::Driver(_, DriverEntry::Ask { dev: other, .. }) if dev == other)
}

/// The device's handler begins.
pub fn is_begin(dev: DevNo, entry: Entry) -> bool
    ensures { result ≡ is_begin dev entry }
{
    matches!(entry, Entry::Cpu(_, CpuEntry::Begin { dev: other }) if dev == other)
}

/// A handler begins or returns.
pub fn is_begin_or_return(entry: Entry) -> bool
    ensures { result ≡ is_begin_or_return entry }
{
    matches!(
        entry,
        Entry::Cpu(_, CpuEntry::Begin { .. } | CpuEntry::Return { .. })
    )
}

/// A handler returns and wakes its thread.
pub fn returns_wake(entry: Entry) -> bool
    ensures { result ≡ returns_wake entry }
{
    matches!(
        entry,
        Entry::Cpu(
            _,
            CpuEntry::Return {
                answer: Answer::Wake,
                ..
            },
        )
    )
}

/// A handler returns and has handled.
pub fn returns_handled(entry: Entry) -> bool
    ensures { result ≡ returns_handled entry }
{
    matches!(
        entry,
        Entry::Cpu(
            _,
            CpuEntry::Return {
                answer: Answer::Handled,
                ..
            },
        )
    )
}

/// The device's handler returns and wakes its thread.
fn returns_and_wakes(dev: DevNo, entry: Entry) -> bool
    ensures { result ≡ returns_and_wakes dev entry }
{
    matches!(
        entry,
        Entry::Cpu(_, CpuEntry::Return { dev: other, answer: Answer::Wake, .. }) if dev == other
    )
}

/// A call wakes the device's thread.
fn wakes_by_call(dev: DevNo, call: Option<CallEntry>) -> bool
    ensures { result ≡ wakes_by_some_call dev call }
{
    matches!(call, Some(CallEntry::Wake { woken: true, dev: other }) if dev == other)
}

/// The device's thread is woken, by its handler's return or by a call.
pub fn wakes(dev: DevNo, entry: Entry) -> bool
    ensures { result ≡ wakes dev entry }
{
    returns_and_wakes(dev, entry) || wakes_by_call(dev, call_of(entry))
}

/// The device's own interrupt is turned off.
pub fn turns_off(dev: DevNo, entry: Entry) -> bool
    ensures { result ≡ turns_off dev entry }
{
    matches!(call_of(entry), Some(CallEntry::Quiet { dev: other }) if dev == other)
}

/// The device's own interrupt is turned on.
pub fn turns_on(dev: DevNo, entry: Entry) -> bool
    ensures { result ≡ turns_on dev entry }
{
    matches!(call_of(entry), Some(CallEntry::Arm { dev: other, .. }) if dev == other)
}

/// A call serves the device.
pub fn is_serve(dev: DevNo, entry: Entry) -> bool
    ensures { result ≡ is_serve dev entry }
{
    matches!(call_of(entry), Some(CallEntry::Serve { dev: other, .. }) if dev == other)
}

/// A handler's step of a call.
pub fn is_cpu_call(entry: Entry) -> bool
    ensures { result ≡ is_cpu_call entry }
{
    matches!(entry, Entry::CpuCall(..))
}

/// A step of a call by the handler of the device's thread.
pub fn is_thread_call(dev: DevNo, entry: Entry) -> bool
    ensures { result ≡ is_thread_call dev entry }
{
    matches!(entry, Entry::ThreadCall(other, _) if dev == other)
}

/// The device's thread handler begins.
pub fn is_thread_begin(dev: DevNo, entry: Entry) -> bool
    ensures { result ≡ is_thread_begin dev entry }
{
    matches!(entry, Entry::Thread(other, ThreadEntry::Begin) if dev == other)
}

/// The device's thread handler returns.
pub fn is_thread_return(dev: DevNo, entry: Entry) -> bool
    ensures { result ≡ is_thread_return dev entry }
{
    matches!(entry, Entry::Thread(other, ThreadEntry::Return { .. }) if dev == other)
}

/// The device's thread finishes its one-shot run.
pub fn is_finish(dev: DevNo, entry: Entry) -> bool
    ensures { result ≡ is_finish dev entry }
{
    matches!(entry, Entry::Thread(other, ThreadEntry::Finish { .. }) if dev == other)
}

/// The device's thread gives its bit up.
pub fn is_cleared_finish(dev: DevNo, entry: Entry) -> bool
    ensures { result ≡ is_cleared_finish dev entry }
{
    matches!(entry, Entry::Thread(other, ThreadEntry::Finish { kept: false, .. }) if dev == other)
}

/// The device's thread is done with its run.
pub fn is_done(dev: DevNo, entry: Entry) -> bool
    ensures { result ≡ is_done dev entry }
{
    matches!(entry, Entry::Thread(other, ThreadEntry::Done) if dev == other)
}

/// A processor takes an interrupt.
pub fn is_take(entry: Entry) -> bool
    ensures { result ≡ is_take entry }
{
    matches!(entry, Entry::Cpu(_, CpuEntry::Take { .. }))
}

/// A processor takes a software resend.
pub fn is_resend_take(entry: Entry) -> bool
    ensures { result ≡ is_resend_take entry }
{
    matches!(
        entry,
        Entry::Cpu(
            _,
            CpuEntry::Take {
                way: Way::Resend,
                ..
            },
        )
    )
}

/// A take whose handlers are to run.
pub fn is_handle(entry: Entry) -> bool
    ensures { result ≡ is_handle entry }
{
    matches!(
        entry,
        Entry::Cpu(
            _,
            CpuEntry::Take {
                answer: TakeAnswer::Handle,
                ..
            },
        )
    )
}

/// A take that found a flow in progress.
pub fn is_busy(entry: Entry) -> bool
    ensures { result ≡ is_busy entry }
{
    matches!(
        entry,
        Entry::Cpu(
            _,
            CpuEntry::Take {
                answer: TakeAnswer::Busy,
                ..
            },
        )
    )
}

/// A take that found the line disabled, or nothing linked.
pub fn is_off(entry: Entry) -> bool
    ensures { result ≡ is_off entry }
{
    matches!(
        entry,
        Entry::Cpu(
            _,
            CpuEntry::Take {
                answer: TakeAnswer::Off,
                ..
            },
        )
    )
}

/// An end that says `again`: an interrupt that came meanwhile is handled too.
pub fn is_again(entry: Entry) -> bool
    ensures { result ≡ is_again entry }
{
    matches!(entry, Entry::Cpu(_, CpuEntry::End { again: true, .. }))
}

/// An end that leaves.
pub fn is_leave(entry: Entry) -> bool
    ensures { result ≡ is_leave entry }
{
    matches!(entry, Entry::Cpu(_, CpuEntry::End { again: false, .. }))
}

/// An end whose note disables the line.
pub fn is_kill(entry: Entry) -> bool
    ensures { result ≡ is_kill entry }
{
    matches!(
        entry,
        Entry::Cpu(
            _,
            CpuEntry::End {
                note: Note::Killed,
                ..
            },
        )
    )
}

/// An end or a finish that unmasks.
pub fn is_reopening(entry: Entry) -> bool
    ensures { result ≡ is_reopening entry }
{
    matches!(
        entry,
        Entry::Cpu(_, CpuEntry::End { unmask: true, .. })
            | Entry::Thread(_, ThreadEntry::Finish { unmask: true, .. })
    )
}

/// A request that was linked.
pub fn is_linked_request(entry: Entry) -> bool
    ensures { result ≡ is_linked_request entry }
{
    matches!(
        entry,
        Entry::Driver(
            _,
            DriverEntry::Request {
                answer: LinkAnswer::Linked,
                ..
            },
        )
    )
}

/// The request of the device was linked.
pub fn links_dev(dev: DevNo, entry: Entry) -> bool
    ensures { result ≡ links_dev dev entry }
{
    matches!(
        entry,
        Entry::Driver(_, DriverEntry::Request { dev: other, answer: LinkAnswer::Linked, .. })
            if dev == other
    )
}

/// The device of a request that was linked.
pub fn dev_linked(entry: Entry) -> Option<DevNo>
    ensures { result ≡ dev_linked entry }
{
    match entry {
        Entry::Driver(
            _,
            DriverEntry::Request {
                dev,
                answer: LinkAnswer::Linked,
                ..
            },
        ) => Some(dev),
        _ => None,
    }
}

/// The device that was unlinked.
pub fn dev_unlinked(entry: Entry) -> Option<DevNo>
    ensures { result ≡ dev_unlinked entry }
{
    match call_of(entry) {
        Some(
            CallEntry::Unlink {
                dev,
                answer: UnlinkAnswer::Unlinked { .. },
            },
        ) => Some(dev),
        _ => None,
    }
}

/// The device was unlinked.
pub fn unlinks_dev(dev: DevNo, entry: Entry) -> bool
    ensures { result ≡ unlinks_dev dev entry }
{
    matches!(
        call_of(entry),
        Some(CallEntry::Unlink { dev: other, answer: UnlinkAnswer::Unlinked { .. } })
            if dev == other
    )
}

/// An unlink that left nothing linked.
pub fn is_last_unlink(entry: Entry) -> bool
    ensures { result ≡ is_last_unlink entry }
{
    matches!(
        call_of(entry),
        Some(CallEntry::Unlink {
            answer: UnlinkAnswer::Unlinked { last: true },
            ..
        })
    )
}

/// What the answer of an enable says of the depth.
pub fn opened_by_enable(answer: EnableAnswer) -> Opened
    ensures { result ≡ opened_by_enable answer }
{
    match answer {
        EnableAnswer::Unbalanced => Opened::Unbalanced,
        EnableAnswer::Lowered => Opened::Lowered,
        EnableAnswer::Started { resend } => Opened::Started { resend },
    }
}

/// What an enable, or the enable within a request, made of the depth.
fn opened_of(entry: Entry) -> Opened
    ensures { result ≡ opened_of entry }
{
    if let Entry::Driver(_, DriverEntry::Request { opened, .. }) = entry {
        return opened;
    }
    match call_of(entry) {
        Some(CallEntry::Enable { answer }) => opened_by_enable(answer),
        _ => Opened::No,
    }
}

/// An entry that starts the line.
pub fn is_start(entry: Entry) -> bool
    ensures { result ≡ is_start entry }
{
    matches!(opened_of(entry), Opened::Started { .. })
}

/// A start whose resend the chip makes.
pub fn is_chip_start(entry: Entry) -> bool
    ensures { result ≡ is_chip_start entry }
{
    matches!(
        opened_of(entry),
        Opened::Started {
            resend: Resend::Chip
        }
    )
}

/// A start whose resend the software makes.
pub fn is_soft_start(entry: Entry) -> bool
    ensures { result ≡ is_soft_start entry }
{
    matches!(
        opened_of(entry),
        Opened::Started {
            resend: Resend::Soft
        }
    )
}

/// A disable.
pub fn is_disable(entry: Entry) -> bool
    ensures { result ≡ is_disable entry }
{
    matches!(call_of(entry), Some(CallEntry::Disable))
}

/// A disable, or an end whose note disables the line.
pub fn is_deepening(entry: Entry) -> bool
    ensures { result ≡ is_deepening entry }
{
    is_disable(entry) || is_kill(entry)
}

/// An enable that lowers the depth.
pub fn is_lowering(entry: Entry) -> bool
    ensures { result ≡ is_lowering entry }
{
    matches!(opened_of(entry), Opened::Lowered | Opened::Started { .. })
}

/// The driver made the entry.
pub fn is_by_driver(driver: DriverNo, entry: Entry) -> bool
    ensures { result ≡ is_by_driver driver entry }
{
    matches!(entry.actor(), Actor::Driver(other) if driver == other)
}

/// The actor's free of a device is at its end.
pub fn is_freed_by(actor: Actor, entry: Entry) -> bool
    ensures { result ≡ is_freed_by actor entry }
{
    actor == entry.actor() && matches!(call_of(entry), Some(CallEntry::Freed { .. }))
}

/// A device was unlinked.
pub fn is_unlink(entry: Entry) -> bool
    ensures { result ≡ is_unlink entry }
{
    matches!(
        call_of(entry),
        Some(CallEntry::Unlink {
            answer: UnlinkAnswer::Unlinked { .. },
            ..
        })
    )
}

/// The device's free is at its end.
pub fn is_freed(dev: DevNo, entry: Entry) -> bool
    ensures { result ≡ is_freed dev entry }
{
    matches!(call_of(entry), Some(CallEntry::Freed { dev: other }) if dev == other)
}
