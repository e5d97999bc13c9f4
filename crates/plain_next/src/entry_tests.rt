//! Tests on one entry as values, so that the walks that take one are proved once.
ghost use Rattle.std.specs.Prelude.{◌≡◌, ◌||◌, ◌&&◌, not};
ghost use Rattle.irq_base.specs.Cell.{is_edge_trigger};
ghost use Rattle.irq_model.specs.Kinds.{is_handle, is_leave, is_again, is_off, is_busy, is_start};
ghost use Rattle.irq_model.specs.Lines.{is_eoi_flow};
ghost use Rattle.irq_model.specs.Waiting.{clears_pending};
ghost use Rattle.irq_model.specs.Asks.{begins_run, returns_served};
ghost use Rattle.plain_next.specs.Passes.{passes};

use crate::kinds::{
    is_again, is_ask, is_begin, is_begin_or_return, is_busy, is_by_driver, is_cleared_finish,
    is_cpu_call, is_deepening, is_done, is_finish, is_freed, is_freed_by, is_handle, is_kill,
    is_leave, is_linked_request, is_lowering, is_off, is_resend_take, is_serve, is_soft_start,
    is_start, is_take, is_thread_begin, is_thread_call, is_thread_return, links_dev,
    returns_handled, returns_wake, turns_off, turns_on, unlinks_dev, wakes,
};
use irq_base::{Actor, CpuEntry, DevNo, DriverNo, Entry, FlowKind, Part, ThreadEntry, Trigger};

/// A test on one entry.
#[derive(Clone, Copy)]
pub enum EntryTest {
    /// The device asks for service.
    Ask(DevNo),
    /// The device's handler begins.
    Begin(DevNo),
    /// A handler begins or returns.
    BeginOrReturn,
    /// A run of that part of the device begins.
    BeginsRun(Part, DevNo),
    /// A run of that part of the device returns and has served.
    ReturnsServed(Part, DevNo),
    /// A call serves the device.
    Serve(DevNo),
    /// The device's own interrupt is turned off.
    TurnsOff(DevNo),
    /// The device's own interrupt is turned on.
    TurnsOn(DevNo),
    /// A handler's step of a call.
    CpuCall,
    /// A step of a call by the handler of the device's thread.
    ThreadCall(DevNo),
    /// A handler returns and wakes its thread.
    ReturnsWake,
    /// A handler returns and has handled.
    ReturnsHandled,
    /// The device's thread is woken.
    Wakes(DevNo),
    /// The device's thread handler begins.
    ThreadBegin(DevNo),
    /// The device's thread handler returns.
    ThreadReturn(DevNo),
    /// The device's thread finishes its one-shot run.
    Finish(DevNo),
    /// The device's thread gives its bit up.
    ClearedFinish(DevNo),
    /// The device's thread is done with its run.
    Done(DevNo),
    /// A processor takes an interrupt.
    Take,
    /// A processor takes what the software resends.
    ResendTake,
    /// A take that is handled, or an end that closes a flow of this kind.
    HandleOrClose(FlowKind),
    /// A take that is handled, or an end with which a flow of this kind goes on.
    BeginsRound(FlowKind),
    /// A take that leaves the interrupt pending: answered Off, or Busy on a line of edges.
    SetsPending(Trigger),
    /// A take that is handled, an end that goes on, or a start.
    ClearsPending,
    /// A start whose resend the software makes.
    SoftStart,
    /// An end whose note disables the line.
    Kill,
    /// A disable, or an end whose note disables the line.
    Deepening,
    /// An enable that lowers the depth.
    Lowering,
    /// A request that was linked.
    LinkedRequest,
    /// The request of the device was linked.
    Links(DevNo),
    /// The device was unlinked.
    Unlinks(DevNo),
    /// The device's free is at its end.
    Freed(DevNo),
    /// The actor's free of a device is at its end.
    FreedBy(Actor),
    /// The driver made the entry.
    ByDriver(DriverNo),
}

/// Whether the entry passes the test.
#[tactic(auto, unfolding(crate::specs::Passes::passes))]
pub fn passes(test: EntryTest, entry: Entry) -> bool
    ensures { result ≡ passes test entry }
{
    match test {
        EntryTest::Ask(dev) => is_ask(dev, entry),
        EntryTest::Begin(dev) => is_begin(dev, entry),
        EntryTest::BeginOrReturn => is_begin_or_return(entry),
        EntryTest::BeginsRun(part, dev) => begins_run(part, dev, entry),
        EntryTest::ReturnsServed(part, dev) => returns_served(part, dev, entry),
        EntryTest::Serve(dev) => is_serve(dev, entry),
        EntryTest::TurnsOff(dev) => turns_off(dev, entry),
        EntryTest::TurnsOn(dev) => turns_on(dev, entry),
        EntryTest::CpuCall => is_cpu_call(entry),
        EntryTest::ThreadCall(dev) => is_thread_call(dev, entry),
        EntryTest::ReturnsWake => returns_wake(entry),
        EntryTest::ReturnsHandled => returns_handled(entry),
        EntryTest::Wakes(dev) => wakes(dev, entry),
        EntryTest::ThreadBegin(dev) => is_thread_begin(dev, entry),
        EntryTest::ThreadReturn(dev) => is_thread_return(dev, entry),
        EntryTest::Finish(dev) => is_finish(dev, entry),
        EntryTest::ClearedFinish(dev) => is_cleared_finish(dev, entry),
        EntryTest::Done(dev) => is_done(dev, entry),
        EntryTest::Take => is_take(entry),
        EntryTest::ResendTake => is_resend_take(entry),
        EntryTest::HandleOrClose(flow) => is_handle(entry) || closes(flow, entry),
        EntryTest::BeginsRound(flow) => is_handle(entry) || goes_on(flow, entry),
        EntryTest::SetsPending(trigger) => sets_pending(trigger, entry),
        EntryTest::ClearsPending => clears_pending(entry),
        EntryTest::SoftStart => is_soft_start(entry),
        EntryTest::Kill => is_kill(entry),
        EntryTest::Deepening => is_deepening(entry),
        EntryTest::Lowering => is_lowering(entry),
        EntryTest::LinkedRequest => is_linked_request(entry),
        EntryTest::Links(dev) => links_dev(dev, entry),
        EntryTest::Unlinks(dev) => unlinks_dev(dev, entry),
        EntryTest::Freed(dev) => is_freed(dev, entry),
        EntryTest::FreedBy(actor) => is_freed_by(actor, entry),
        EntryTest::ByDriver(driver) => is_by_driver(driver, entry),
    }
}

/// A run of that part of the device begins.
fn begins_run(part: Part, dev: DevNo, entry: Entry) -> bool
    ensures { result ≡ begins_run part dev entry }
{
    match part {
        Part::Primary => is_begin(dev, entry),
        Part::Thread => is_thread_begin(dev, entry),
    }
}

/// A run of that part of the device returns and has served.
fn returns_served(part: Part, dev: DevNo, entry: Entry) -> bool
    ensures { result ≡ returns_served part dev entry }
{
    match (part, entry) {
        (
            Part::Primary,
            Entry::Cpu(
                _,
                CpuEntry::Return {
                    dev: other,
                    served,
                    ..
                },
            ),
        ) => dev == other && served > 0,
        (Part::Thread, Entry::Thread(other, ThreadEntry::Return { served, .. })) => {
            dev == other && served > 0
        }
        _ => false,
    }
}

/// The flow is the fast-EOI flow.
fn is_eoi(flow: FlowKind) -> bool
    ensures { result ≡ is_eoi_flow flow }
{
    matches!(flow, FlowKind::Eoi)
}

/// An end that closes the flow: on the fast-EOI flow each end, on the others an end that doesn't go
/// on.
fn closes(flow: FlowKind, entry: Entry) -> bool
    ensures { result ≡ (is_leave entry || (is_eoi_flow flow && is_again entry)) }
{
    is_leave(entry) || (is_eoi(flow) && is_again(entry))
}

/// An end that goes on within the flow.
fn goes_on(flow: FlowKind, entry: Entry) -> bool
    ensures { result ≡ (is_again entry && not (is_eoi_flow flow)) }
{
    is_again(entry) && !is_eoi(flow)
}

/// A take that leaves the interrupt pending: answered Off, or on a line of edges answered Busy.
fn sets_pending(trigger: Trigger, entry: Entry) -> bool
    ensures { result ≡ (is_off entry || (is_edge_trigger trigger && is_busy entry)) }
{
    is_off(entry) || (matches!(trigger, Trigger::Edge) && is_busy(entry))
}

/// A take that is handled, an end that goes on, or a start.
fn clears_pending(entry: Entry) -> bool
    ensures { result ≡ clears_pending entry }
{
    is_handle(entry) || is_again(entry) || is_start(entry)
}
