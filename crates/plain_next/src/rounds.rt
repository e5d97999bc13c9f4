//! The flow in progress and its rounds.
ghost use Rattle.std.specs.Prelude.{◌≡◌};
ghost use Rattle.irq_model.specs.Rounds.{cpu_of_handle, flow, has_flow, round, has_begun};
ghost use Rattle.irq_model.specs.Rounds.{first_left, dev_of_begin, at_work};

use crate::entry_tests::EntryTest;
use crate::places::{has, last_of, since};
use irq_base::{CpuEntry, CpuNo, DevNo, Entry, LineDef};

/// The processor of the last take that is handled, unless an end that closes follows it.
#[tactic(auto, unfolding(crate::specs::Passes::passes))]
pub fn flow(def: &LineDef, past: &[Entry]) -> Option<CpuNo>
    ensures { result ≡ flow def.now past.now }
{
    cpu_of_handle(last_of(past, EntryTest::HandleOrClose(def.flow)))
}

/// A flow is in progress.
pub fn has_flow(def: &LineDef, past: &[Entry]) -> bool
    ensures { result ≡ has_flow def.now past.now }
{
    flow(def, past).is_some()
}

/// The entries of the round so far.
#[tactic(auto, unfolding(crate::specs::Passes::passes))]
pub fn round<'a>(def: &LineDef, past: &'a [Entry]) -> &'a [Entry]
    ensures { result.now ≡ round def.now past.now }
{
    since(past, EntryTest::BeginsRound(def.flow))
}

/// The first linked device that is still to be called.
pub fn first_left(def: &LineDef, past: &[Entry], linked: &[DevNo]) -> Option<DevNo>
    ensures { result ≡ first_left def.now past.now linked.now }
{
    let mut rest = linked;
    while let Some((d, others)) = rest.split_first() {
        if !has_begun(def, past, *d) {
            return Some(*d);
        }
        rest = others;
    }
    None
}

/// The device whose handler is at work: the device of the last begin, unless a return, of any
/// device, stands after that begin.
#[tactic(auto, unfolding(crate::specs::Passes::passes))]
pub fn at_work(past: &[Entry]) -> Option<DevNo>
    ensures { result ≡ at_work past.now }
{
    dev_of_begin(last_of(past, EntryTest::BeginOrReturn))
}

/// The processor of a take.
fn cpu_of_handle(entry: Option<Entry>) -> Option<CpuNo>
    ensures { result ≡ cpu_of_handle entry }
{
    match entry {
        Some(Entry::Cpu(cpu, CpuEntry::Take { .. })) => Some(cpu),
        _ => None,
    }
}

/// The device's handler was called in this round.
#[tactic(auto, unfolding(crate::specs::Passes::passes))]
fn has_begun(def: &LineDef, past: &[Entry], dev: DevNo) -> bool
    ensures { result ≡ has_begun def.now past.now dev }
{
    has(round(def, past), EntryTest::Begin(dev))
}

/// The device of a begin.
fn dev_of_begin(entry: Option<Entry>) -> Option<DevNo>
    ensures { result ≡ dev_of_begin entry }
{
    match entry {
        Some(Entry::Cpu(_, CpuEntry::Begin { dev })) => Some(dev),
        _ => None,
    }
}
