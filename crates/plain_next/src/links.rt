//! Which devices are linked, and how deep the line is disabled.
ghost use Rattle.std.specs.Prelude.{◌≡◌, ◌≤◌, List, [], ◌∷◌, ◌++◌, take, drop, length, filter};
ghost use Rattle.std.specs.Prelude.{not, IfOk, OnOk};
ghost use Rattle.irq_base.specs.declared.entries.Entry.{Entry};
ghost use Rattle.irq_model.specs.Places.{since_place, upto_place};
ghost use Rattle.irq_model.specs.Kinds.{same_dev};
ghost use Rattle.irq_model.specs.Links.{is_linked, requested, linked, is_none_linked, is_reset};
ghost use Rattle.irq_model.specs.Links.{base, depth, is_disabled, flags_in, linking_flags};
ghost use Rattle.irq_model.specs.Links.{is_oneshot, has_spurious_mark};

use crate::entry_tests::EntryTest;
use crate::kinds::{dev_linked, dev_unlinked, is_last_unlink, is_linked_request, is_start};
use crate::places::{count_of, last_of, stands};
use irq_base::{DevNo, DriverEntry, Entry, Flags, NoMemory};
use std::alloc::Global;

/// The device was linked, and not unlinked since.
#[tactic(auto, unfolding(crate::specs::Passes::passes))]
pub fn is_linked(past: &[Entry], dev: DevNo) -> bool
    ensures { result ≡ is_linked past.now dev }
{
    stands(past, EntryTest::Links(dev), EntryTest::Unlinks(dev))
}

/// Takes the device out of the list.
fn take_out(devices: &mut Vec<DevNo>, dev: DevNo)
    ensures { devices.new.items ≡ filter (λ d. not (same_dev d dev)) devices.old.items }
{
    devices.retain(|d| *d != dev);
}

/// Puts the device last in the list.
fn put_last(devices: &mut Vec<DevNo>, dev: DevNo) -> Result<(), NoMemory>
    ensures { OnOk result
        (devices.new.items ≡ filter (λ d. not (same_dev d dev)) devices.old.items ++ dev ∷ []) }
{
    take_out(devices, dev);
    devices.push(dev)?;
    Ok(())
}

/// What one more entry makes of the devices that were ever linked.
fn request(devices: &mut Vec<DevNo>, entry: Entry) -> Result<(), NoMemory>
    ensures { OnOk result
        ((past : List Entry) → devices.old.items ≡ requested past
        → devices.new.items ≡ requested (entry ∷ past)) }
{
    match dev_linked(entry) {
        Some(dev) => put_last(devices, dev),
        None => Ok(()),
    }
}

/// The devices that were ever linked, in the order of their last requests that were linked.
fn requested(alloc: Global, past: &[Entry]) -> Result<Vec<DevNo>, NoMemory>
    ensures { IfOk result (λ devices. devices.items ≡ requested past.now) }
{
    let mut devices = Vec::new(alloc);
    for i in (0..past.len()).rev() {
        request(&mut devices, past[i])?;
    }
    Ok(devices)
}

/// The linked devices, in the order in which they are walked.
pub fn linked(alloc: Global, past: &[Entry]) -> Result<Vec<DevNo>, NoMemory>
    ensures { IfOk result (λ devices. devices.items ≡ linked past.now) }
{
    let mut devices = requested(alloc, past)?;
    devices.retain(|d| is_linked(past, *d));
    Ok(devices)
}

/// Nothing is linked.
pub fn is_none_linked(alloc: Global, past: &[Entry]) -> Result<bool, NoMemory>
    ensures { IfOk result (λ none. none ≡ is_none_linked past.now) }
{
    Ok(linked(alloc, past)?.is_empty())
}

/// What one more entry makes of the linked devices: a request that is linked puts its device last,
/// an unlink takes its device out.
fn link_or_unlink(devices: &mut Vec<DevNo>, entry: Entry) -> Result<(), NoMemory>
    ensures { OnOk result
        ((past : List Entry) → devices.old.items ≡ linked past
        → devices.new.items ≡ linked (entry ∷ past)) }
{
    if let Some(dev) = dev_linked(entry) {
        put_last(devices, dev)?;
    } else if let Some(dev) = dev_unlinked(entry) {
        take_out(devices, dev);
    }
    Ok(())
}

/// The entry sets the depth anew: a last unlink, or a linked request when nothing else is linked.
/// `devices`: those that were linked before it.
fn is_reset(entry: Entry, devices: &[DevNo]) -> bool
    ensures { (past : List Entry) → devices.now ≡ linked past → result ≡ is_reset (entry ∷ past) }
{
    is_last_unlink(entry) || (is_linked_request(entry) && devices.is_empty())
}

/// How many entries stand after the last one that sets the depth anew.
#[tactic(auto, using(irq_model::proofs::Lists::since_from_upto))]
fn since_reset(alloc: Global, past: &[Entry]) -> Result<usize, NoMemory>
    ensures since { IfOk result (λ k. since_place is_reset past.now ≡ take k past.now) }
    ensures upto { IfOk result (λ k. upto_place is_reset past.now ≡ drop k past.now) }
    ensures within { IfOk result (λ k. k ≤ length past.now) }
{
    // The linked devices up to each place, entry by entry: `linked` at each place would take the
    // cube of the length.
    let mut devices = Vec::new(alloc);
    let mut place = past.len();
    for i in (0..past.len()).rev() {
        if is_reset(past[i], &devices) {
            place = i;
        }
        link_or_unlink(&mut devices, past[i])?;
    }
    Ok(place)
}

/// The depth as it was last set anew: 0 if a first request started the line, else 1; 1 at the
/// beginning.
fn base(past: &[Entry]) -> u32
    ensures value { result ≡ base past.now }
    ensures within { result ≤ 1 }
{
    match past.first() {
        Some(e) if is_start(*e) => 0,
        _ => 1,
    }
}

/// How deep the line is disabled: the base, plus the disables and kills since the last reset, less
/// the lowerings.
#[tactic(auto, unfolding(crate::specs::Passes::passes))]
pub fn depth(alloc: Global, past: &[Entry]) -> Result<u32, NoMemory>
    requires { length past.now ≤ 100000000 }
    ensures { IfOk result (λ n. n ≡ depth past.now) }
{
    let place = since_reset(alloc, past)?;
    let since = &past[..place];
    let raised = base(&past[place..]) + count_of(since, EntryTest::Deepening);
    Ok(raised.saturating_sub(count_of(since, EntryTest::Lowering)))
}

/// The line is disabled.
pub fn is_disabled(alloc: Global, past: &[Entry]) -> Result<bool, NoMemory>
    requires { length past.now ≤ 100000000 }
    ensures { IfOk result (λ disabled. disabled ≡ is_disabled past.now) }
{
    Ok(depth(alloc, past)? > 0)
}

/// The flags of a request.
fn flags_in(entry: Option<Entry>) -> Flags
    ensures { result ≡ flags_in entry }
{
    match entry {
        Some(Entry::Driver(_, DriverEntry::Request { flags, .. })) => flags,
        _ => Flags::NONE,
    }
}

/// The flags with which the device was last linked.
#[tactic(auto, unfolding(crate::specs::Passes::passes))]
pub fn linking_flags(past: &[Entry], dev: DevNo) -> Flags
    ensures { result ≡ linking_flags past.now dev }
{
    flags_in(last_of(past, EntryTest::Links(dev)))
}

/// The last request that was linked has the flag ONESHOT (`IRQS_ONESHOT`).
#[tactic(auto, unfolding(crate::specs::Passes::passes))]
pub fn is_oneshot(past: &[Entry]) -> bool
    ensures { result ≡ is_oneshot past.now }
{
    flags_in(last_of(past, EntryTest::LinkedRequest)).oneshot
}

/// A kill, with no linked request after it (`IRQS_SPURIOUS_DISABLED`).
#[tactic(auto, unfolding(crate::specs::Passes::passes))]
pub fn has_spurious_mark(past: &[Entry]) -> bool
    ensures { result ≡ has_spurious_mark past.now }
{
    stands(past, EntryTest::Kill, EntryTest::LinkedRequest)
}
