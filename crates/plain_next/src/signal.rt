//! What the line presents to the processors, and which processor takes it.
ghost use Rattle.std.specs.Prelude.{◌≡◌, ◌≤◌, length, IfOk};
ghost use Rattle.std.specs.List.{list_any};
ghost use Rattle.irq_model.specs.Kinds.{is_take};
ghost use Rattle.irq_model.specs.Signal.{signals, puts_in_force, mask_of, mask_in_force};
ghost use Rattle.irq_model.specs.Signal.{lowest_in, target};

use crate::asks::is_high;
use crate::edges::is_sent;
use crate::entry_tests::EntryTest;
use crate::lines::{is_edge_line, is_in_mask, serves};
use crate::masks::is_masked;
use crate::places::has;
use crate::rounds::has_flow;
use irq_base::{AffinityAnswer, CpuNo, DriverEntry, Entry, LineDef, NoMemory};
use std::alloc::Global;

/// An edge is sent; or the level is high, the line is open, and no interrupt is in service.
pub fn signals(alloc: Global, def: &LineDef, past: &[Entry]) -> Result<bool, NoMemory>
    requires { length past.now ≤ 100000000 }
    ensures { IfOk result (λ signalled. signalled ≡ signals def.now past.now) }
{
    if is_edge_line(def) {
        return is_sent(alloc, def, past);
    }
    Ok(is_high(def, past) && !is_masked(def, past) && !(serves(def) && has_flow(def, past)))
}

/// A processor took an interrupt among these.
#[tactic(auto, unfolding(crate::specs::Passes::passes))]
fn has_take(entries: &[Entry]) -> bool
    ensures { result ≡ list_any is_take entries.now }
{
    has(entries, EntryTest::Take)
}

/// The newest entry of `upto` put a mask in force: a change that took effect at once, or a change
/// that waited, if a take stands after it.
fn puts_in_force(after: &[Entry], upto: &[Entry]) -> bool
    ensures { result ≡ puts_in_force after.now upto.now }
{
    match upto.first().copied() {
        Some(
            Entry::Driver(
                _,
                DriverEntry::Affinity {
                    answer: AffinityAnswer::Now,
                    ..
                },
            ),
        ) => true,
        Some(
            Entry::Driver(
                _,
                DriverEntry::Affinity {
                    answer: AffinityAnswer::Later,
                    ..
                },
            ),
        ) => has_take(after),
        _ => false,
    }
}

/// The mask of the newest entry, or else the mask that is given.
fn mask_of(mask: u32, upto: &[Entry]) -> u32
    ensures { result ≡ mask_of mask upto.now }
{
    match upto.first().copied() {
        Some(Entry::Driver(_, DriverEntry::Affinity { mask: new, .. })) => new,
        _ => mask,
    }
}

/// The mask in force: the last that was put in force, or the line's own.
fn mask_in_force(def: &LineDef, past: &[Entry]) -> u32
    ensures { result ≡ mask_in_force def.now past.now }
{
    for i in 0..past.len() {
        let (after, upto) = past.split_at(i);
        if puts_in_force(after, upto) {
            return mask_of(def.mask, upto);
        }
    }
    def.mask
}

/// The lowest of the processors 0 to `cpus` - 1 that is in the mask.
pub fn lowest_in(cpus: u32, mask: u32) -> Option<CpuNo>
    requires { cpus ≤ 32 }
    ensures { result ≡ lowest_in cpus mask }
{
    for c in 0..cpus {
        if is_in_mask(mask, c) {
            return Some(CpuNo(c));
        }
    }
    None
}

/// The processor that takes the line's interrupts.
pub fn target(def: &LineDef, past: &[Entry]) -> Option<CpuNo>
    requires { def.now.cpus ≤ 32 }
    ensures { result ≡ target def.now past.now }
{
    lowest_in(def.cpus, mask_in_force(def, past))
}
