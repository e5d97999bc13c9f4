//! What the threads of a line's devices do.
ghost use Rattle.std.specs.Prelude.{◌≡◌, ◌≤◌, length};
ghost use Rattle.irq_model.specs.Threads.{is_woken, is_running, is_unfinished};
ghost use Rattle.irq_model.specs.Threads.{is_some_unfinished, is_other_unfinished, active_count};

use crate::entry_tests::EntryTest;
use crate::lines::{any_device, count_devices};
use crate::links::linking_flags;
use crate::places::{since, stands};
use irq_base::{DevNo, Entry, LineDef};

/// The thread is to run: a return that woke it has no beginning of its run after it.
#[tactic(auto, unfolding(crate::specs::Passes::passes))]
pub fn is_woken(past: &[Entry], dev: DevNo) -> bool
    ensures { result ≡ is_woken past.now dev }
{
    stands(past, EntryTest::Wakes(dev), EntryTest::ThreadBegin(dev))
}

/// The thread is in a run.
#[tactic(auto, unfolding(crate::specs::Passes::passes))]
pub fn is_running(past: &[Entry], dev: DevNo) -> bool
    ensures { result ≡ is_running past.now dev }
{
    stands(past, EntryTest::ThreadBegin(dev), EntryTest::Done(dev))
}

/// The device's thread bit stands: it was linked one-shot, and since then a return woke its thread
/// and no finish gave the bit up.
#[tactic(auto, unfolding(crate::specs::Passes::passes))]
fn is_unfinished(past: &[Entry], dev: DevNo) -> bool
    ensures { result ≡ is_unfinished past.now dev }
{
    linking_flags(past, dev).oneshot
        && stands(
            since(past, EntryTest::Links(dev)),
            EntryTest::Wakes(dev),
            EntryTest::ClearedFinish(dev),
        )
}

/// The bit of some device's thread stands.
pub fn is_some_unfinished(def: &LineDef, past: &[Entry]) -> bool
    ensures { result ≡ is_some_unfinished def.now past.now }
{
    any_device(def, |d| is_unfinished(past, d))
}

/// The bit of another device's thread stands.
pub fn is_other_unfinished(def: &LineDef, past: &[Entry], dev: DevNo) -> bool
    ensures { result ≡ is_other_unfinished def.now past.now dev }
{
    any_device(def, |other| dev != other && is_unfinished(past, other))
}

/// How many threads are woken, plus how many are in a run; a thread that is both counts twice.
pub fn active_count(def: &LineDef, past: &[Entry]) -> u32
    requires { length def.now.devices ≤ 256 }
    ensures { result ≡ active_count def.now past.now }
{
    count_devices(def, |d| is_woken(past, d)) + count_devices(def, |d| is_running(past, d))
}
