//! Walks over a list of entries, the newest first.
ghost use Rattle.std.specs.Prelude.{◌≡◌, ◌≤◌, length, filter, reverse, IfOk};
ghost use Rattle.std.specs.List.{list_any};
ghost use Rattle.irq_model.specs.Places.{stands, since, before, count_of, last_of};
ghost use Rattle.plain_next.specs.Passes.{passes};

use crate::entry_tests::{EntryTest, passes};
use irq_base::{Entry, NoMemory};
use std::alloc::Global;

/// Whether some entry sets (`sets`), and no entry after it clears (`clears`).
pub fn stands(past: &[Entry], sets: EntryTest, clears: EntryTest) -> bool
    ensures { result ≡ stands (passes sets) (passes clears) past.now }
{
    let mut rest = past;
    while let Some((e, older)) = rest.split_first() {
        if passes(sets, *e) {
            return true;
        }
        if passes(clears, *e) {
            return false;
        }
        rest = older;
    }
    false
}

/// Whether some entry passes the test.
pub fn has(past: &[Entry], test: EntryTest) -> bool
    ensures { result ≡ list_any (passes test) past.now }
{
    let mut rest = past;
    while let Some((e, older)) = rest.split_first() {
        if passes(test, *e) {
            return true;
        }
        rest = older;
    }
    false
}

/// The entries after the last one that passes the test; all if none does.
pub fn since(past: &[Entry], test: EntryTest) -> &[Entry]
    ensures value { result.now ≡ since (passes test) past.now }
    ensures shorter { length result.now ≤ length past.now }
{
    for (i, e) in past.iter().enumerate() {
        if passes(test, *e) {
            return &past[..i];
        }
    }
    past
}

/// The entries before the last one that passes the test; none if none does.
pub fn before(past: &[Entry], test: EntryTest) -> &[Entry]
    ensures value { result.now ≡ before (passes test) past.now }
    ensures shorter { length result.now ≤ length past.now }
{
    let mut rest = past;
    while let Some((e, older)) = rest.split_first() {
        rest = older;
        if passes(test, *e) {
            break;
        }
    }
    rest
}

/// The last entry that passes the test.
pub fn last_of(past: &[Entry], test: EntryTest) -> Option<Entry>
    ensures { result ≡ last_of (passes test) past.now }
{
    let mut rest = past;
    while let Some((e, older)) = rest.split_first() {
        if passes(test, *e) {
            return Some(*e);
        }
        rest = older;
    }
    None
}

/// The entries that pass the test, the oldest first.
pub fn oldest_first(alloc: Global, past: &[Entry], test: EntryTest) -> Result<Vec<Entry>, NoMemory>
    ensures { IfOk result (λ entries. entries.items ≡ reverse (filter (passes test) past.now)) }
{
    let mut entries = Vec::new(alloc);
    for i in (0..past.len()).rev() {
        if passes(test, past[i]) {
            entries.push(past[i])?;
        }
    }
    Ok(entries)
}

/// How many entries pass the test.
pub fn count_of(past: &[Entry], test: EntryTest) -> u32
    requires few { length past.now ≤ 100000000 }
    ensures value { result ≡ count_of (passes test) past.now }
    ensures within { result ≤ length past.now }
{
    let mut rest = past;
    let mut count = 0;
    while let Some((e, older)) = rest.split_first() {
        if passes(test, *e) {
            count += 1;
        }
        rest = older;
    }
    count
}
