//! The edges of an edge line: where each edge is, by its place in the history.
ghost use Rattle.std.specs.Prelude.{◌≡◌, ◌<◌, ◌&&◌, ◌||◌, not, take, drop, length, IfOk};
ghost use Rattle.irq_model.specs.Edges.{is_edge, was_open, is_sent_edge, is_taken, is_alive};
ghost use Rattle.irq_model.specs.Edges.{is_sent};
ghost use Rattle.plain_next.specs.MaskTable.{IsMaskTable};

use crate::kinds::{is_again, is_chip_start, is_device_edge, is_take};
use crate::lines::{is_edge_line, is_eoi_flow};
use crate::masks::is_masked;
use irq_base::{Entry, LineDef, NoMemory};
use std::alloc::Global;

/// Some edge is presented to the processors.
pub fn is_sent(alloc: Global, def: &LineDef, past: &[Entry]) -> Result<bool, NoMemory>
    ensures { IfOk result (λ sent. sent ≡ is_sent def.now past.now) }
{
    let masked = mask_table(alloc, def, past)?;
    for place in 0..past.len() {
        if is_presented(def, past, &masked, place) {
            return Ok(true);
        }
    }
    Ok(false)
}

/// An entry at which an edge comes: one that the device makes, a start that the chip resends, and
/// on the fast-EOI flow an end that retriggers.
fn is_edge(def: &LineDef, entry: Entry) -> bool
    ensures { result ≡ is_edge def.now entry }
{
    is_edge_line(def)
        && (is_device_edge(entry) || is_chip_start(entry) || (is_eoi_flow(def) && is_again(entry)))
}

/// Whether the line is masked at each place: item `i` is for `past[i..]`, the last item for the
/// beginning.
fn mask_table(alloc: Global, def: &LineDef, past: &[Entry]) -> Result<Vec<bool>, NoMemory>
    ensures { IfOk result (λ masked. IsMaskTable def.now past.now masked.items) }
{
    let mut masked = Vec::new(alloc);
    for i in 0..past.len() {
        masked.push(is_masked(def, &past[i..]))?;
    }
    masked.push(true)?;
    Ok(masked)
}

/// An edge is sent if the line is open now, or was open since the edge and masking doesn't take
/// back.
fn shows_edge(def: &LineDef, is_masked_now: bool, opened: bool) -> bool
    ensures { result ≡ (not is_masked_now || (not def.now.recalls && opened)) }
{
    !is_masked_now || (!def.recalls && opened)
}

/// The line was open at some moment since the place; the moment just after it counts too.
fn was_open(def: &LineDef, past: &[Entry], masked: &[bool], place: usize) -> bool
    requires table { IsMaskTable def.now past.now masked.now }
    requires place { place < length past.now }
    ensures { result ≡ was_open def.now (take place past.now) (drop place past.now) }
{
    let mut opened = !masked[place];
    for i in (0..place).rev() {
        opened |= !masked[i];
    }
    opened
}

/// A take after the place took the edge, since it was sent just before.
fn is_taken(def: &LineDef, past: &[Entry], masked: &[bool], place: usize) -> bool
    requires table { IsMaskTable def.now past.now masked.now }
    requires place { place < length past.now }
    ensures { result ≡ is_taken def.now (take place past.now) (drop place past.now) }
{
    let mut opened = !masked[place];
    let mut taken = false;
    for i in (0..place).rev() {
        if is_take(past[i]) && shows_edge(def, masked[i + 1], opened) {
            taken = true;
        }
        opened |= !masked[i];
    }
    taken
}

/// The edge at the place wasn't dropped as it came, and no take took it.
fn is_alive(def: &LineDef, past: &[Entry], masked: &[bool], place: usize) -> bool
    requires table { IsMaskTable def.now past.now masked.now }
    requires place { place < length past.now }
    ensures { result ≡ is_alive def.now (take place past.now) (drop place past.now) }
{
    is_edge(def, past[place])
        && (def.keeps || !masked[place])
        && !is_taken(def, past, masked, place)
}

/// The edge at the place is sent.
fn is_sent_edge(def: &LineDef, past: &[Entry], masked: &[bool], place: usize) -> bool
    requires table { IsMaskTable def.now past.now masked.now }
    requires place { place < length past.now }
    ensures { result ≡ is_sent_edge def.now (take place past.now) (drop place past.now) }
{
    shows_edge(def, masked[0], was_open(def, past, masked, place))
}

/// The edge at the place is presented to the processors.
fn is_presented(def: &LineDef, past: &[Entry], masked: &[bool], place: usize) -> bool
    requires table { IsMaskTable def.now past.now masked.now }
    requires place { place < length past.now }
    ensures { result
        ≡ (is_alive def.now (take place past.now) (drop place past.now) && is_sent_edge def.now
        (take place past.now) (drop place past.now)) }
{
    is_alive(def, past, masked, place) && is_sent_edge(def, past, masked, place)
}
