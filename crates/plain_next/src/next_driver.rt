//! The rows of the table for drivers.
ghost use Rattle.std.specs.Prelude.{◌≡◌, ◌≤◌, length, IfOk};
ghost use Rattle.std.specs.List.{list_any};
ghost use Rattle.irq_model.specs.Next.{flags_differ, same_flag, link_answer, opened_by_request};
ghost use Rattle.irq_model.specs.Next.{request_of, affinity_answer, next_of_request, next_of_call};
ghost use Rattle.irq_model.specs.Next.{ask_makes_edge, next_of_driver};
ghost use Rattle.irq_model.specs.Due.{due_call};
ghost use Rattle.irq_model.specs.Links.{linking_flags};

use crate::asks::{is_quiet, unserved_asks};
use crate::due::{due_call, holds_mutex};
use crate::kinds::opened_by_enable;
use crate::lines::{is_edge_line, is_held, kind_of};
use crate::links::{has_spurious_mark, is_none_linked, linked, linking_flags};
use crate::next_call::{by_actor, enable_answer, next_step, resend_of};
use crate::signal::lowest_in;
use irq_base::{
    Actor, AffinityAnswer, Call, DevNo, DriverEntry, DriverNo, Entry, Errno, Flags, Kind, LineDef,
    LinkAnswer, NoMemory, Opened,
};
use std::alloc::Global;

/// The entry that is due for the driver.
pub fn next_of_driver(
    alloc: Global,
    def: &LineDef,
    driver: DriverNo,
    past: &[Entry],
) -> Result<Option<Entry>, NoMemory>
    requires few { length past.now ≤ 100000000 }
    requires cpus { def.now.cpus ≤ 32 }
    requires devices { length def.now.devices ≤ 256 }
    ensures { IfOk result
        (λ entry. entry ≡ next_of_driver def.now driver past.now
        (due_call def.now driver past.now)) }
{
    match due_call(alloc, def, driver, past)? {
        Some((call, n)) => next_of_call(alloc, def, driver, past, call, n),
        None => Ok(None),
    }
}

fn is_same_flag(new: bool, old: bool) -> bool
    ensures { result ≡ same_flag new old }
{
    new == old
}

/// The flags of the request don't go with the flags of a linked action.
fn flags_differ(new: Flags, old: Flags) -> bool
    ensures { result ≡ flags_differ new old }
{
    !new.shared || !old.shared || !is_same_flag(new.oneshot, old.oneshot)
}

/// The flags don't go with the flags of some linked action.
fn is_mismatch(flags: Flags, past: &[Entry], devices: &[DevNo]) -> bool
    ensures { result ≡ list_any (λ d. flags_differ flags (linking_flags past.now d)) devices.now }
{
    devices
        .iter()
        .any(|d| flags_differ(flags, linking_flags(past, *d)))
}

/// Whether a request is linked.
fn link_answer(
    alloc: Global,
    def: &LineDef,
    dev: DevNo,
    flags: Flags,
    past: &[Entry],
) -> Result<LinkAnswer, NoMemory>
    ensures { IfOk result (λ answer. answer ≡ link_answer def.now dev flags past.now) }
{
    let devices = linked(alloc, past)?;
    if flags.shared && flags.noauto {
        return Ok(LinkAnswer::Refused(Errno::Inval));
    }
    if is_mismatch(flags, past, &devices) {
        return Ok(LinkAnswer::Refused(Errno::Busy));
    }
    if flags.oneshot && devices.len() >= 64 {
        return Ok(LinkAnswer::Refused(Errno::Busy));
    }
    if matches!(kind_of(def, dev), Kind::Null) && !flags.oneshot {
        return Ok(LinkAnswer::Refused(Errno::Inval));
    }
    Ok(LinkAnswer::Linked)
}

/// What a request that is linked makes of the depth: the first starts the line unless its flags say
/// not to; a further one enables a line that the rule on spurious interrupts disabled.
fn opened_by_request(
    alloc: Global,
    def: &LineDef,
    flags: Flags,
    past: &[Entry],
) -> Result<Opened, NoMemory>
    requires { length past.now ≤ 100000000 }
    ensures { IfOk result (λ opened. opened ≡ opened_by_request def.now flags past.now) }
{
    if is_none_linked(alloc, past)? {
        return Ok(if flags.noauto {
            Opened::No
        } else {
            Opened::Started {
                resend: resend_of(def, past),
            }
        });
    }
    if !has_spurious_mark(past) {
        return Ok(Opened::No);
    }
    Ok(opened_by_enable(enable_answer(alloc, def, past)?))
}

/// The entry of a request.
fn request_of(
    alloc: Global,
    def: &LineDef,
    driver: DriverNo,
    dev: DevNo,
    flags: Flags,
    past: &[Entry],
) -> Result<Entry, NoMemory>
    requires { length past.now ≤ 100000000 }
    ensures { IfOk result (λ entry. entry ≡ request_of def.now driver dev flags past.now) }
{
    let answer = link_answer(alloc, def, dev, flags, past)?;
    let opened = match answer {
        LinkAnswer::Linked => opened_by_request(alloc, def, flags, past)?,
        LinkAnswer::Refused(_) => Opened::No,
    };
    Ok(Entry::Driver(
        driver,
        DriverEntry::Request {
            flags,
            answer,
            opened,
            dev,
        },
    ))
}

/// What a change of affinity answers.
fn affinity_answer(def: &LineDef, mask: u32) -> AffinityAnswer
    requires { def.now.cpus ≤ 32 }
    ensures { result ≡ affinity_answer def.now mask }
{
    if lowest_in(def.cpus, mask).is_none() {
        AffinityAnswer::Refused(Errno::Inval)
    } else if def.later {
        AffinityAnswer::Later
    } else {
        AffinityAnswer::Now
    }
}

/// The entry of a request, once the request mutex is free.
fn next_of_request(
    alloc: Global,
    def: &LineDef,
    driver: DriverNo,
    dev: DevNo,
    flags: Flags,
    past: &[Entry],
) -> Result<Option<Entry>, NoMemory>
    requires { length past.now ≤ 100000000 }
    ensures { IfOk result (λ entry. entry ≡ next_of_request def.now driver dev flags past.now) }
{
    if holds_mutex(past) {
        return Ok(None);
    }
    Ok(Some(request_of(alloc, def, driver, dev, flags, past)?))
}

/// Whether an ask of the device makes an edge; on a level line each counts as one that does.
fn ask_makes_edge(def: &LineDef, dev: DevNo, past: &[Entry]) -> bool
    requires { length past.now ≤ 100000000 }
    ensures { result ≡ ask_makes_edge def.now dev past.now }
{
    if !is_edge_line(def) {
        return true;
    }
    !is_quiet(past, dev) && (!is_held(def, dev) || unserved_asks(def, dev, past) == 0)
}

/// The next entry of the driver's due call, which has made `n` entries.
fn next_of_call(
    alloc: Global,
    def: &LineDef,
    driver: DriverNo,
    past: &[Entry],
    call: Call,
    n: usize,
) -> Result<Option<Entry>, NoMemory>
    requires few { length past.now ≤ 100000000 }
    requires cpus { def.now.cpus ≤ 32 }
    requires devices { length def.now.devices ≤ 256 }
    ensures { IfOk result
        (λ entry. entry ≡ next_of_call def.now (Actor.Driver driver) past.now (call, n)) }
{
    Ok(match call {
        Call::Ask { dev } => {
            let edge = ask_makes_edge(def, dev, past);
            Some(Entry::Driver(driver, DriverEntry::Ask { edge, dev }))
        }
        Call::Request { dev, flags } => next_of_request(alloc, def, driver, dev, flags, past)?,
        Call::Affinity { mask } => {
            let answer = affinity_answer(def, mask);
            Some(Entry::Driver(driver, DriverEntry::Affinity { answer, mask }))
        }
        Call::Moment { at } => Some(Entry::Driver(driver, DriverEntry::Moment { at })),
        _ => {
            let step = next_step(alloc, def, past, call, n)?;
            by_actor(Actor::Driver(driver), step)
        }
    })
}
