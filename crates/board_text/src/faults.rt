//! What is wrong with a statement on the board so far.
ghost use Rattle.std.specs.Prelude.{◌≡◌, ◌<◌, not, nat_lt, ◌+◌, is_none, is_some};
ghost use Rattle.std.specs.Prelude.{IfSome, Some, None, if◌then◌else◌};
ghost use Rattle.std.specs.List.{list_any};
ghost use Rattle.board_def.specs.Rules.{has_name, has_line, has_driver};
ghost use Rattle.board_stated.specs.FaultsAfter.{is_misplaced, is_not_there, names_nothing};
ghost use Rattle.board_stated.specs.FaultsAfter.{picks_nothing, has_bad_parent};
ghost use Rattle.board_stated.specs.FaultsAfter.{has_bad_unlazy, has_bad_mask, is_mask_empty};
ghost use Rattle.board_stated.specs.FaultsAfter.{is_one_too_many, count_of_picks};
ghost use Rattle.board_stated.specs.FaultsAfter.{is_parent_missing, has_no_part};
ghost use Rattle.board_stated.specs.FaultsAfter.{cannot_answer};
ghost use Rattle.board_def.specs.Find.{place_of_name};
ghost use Rattle.board_stated.specs.Stated.{driver_writing, parent_place, place_or_first};
ghost use Rattle.board_stated.specs.Stated.{line_of_call};

use crate::counting::{has_no_room_for, has_no_room_to_call};
use crate::runs::is_told;
use affinity::has_processor;
use board_def::{Board, Name};
use board_stated::Writer;
use board_words::{CallWords, PickList, Statement};
use irq_base::{Actor, DeviceDef, DriverNo, LineNo, Part};

/// The most domains of a board.
const MOST_DOMAINS: usize = 32;

/// The most lines of a board.
const MOST_LINES: usize = 64;

/// The most devices of a board.
const MOST_DEVICES: usize = 256;

/// The most drivers of a board.
const MOST_DRIVERS: usize = 64;

/// The most calls of a board's scripts.
pub(crate) const MOST_CALLS: usize = 16_384;

/// The most picks of a board.
const MOST_PICKS: usize = 65_536;

/// Whether the statement's number isn't above the last one of its kind.
pub fn is_misplaced(board: &Board, statement: &Statement) -> bool
    ensures { result ≡ is_misplaced board.now statement.now }
{
    match statement {
        Statement::Line(line) => board.last_line().is_some_and(|last| line.line.0 <= last.0),
        Statement::Device(device) => {
            board
                .last_device()
                .is_some_and(|last| device.dev.0 <= last.0)
        }
        Statement::Driver(driver) => board.last_driver().is_some_and(|last| driver.0 <= last.0),
        _ => false,
    }
}

/// The driver whose script is written: the last one; 0 before any.
pub fn driver_writing(board: &Board) -> DriverNo
    ensures { result ≡ driver_writing board.now.drivers }
{
    board.last_driver().unwrap_or(DriverNo(0))
}

/// Whether the statement names a domain, line, device, processor or driver that isn't declared, or
/// picks a thread that isn't there.
pub fn is_not_there(board: &Board, statement: &Statement) -> bool
    ensures { result ≡ is_not_there board.now statement.now }
{
    match statement {
        Statement::Domain(domain) => is_parent_missing(board, domain.parent),
        Statement::Line(line) => !has_name(board, line.domain),
        Statement::Device(device) => !has_line(board, device.line),
        Statement::Answers { dev, part, .. } => cannot_answer(*part, board.find_device(*dev)),
        Statement::Runs { dev, part } => has_no_part(*part, board.find_device(*dev)),
        Statement::Call(call) => names_nothing(board, *call),
        Statement::Picks(picks) => any_picks_nothing(board, picks),
        _ => false,
    }
}

fn is_parent_missing(board: &Board, parent: Option<Name>) -> bool
    ensures { result ≡ is_parent_missing board.now.domains parent }
{
    match parent {
        Some(name) => !has_name(board, name),
        None => false,
    }
}

/// Whether a domain has this name.
#[tactic(auto, using(board_def::proofs::Finds::has_name_place))]
pub fn has_name(board: &Board, name: Name) -> bool
    ensures { result ≡ has_name board.now.domains name }
{
    board.find_domain(&name).is_some()
}

/// Whether a line has this number.
#[tactic(auto, using(board_def::proofs::Finds::has_line_found))]
fn has_line(board: &Board, line: LineNo) -> bool
    ensures { result ≡ has_line board.now.lines line }
{
    board.find_line(line).is_some()
}

/// Whether the call names a device or a line that the board doesn't have.
fn names_nothing(board: &Board, call: CallWords) -> bool
    ensures { result ≡ names_nothing board.now call }
{
    line_named(board, call).is_none()
}

/// The line that the call is about; none if it names a device or a line that the board doesn't
/// have.
#[inline(always)]
pub(crate) fn line_named(board: &Board, call: CallWords) -> Option<LineNo>
    ensures none { is_none result ≡ names_nothing board.now call }
    ensures line { IfSome result (λ line. line ≡ line_of_call board.now.devices call) }
{
    match call {
        CallWords::Request { dev, .. }
        | CallWords::Free { dev }
        | CallWords::Ask { dev }
        | CallWords::Wake { dev }
        | CallWords::Quiet { dev }
        | CallWords::Arm { dev }
        | CallWords::Serve { dev } => Some(board.find_device(dev)?.line),
        CallWords::Disable { line }
        | CallWords::DisableNosync { line }
        | CallWords::Enable { line }
        | CallWords::Sync { line }
        | CallWords::SyncHard { line }
        | CallWords::DisableHard { line }
        | CallWords::Affinity { line, .. }
        | CallWords::Moment { line, .. } => if_there(board, line),
    }
}

/// The line, if the board has it.
fn if_there(board: &Board, line: LineNo) -> Option<LineNo>
    ensures { result ≡ (if has_line board.now.lines line then Some line else None) }
{
    if has_line(board, line) {
        Some(line)
    } else {
        None
    }
}

#[tactic(auto, using(crate::proofs::Left::left_at, crate::proofs::Left::item_there, std::proofs::lemmas::List::drop_all))]
fn any_picks_nothing(board: &Board, picks: &PickList) -> bool
    ensures { result ≡ list_any (λ p. picks_nothing board.now p.who) picks.now }
{
    for i in 0..picks.len() {
        if let Some(pick) = picks.get(i) {
            if picks_nothing(board, pick.who) {
                return true;
            }
        }
    }
    false
}

/// Whether there is no such actor.
fn picks_nothing(board: &Board, who: Actor) -> bool
    ensures { result ≡ picks_nothing board.now who }
{
    match who {
        Actor::Thread(dev) => match board.find_device(dev) {
            Some(device) => !device.kind.has_thread(),
            None => true,
        },
        Actor::Cpu(cpu) => board.cpus() <= cpu.0,
        Actor::Driver(driver) => !board.has_driver(driver),
    }
}

/// Whether there is no such part of the device's handler.
fn has_no_part(part: Part, device: Option<DeviceDef>) -> bool
    ensures { result ≡ has_no_part part device }
{
    match device {
        Some(device) => part == Part::Thread && !device.kind.has_thread(),
        None => true,
    }
}

/// Whether the device isn't there, or it is a told one without such a part of its handler.
fn cannot_answer(part: Part, device: Option<DeviceDef>) -> bool
    ensures { result ≡ cannot_answer part device }
{
    match device {
        Some(told) => is_told(told.kind) && has_no_part(part, device),
        None => true,
    }
}

/// Whether the kind of a domain's level doesn't allow its parent.
pub fn has_bad_parent(board: &Board, statement: &Statement) -> bool
    ensures { result ≡ has_bad_parent board.now statement.now }
{
    match statement {
        Statement::Domain(domain) => {
            board.has_bad_parent(domain.kind, parent_place(board, domain.parent))
        }
        _ => false,
    }
}

/// The place of the domain that is named as a parent.
pub fn parent_place(board: &Board, parent: Option<Name>) -> Option<usize>
    ensures { result ≡ parent_place board.now.domains parent }
{
    match parent {
        Some(name) => board.find_domain(&name),
        None => None,
    }
}

/// Whether the statement's line is unlazy and may not be.
pub fn has_bad_unlazy(board: &Board, statement: &Statement) -> bool
    ensures { result ≡ has_bad_unlazy board.now statement.now }
{
    match statement {
        Statement::Line(line) => board.is_bad_unlazy(domain_place(board, line.domain), line.unlazy),
        _ => false,
    }
}

/// The place of the domain with this name; 0 if there is no such domain.
#[tactic(auto, using(crate::proofs::Places::first_or))]
pub fn domain_place(board: &Board, name: Name) -> usize
    ensures { result ≡ place_or_first (place_of_name board.now.domains name) }
{
    board.find_domain(&name).unwrap_or(0)
}

/// Whether a line's mask has no processor of the machine.
pub fn has_bad_mask(board: &Board, statement: &Statement) -> bool
    ensures { result ≡ has_bad_mask board.now statement.now }
{
    match statement {
        Statement::Line(line) => is_mask_empty(board, line.mask),
        _ => false,
    }
}

fn is_mask_empty(board: &Board, mask: Option<u32>) -> bool
    ensures { result ≡ is_mask_empty board.now.cpus mask }
{
    board.is_board();
    match mask {
        Some(mask) => !has_processor(board.cpus(), mask),
        None => false,
    }
}

/// Whether the statement declares one more of its kind than a board may have; `writer`: whose
/// script is written.
pub fn is_one_too_many(board: &Board, writer: Writer, statement: &Statement) -> bool
    ensures { result ≡ is_one_too_many writer board.now statement.now }
{
    match statement {
        Statement::Domain(_) => board.domains_len() >= MOST_DOMAINS,
        Statement::Line(_) => board.lines_len() >= MOST_LINES,
        Statement::Device(_) => board.devices_len() >= MOST_DEVICES,
        Statement::Answers { dev, answers, .. } => has_no_room_for(board, *dev, answers),
        Statement::Driver(_) => board.drivers_len() >= MOST_DRIVERS,
        Statement::Call(_) => has_no_room_to_call(board, writer),
        Statement::Picks(picks) => has_no_room(board.picks_len(), picks),
        _ => false,
    }
}

/// Whether the picks, after `len` others, are more than a board may have.
#[tactic(auto, using(crate::proofs::Left::left_at, crate::proofs::Left::item_there, std::proofs::lemmas::List::drop_all))]
fn has_no_room(len: usize, picks: &PickList) -> bool
    ensures { result ≡ nat_lt 65536 (len + count_of_picks picks.now) }
{
    let Some(mut room) = MOST_PICKS.checked_sub(len) else {
        return true;
    };
    for i in 0..picks.len() {
        if let Some(pick) = picks.get(i) {
            let times = pick.times as usize;
            if times > room {
                return true;
            }
            room -= times;
        }
    }
    false
}
