//! What the runs of a device may call, and what is wrong with statements on runs.
ghost use Rattle.std.specs.Prelude.{◌≡◌};
ghost use Rattle.std.specs.List.{list_any};
ghost use Rattle.board_def.specs.Rules.{find_device};
ghost use Rattle.board_def.specs.Runs.{may_call, arms_itself, wakes_by_call};
ghost use Rattle.board_def.specs.Runs.{arms_though_woken, is_allowed_run, is_told_one};
ghost use Rattle.board_stated.specs.FaultsAfter.{is_written, wakes_what_arms, may_not_call};
ghost use Rattle.board_stated.specs.FaultsAfter.{has_bad_run};
ghost use Rattle.board_stated.specs.Stated.{run_call};
ghost use Rattle.irq_model.specs.RunBounds.{arms_this, wakes_this};
ghost use Rattle.irq_model.specs.ValidRuns.{has_script, is_told, is_direct, may_stand};

use crate::adding::run_call;
use board_def::{Board, RunCall};
use board_stated::Writer;
use board_words::Statement;
use irq_base::{Call, DevNo, DeviceDef, Kind, Part};

/// Whether the statement is a call or an answer that the device's runs may not make or give, or
/// begins a script that no driver wrote; `writer`: whose script is written.
pub fn has_bad_run(board: &Board, writer: Writer, statement: &Statement) -> bool
    ensures { result ≡ has_bad_run writer board.now statement.now }
{
    match statement {
        Statement::Answers { dev, .. } => !is_told_one(board.find_device(*dev)),
        Statement::Runs { dev, part } => !is_written(*part, board.find_device(*dev)),
        Statement::Call(call) => match writer {
            Writer::Runs { dev, part } => { may_not_call(board, run_call(board, dev, part, *call)) }
            Writer::Nobody | Writer::Driver => false,
        },
        _ => false,
    }
}

/// Whether a driver wrote that part of the device's handler.
fn is_written(part: Part, device: Option<DeviceDef>) -> bool
    ensures { result ≡ is_written part device }
{
    match device {
        Some(device) => has_script(device.kind, part),
        None => false,
    }
}

/// Whether the device is there, and told.
fn is_told_one(device: Option<DeviceDef>) -> bool
    ensures { result ≡ is_told_one device }
{
    match device {
        Some(device) => is_told(device.kind),
        None => false,
    }
}

/// Whether a device of this kind is told.
pub fn is_told(kind: Kind) -> bool
    ensures { result ≡ is_told kind }
{
    matches!(kind, Kind::Told { .. })
}

/// Whether the device's runs may not make the call.
pub fn may_not_call(board: &Board, call: RunCall) -> bool
    ensures { result ≡ may_not_call board.now call }
{
    !is_allowed(board, call) || wakes_what_arms(board, call)
}

/// Whether the device may make this call on its line, beside the calls so far.
fn is_allowed(board: &Board, call: RunCall) -> bool
    ensures { result
        ≡ is_allowed_run board.now.runs call (find_device board.now.devices call.dev) }
{
    match board.find_device(call.dev) {
        Some(device) => {
            device.line.0 == call.line.0
                && may_call(device.kind, call.part, call.dev, call.call)
                && !arms_though_woken(board, call, device.kind)
        }
        None => false,
    }
}

/// What may stand in a script of the device's runs.
fn may_call(kind: Kind, part: Part, dev: DevNo, call: Call) -> bool
    ensures { result ≡ may_call kind part dev call }
{
    has_script(kind, part) && may_stand(kind, part, dev, call)
}

/// Whether a driver wrote that part of the handler of a device of this kind.
fn has_script(kind: Kind, part: Part) -> bool
    ensures { result ≡ has_script kind part }
{
    match part {
        Part::Thread => kind.has_thread(),
        Part::Primary => matches!(kind, Kind::Direct | Kind::Check | Kind::Told { .. }),
    }
}

/// Whether the rules of runs allow the call.
fn may_stand(kind: Kind, part: Part, dev: DevNo, call: Call) -> bool
    ensures { result ≡ may_stand kind part dev call }
{
    match call {
        Call::DisableNosync
        | Call::Enable
        | Call::Disable
        | Call::Sync
        | Call::Quiet { .. }
        | Call::Serve { .. } => true,
        Call::Wake { .. } => part == Part::Primary,
        Call::Free { .. } => part == Part::Thread,
        Call::Arm { dev: armed } => may_arm(kind, part, dev, armed),
        Call::Ask { .. }
        | Call::Request { .. }
        | Call::Affinity { .. }
        | Call::Moment { .. }
        | Call::SyncHard
        | Call::DisableHard => false,
    }
}

/// Whether a run of the device may arm the other: it is itself, and the run is a thread's or a
/// direct device's.
fn may_arm(kind: Kind, part: Part, dev: DevNo, armed: DevNo) -> bool
    ensures { result ≡ may_stand kind part dev (Call.Arm armed) }
{
    match part {
        Part::Thread => dev.0 == armed.0,
        Part::Primary => dev.0 == armed.0 && kind == Kind::Direct,
    }
}

/// Whether a told device's thread arms it by this call, though a handler wakes it by a call.
fn arms_though_woken(board: &Board, call: RunCall, kind: Kind) -> bool
    ensures { result ≡ arms_though_woken board.now.runs call kind }
{
    is_told(kind) && arms_itself(call.dev, &call) && is_woken(call.dev, board.runs())
}

/// Whether a handler wakes a told device by this call, and the thread of that device arms it.
fn wakes_what_arms(board: &Board, call: RunCall) -> bool
    ensures { result ≡ wakes_what_arms board.now call call.call }
{
    match call.call {
        Call::Wake { dev } => is_told_one(board.find_device(dev)) && is_armed(dev, board.runs()),
        _ => false,
    }
}

/// Whether a handler wakes the device by one of these calls.
fn is_woken(dev: DevNo, runs: &[RunCall]) -> bool
    ensures { result ≡ list_any (wakes_by_call dev) runs.now }
{
    for call in runs {
        if wakes_by_call(dev, call) {
            return true;
        }
    }
    false
}

/// Whether the device's thread arms it by one of these calls.
fn is_armed(dev: DevNo, runs: &[RunCall]) -> bool
    ensures { result ≡ list_any (arms_itself dev) runs.now }
{
    for call in runs {
        if arms_itself(dev, call) {
            return true;
        }
    }
    false
}

/// Whether the call is one of a handler that wakes the device.
fn wakes_by_call(dev: DevNo, call: &RunCall) -> bool
    ensures { result ≡ wakes_by_call dev call.now }
{
    match call.part {
        Part::Primary => matches!(call.call, Call::Wake { dev: woken } if woken.0 == dev.0),
        Part::Thread => false,
    }
}

/// Whether the call is one of the device's thread that arms it.
fn arms_itself(dev: DevNo, call: &RunCall) -> bool
    ensures { result ≡ arms_itself dev call.now }
{
    call.dev.0 == dev.0 && call.part == Part::Thread && arms(dev, call.call)
}

fn arms(dev: DevNo, call: Call) -> bool
    ensures { result ≡ arms_this dev call }
{
    match call {
        Call::Arm { dev: armed } => dev.0 == armed.0,
        _ => false,
    }
}
