//! The script of a line's driver.
ghost use Rattle.std.specs.Prelude.{◌≡◌, ◌+◌, ◌-◌, ◌^◌, ◌<◌, ◌≤◌, false, true, [], ◌∷◌, ◌++◌};
ghost use Rattle.std.specs.Prelude.{length, OnOk};
ghost use Rattle.irq_base.specs.declared.numbers.DevNo.{DevNo};
ghost use Rattle.board_def.specs.Rules.{fits_line, is_bad_owner, is_owning};
ghost use Rattle.board_gen.specs.Generated.{asks_from, frees, requests, script_call, script_calls};
ghost use Rattle.board_gen.specs.Keeping.{IsScripted, NamesNone};

use board_def::{Board, ScriptCall};
use irq_base::{Call, DevNo, DriverNo, Flags, LineNo, NoMemory};

/// What a line's driver does. The driver has the line's number.
#[derive(Clone, Copy)]
pub(crate) struct Script {
    /// The number of the line and of its driver.
    pub(crate) number: u32,
    /// The number of its first device.
    pub(crate) first: u32,
    /// How many devices it has, 1 or 2.
    pub(crate) devices: u32,
    /// How many asks the devices make together, in turn.
    pub(crate) asks: u32,
}

/// The flags of each request.
const SHARED_ONESHOT: Flags = Flags {
    shared: true,
    oneshot: true,
    noauto: false,
};

/// Adds the script's calls.
pub(crate) fn add_script(board: &mut Board, script: &Script) -> Result<(), NoMemory>
    requires devices { 0 < script.now.devices }
    requires room { length
        board.old.calls + script.now.devices + script.now.devices + script.now.asks + 2 ≤ 16384 }
    requires numbers { script.now.first + script.now.devices < 2 ^ 31 }
    requires scripted { IsScripted script.now board.old }
    requires unnamed { NamesNone script.now.first board.old }
    ensures calls { OnOk result
        (board.new ≡ record board.old { calls = board.old.calls ++ script_calls script.now }) }
    ensures count { OnOk result
        (length board.new.calls
        ≡ length board.old.calls + script.now.devices + script.now.devices + script.now.asks + 2) }
    ensures scripted { OnOk result (IsScripted script.now board.new) }
{
    let half = script.asks / 2;
    add_requests(board, script)?;
    add_asks(board, script, 0, half)?;
    add_call(board, script, Call::Disable)?;
    add_call(board, script, Call::Enable)?;
    add_asks(board, script, half, script.asks)?;
    add_frees(board, script)
}

// Adds a request of each device.
fn add_requests(board: &mut Board, script: &Script) -> Result<(), NoMemory>
    requires room { length board.old.calls + script.now.devices ≤ 16384 }
    requires numbers { script.now.first + script.now.devices < 2 ^ 31 }
    requires scripted { IsScripted script.now board.old }
    requires unnamed { NamesNone script.now.first board.old }
    ensures calls { OnOk result
        (board.new ≡ record board.old { calls = board.old.calls ++ requests script.now }) }
    ensures count { OnOk result
        (length board.new.calls ≡ length board.old.calls + script.now.devices) }
    ensures scripted { OnOk result (IsScripted script.now board.new) }
{
    for i in 0..script.devices {
        let dev = DevNo(script.first + i);
        add_call(
            board,
            script,
            Call::Request {
                dev,
                flags: SHARED_ONESHOT,
            },
        )?;
    }
    Ok(())
}

// Adds the asks number `from` to `to` - 1, counted from 0.
fn add_asks(board: &mut Board, script: &Script, from: u32, to: u32) -> Result<(), NoMemory>
    requires devices { 0 < script.now.devices }
    requires places { from ≤ to }
    requires room { length board.old.calls + (to - from) ≤ 16384 }
    requires numbers { script.now.first + script.now.devices < 2 ^ 31 }
    requires scripted { IsScripted script.now board.old }
    ensures calls { OnOk result
        (board.new
        ≡ record board.old { calls = board.old.calls ++ asks_from script.now from (to - from) }) }
    ensures count { OnOk result (length board.new.calls ≡ length board.old.calls + (to - from)) }
    ensures scripted { OnOk result (IsScripted script.now board.new) }
{
    for i in from..to {
        let dev = DevNo(script.first + i % script.devices);
        add_call(board, script, Call::Ask { dev })?;
    }
    Ok(())
}

// Adds a free of each device.
fn add_frees(board: &mut Board, script: &Script) -> Result<(), NoMemory>
    requires room { length board.old.calls + script.now.devices ≤ 16384 }
    requires numbers { script.now.first + script.now.devices < 2 ^ 31 }
    requires scripted { IsScripted script.now board.old }
    ensures calls { OnOk result
        (board.new ≡ record board.old { calls = board.old.calls ++ frees script.now }) }
    ensures count { OnOk result
        (length board.new.calls ≡ length board.old.calls + script.now.devices) }
    ensures scripted { OnOk result (IsScripted script.now board.new) }
{
    for i in 0..script.devices {
        let dev = DevNo(script.first + i);
        add_call(board, script, Call::Free { dev })?;
    }
    Ok(())
}

// Adds a call of the driver about its line.
fn add_call(board: &mut Board, script: &Script, call: Call) -> Result<(), NoMemory>
    requires room { length board.old.calls < 16384 }
    requires scripted { IsScripted script.now board.old }
    requires fits { fits_line board.old.devices (record { 0 = script.now.number }) call ≡ true }
    requires owner { is_bad_owner board.old.calls (record { 0 = script.now.number }) call ≡ false }
    requires own { (d : DevNo) → script.now.first + script.now.devices ≤ d.0
        → is_owning d (script_call script.now call) ≡ false }
    ensures calls { OnOk result
        (board.new
        ≡ record board.old { calls = board.old.calls ++ script_call script.now call ∷ [] }) }
    ensures count { OnOk result (length board.new.calls ≡ length board.old.calls + 1) }
    ensures scripted { OnOk result (IsScripted script.now board.new) }
{
    board.is_board();
    board.add_call(ScriptCall {
        driver: DriverNo(script.number),
        line: LineNo(script.number),
        call,
    })
}
