//! What a statement adds to the board so far.
ghost use Rattle.std.specs.Prelude.{◌≡◌, ◌≤◌, ◌++◌, OnOk, IfOk, replicate};
ghost use Rattle.std.specs.List.{flat_map};
ghost use Rattle.board_def.specs.Rules.{IsBoard};
ghost use Rattle.board_stated.specs.Stated.{domain_row, line_row, script_call, call_of_words};
ghost use Rattle.board_stated.specs.Stated.{line_of_call, line_of_device, line_or_none};
ghost use Rattle.board_stated.specs.Stated.{actors_picked, mask_or_all, run_call, with_call};
ghost use Rattle.board_stated.specs.Stated.{device_of_words, told_rows};
ghost use Rattle.board_text.specs.Kept.{drafted};

use crate::faults::{domain_place, driver_writing, parent_place};
use crate::masks::all_processors;
use board_def::{Board, DomainRow, LineRow, RunCall, ScriptCall, ToldRow};
use board_stated::Writer;
use board_words::{
    AnswerList, CallWords, DeviceWords, DomainWords, LineWords, PickList, Statement,
};
use irq_base::{Actor, Call, DevNo, DeviceDef, DomainDef, LineNo, NoMemory, Part};
use std::alloc::Global;

/// Adds to the board what the statement adds; `writer`: whose script is written. A log limit waits
/// for the end of the text.
pub fn add_statement(
    alloc: Global,
    board: &mut Board,
    writer: Writer,
    statement: &Statement,
) -> Result<(), NoMemory>
    requires { IsBoard (drafted writer statement.now board.old) }
    ensures { OnOk result (board.new ≡ drafted writer statement.now board.old) }
{
    match statement {
        Statement::Log(_) | Statement::Runs { .. } => {}
        Statement::Board(version) => board.set_version(*version),
        Statement::Cpus(cpus) => board.set_cpus(*cpus),
        Statement::Spurious { window, limit } => board.set_spurious(*window, *limit),
        Statement::Domain(domain) => board.add_domain(domain_row(board, domain))?,
        Statement::Line(line) => board.add_line(line_row(board, line))?,
        Statement::Device(device) => board.add_device(device_of_words(device))?,
        Statement::Answers { dev, part, answers } => {
            let rows = told_rows(alloc, board, *dev, *part, answers)?;
            board.add_answers(*dev, rows.as_slice())?;
        }
        Statement::Driver(driver) => board.add_driver(*driver)?,
        Statement::Call(call) => add_call(board, writer, *call)?,
        Statement::Picks(picks) => add_picks(board, picks)?,
    }
    Ok(())
}

/// Adds the call at the end of the script that is written.
fn add_call(board: &mut Board, writer: Writer, call: CallWords) -> Result<(), NoMemory>
    requires { IsBoard (with_call writer call board.old) }
    ensures { OnOk result (board.new ≡ with_call writer call board.old) }
{
    match writer {
        Writer::Runs { dev, part } => board.add_run(run_call(board, dev, part, call)),
        Writer::Nobody | Writer::Driver => board.add_call(script_call(board, call)),
    }
}

/// The device that the words declare.
fn device_of_words(device: &DeviceWords) -> DeviceDef
    ensures { result ≡ device_of_words device.now }
{
    DeviceDef {
        dev: device.dev,
        line: device.line,
        kind: device.kind,
        held: device.held,
        forgets: device.forgets,
    }
}

/// The answers of a part of a device, each as often as it is told.
fn told_rows(
    alloc: Global,
    board: &Board,
    dev: DevNo,
    part: Part,
    answers: &AnswerList,
) -> Result<Vec<ToldRow>, NoMemory>
    ensures { IfOk result (λ rows. rows.items ≡ told_rows board.now dev part answers.now) }
{
    let line = line_of_device(board, dev);
    let mut rows = Vec::new(alloc);
    for i in 0..answers.len() {
        if let Some(word) = answers.get(i) {
            let row = ToldRow {
                line,
                dev,
                part,
                answer: word.answer,
            };
            add_told_times(&mut rows, row, word.times)?;
        }
    }
    Ok(rows)
}

/// Adds the one row as `times` answers.
fn add_told_times(rows: &mut Vec<ToldRow>, row: ToldRow, times: u32) -> Result<(), NoMemory>
    ensures { OnOk result (rows.new.items ≡ rows.old.items ++ replicate times row) }
{
    for i in 0..times {
        rows.push(row)?;
    }
    Ok(())
}

/// The row of a domain.
fn domain_row(board: &Board, domain: &DomainWords) -> DomainRow
    ensures { result ≡ domain_row board.now.domains domain.now }
{
    DomainRow {
        name: domain.name,
        def: DomainDef {
            map: domain.map,
            kind: domain.kind,
            parent: parent_place(board, domain.parent),
        },
    }
}

/// The row of a line.
fn line_row(board: &Board, line: &LineWords) -> LineRow
    ensures { result ≡ line_row board.now line.now }
{
    LineRow {
        line: line.line,
        domain: domain_place(board, line.domain),
        hw: line.hw,
        unlazy: line.unlazy,
        later: line.later,
        mask: mask_or_all(board, line.mask),
    }
}

/// The mask that is written, or the mask of all processors.
fn mask_or_all(board: &Board, mask: Option<u32>) -> u32
    ensures { result ≡ mask_or_all board.now.cpus mask }
{
    board.is_board();
    match mask {
        Some(mask) => mask,
        None => all_processors(board.cpus()),
    }
}

/// A call of the last driver.
pub fn script_call(board: &Board, call: CallWords) -> ScriptCall
    ensures { result ≡ script_call board.now call }
{
    ScriptCall {
        driver: driver_writing(board),
        line: line_of_call(board, call),
        call: call_of_words(call),
    }
}

/// A call of the runs of the device's part.
pub fn run_call(board: &Board, dev: DevNo, part: Part, call: CallWords) -> RunCall
    ensures { result ≡ run_call board.now dev part call }
{
    RunCall {
        line: line_of_call(board, call),
        dev,
        part,
        call: call_of_words(call),
    }
}

/// The call that the words say.
pub fn call_of_words(call: CallWords) -> Call
    ensures { result ≡ call_of_words call }
{
    match call {
        CallWords::Request { dev, flags, .. } => Call::Request { dev, flags },
        CallWords::Free { dev } => Call::Free { dev },
        CallWords::Ask { dev } => Call::Ask { dev },
        CallWords::Disable { .. } => Call::Disable,
        CallWords::DisableNosync { .. } => Call::DisableNosync,
        CallWords::Enable { .. } => Call::Enable,
        CallWords::Sync { .. } => Call::Sync,
        CallWords::Affinity { mask, .. } => Call::Affinity { mask },
        CallWords::Moment { at, .. } => Call::Moment { at },
        CallWords::SyncHard { .. } => Call::SyncHard,
        CallWords::DisableHard { .. } => Call::DisableHard,
        CallWords::Wake { dev } => Call::Wake { dev },
        CallWords::Quiet { dev } => Call::Quiet { dev },
        CallWords::Arm { dev } => Call::Arm { dev },
        CallWords::Serve { dev } => Call::Serve { dev },
    }
}

/// The line that the call is about.
fn line_of_call(board: &Board, call: CallWords) -> LineNo
    ensures { result ≡ line_of_call board.now.devices call }
{
    match call {
        CallWords::Request { dev, .. }
        | CallWords::Free { dev }
        | CallWords::Ask { dev }
        | CallWords::Wake { dev }
        | CallWords::Quiet { dev }
        | CallWords::Arm { dev }
        | CallWords::Serve { dev } => line_of_device(board, dev),
        CallWords::Disable { line }
        | CallWords::DisableNosync { line }
        | CallWords::Enable { line }
        | CallWords::Sync { line }
        | CallWords::SyncHard { line }
        | CallWords::DisableHard { line }
        | CallWords::Affinity { line, .. }
        | CallWords::Moment { line, .. } => line,
    }
}

/// The line of the device; 0 if it isn't declared.
fn line_of_device(board: &Board, dev: DevNo) -> LineNo
    ensures { result ≡ line_of_device board.now.devices dev }
{
    match board.find_device(dev) {
        Some(device) => device.line,
        None => LineNo(0),
    }
}

/// Adds the picks of a statement; a pick with `*N` counts N times.
#[tactic(auto, using(std::proofs::lemmas::List::drop_all))]
fn add_picks(board: &mut Board, picks: &PickList) -> Result<(), NoMemory>
    requires { IsBoard
        (record board.old
        { picks = board.old.picks ++ flat_map actors_picked picks.now }) }
    ensures { OnOk result
        (board.new
        ≡ record board.old
        { picks = board.old.picks ++ flat_map actors_picked picks.now }) }
{
    for i in 0..picks.len() {
        if let Some(pick) = picks.get(i) {
            add_pick_times(board, pick.who, pick.times)?;
        }
    }
    Ok(())
}

/// Adds the one actor as `times` picks.
fn add_pick_times(board: &mut Board, actor: Actor, times: u32) -> Result<(), NoMemory>
    requires { IsBoard (record board.old { picks = board.old.picks ++ replicate times actor }) }
    ensures { OnOk result
        (board.new ≡ record board.old { picks = board.old.picks ++ replicate times actor }) }
{
    for i in 0..times {
        board.add_pick(actor)?;
    }
    Ok(())
}
