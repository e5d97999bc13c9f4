//! The definitions of all lines of a board at once.
ghost use Rattle.std.specs.Prelude.{◌≡◌, ◌+◌, ◌∷◌, ◌++◌, [], Some, All, IfOk, OnOk, slice_get};
ghost use Rattle.std.specs.Prelude.{take};
ghost use Rattle.irq_model.specs.Valid.{IsValid};
ghost use Rattle.irq_model.specs.ValidRuns.{HasValidRuns};
ghost use Rattle.board_def.specs.LineOf.{line_of_row, line_defs_of, with_driver, with_parts};
ghost use Rattle.board_def.specs.Runs.{of_run, of_told};

use crate::board::Board;
use crate::levels::{flow_of, levels_from, retriggers, trigger_of};
use crate::rows::{LineRow, RunCall, ScriptCall, ToldRow};
use irq_base::{CallList, DeviceDef, DeviceList, LineDef, NoMemory, RunCallList, ToldList};
use std::alloc::Global;

impl Board {
    /// The definitions of all lines, in the board's order, including the lines that the layout
    /// refuses. It goes over the devices, the calls and the answers once, and finds the line of
    /// each in constant time. The only error is `NoMemory`.
    pub fn line_defs(&self, alloc: Global) -> Result<Vec<LineDef>, NoMemory>
        ensures defs { IfOk result (λ defs. defs.items ≡ line_defs_of self.now) }
        ensures valid { IfOk result (λ defs. All IsValid defs.items) }
        ensures runs { IfOk result (λ defs. All HasValidRuns defs.items) }
    {
        self.is_board();
        let mut defs = bare_defs(alloc, self)?;
        add_devices(&mut defs, self)?;
        add_calls(&mut defs, self)?;
        add_runs(&mut defs, self)?;
        add_told(&mut defs, self)?;
        Ok(defs)
    }
}

// The definitions of the lines without their devices, calls and answers.
fn bare_defs(alloc: Global, board: &Board) -> Result<Vec<LineDef>, NoMemory>
    ensures { IfOk result (λ defs. defs.items ≡ line_defs_of (with_parts board.now [] [] [] [])) }
{
    let mut defs = Vec::new(alloc);
    for i in 0..board.lines_len() {
        let Some(row) = board.line(i) else {
            unreachable!();
        };
        defs.push(bare_def(alloc, board, row))?;
    }
    Ok(defs)
}

// The definition of the line without its devices, calls and answers.
fn bare_def(alloc: Global, board: &Board, row: LineRow) -> LineDef
    ensures { result ≡ line_of_row (with_parts board.now [] [] [] []) row }
{
    let levels = levels_from(board, Some(row.domain));
    LineDef {
        line: row.line,
        flow: flow_of(levels.root),
        trigger: trigger_of(levels.root),
        keeps: levels.keeps(),
        recalls: levels.recalls(),
        retriggers: retriggers(levels.root),
        unlazy: row.unlazy,
        later: row.later,
        mask: row.mask,
        cpus: board.cpus(),
        window: board.window(),
        limit: board.limit(),
        log: board.log(),
        devices: DeviceList::new(alloc),
        calls: CallList::new(alloc),
        runs: RunCallList::new(alloc),
        told: ToldList::new(alloc),
    }
}

// Gives each device to its line.
fn add_devices(defs: &mut Vec<LineDef>, board: &Board) -> Result<(), NoMemory>
    requires { defs.old.items ≡ line_defs_of (with_parts board.now [] [] [] []) }
    ensures { OnOk result (defs.new.items ≡ line_defs_of
        (with_parts board.now board.now.devices [] [] [])) }
{
    for i in 0..board.devices_len() {
        let Some(device) = board.device(i) else {
            unreachable!();
        };
        place_device(defs, board, i, device)?;
    }
    Ok(())
}

// Gives each call to the line that it is about.
fn add_calls(defs: &mut Vec<LineDef>, board: &Board) -> Result<(), NoMemory>
    requires { defs.old.items ≡ line_defs_of (with_parts board.now board.now.devices [] [] []) }
    ensures { OnOk result (defs.new.items ≡ line_defs_of
        (with_parts board.now board.now.devices board.now.calls [] [])) }
{
    for i in 0..board.calls_len() {
        let Some(call) = board.call(i) else {
            unreachable!();
        };
        place_call(defs, board, i, call)?;
    }
    Ok(())
}

// Gives each call of a run to the line that it is about.
fn add_runs(defs: &mut Vec<LineDef>, board: &Board) -> Result<(), NoMemory>
    requires { defs.old.items ≡ line_defs_of
        (with_parts board.now board.now.devices board.now.calls [] []) }
    ensures { OnOk result (defs.new.items ≡ line_defs_of
        (with_parts board.now board.now.devices board.now.calls board.now.runs [])) }
{
    for i in 0..board.runs_len() {
        let Some(call) = board.run(i) else {
            unreachable!();
        };
        place_run(defs, board, i, call)?;
    }
    Ok(())
}

// Gives each answer to the line of its device.
fn add_told(defs: &mut Vec<LineDef>, board: &Board) -> Result<(), NoMemory>
    requires { defs.old.items ≡ line_defs_of
        (with_parts board.now board.now.devices board.now.calls board.now.runs []) }
    ensures { OnOk result (defs.new.items ≡ line_defs_of board.now) }
{
    for i in 0..board.told_len() {
        let Some(row) = board.answer(i) else {
            unreachable!();
        };
        place_told(defs, board, i, row)?;
    }
    Ok(())
}

// Gives the device at index `place` of the board's to its line.
fn place_device(
    defs: &mut Vec<LineDef>,
    board: &Board,
    index: usize,
    device: DeviceDef,
) -> Result<(), NoMemory>
    requires there { slice_get board.now.devices index ≡ Some device }
    requires before { defs.old.items ≡ line_defs_of
        (with_parts board.now (take index board.now.devices) [] [] []) }
    ensures { OnOk result (defs.new.items ≡ line_defs_of
        (with_parts board.now (take (index + 1) board.now.devices) [] [] [])) }
{
    board.is_board();
    if let Some(place) = board.place_of_line(device.line) {
        add_device(&mut defs[place], device)?;
    }
    Ok(())
}

// Gives the call at index `place` of the scripts to the line that it is about.
fn place_call(
    defs: &mut Vec<LineDef>,
    board: &Board,
    index: usize,
    call: ScriptCall,
) -> Result<(), NoMemory>
    requires there { slice_get board.now.calls index ≡ Some call }
    requires before { defs.old.items ≡ line_defs_of
        (with_parts board.now board.now.devices (take index board.now.calls) [] []) }
    ensures { OnOk result (defs.new.items ≡ line_defs_of
        (with_parts board.now board.now.devices (take (index + 1) board.now.calls) [] [])) }
{
    board.is_board();
    if let Some(place) = board.place_of_line(call.line) {
        add_call(&mut defs[place], call)?;
    }
    Ok(())
}

// Gives the call at index `place` of the runs' scripts to the line that it is about.
fn place_run(
    defs: &mut Vec<LineDef>,
    board: &Board,
    index: usize,
    call: RunCall,
) -> Result<(), NoMemory>
    requires there { slice_get board.now.runs index ≡ Some call }
    requires before { defs.old.items ≡ line_defs_of
        (with_parts board.now board.now.devices board.now.calls (take index board.now.runs) []) }
    ensures { OnOk result (defs.new.items ≡ line_defs_of
        (with_parts board.now board.now.devices board.now.calls
        (take (index + 1) board.now.runs) [])) }
{
    board.is_board();
    if let Some(place) = board.place_of_line(call.line) {
        add_run(&mut defs[place], call)?;
    }
    Ok(())
}

// Gives the answer at index `place` of the answers to the line of its device.
fn place_told(
    defs: &mut Vec<LineDef>,
    board: &Board,
    index: usize,
    row: ToldRow,
) -> Result<(), NoMemory>
    requires there { slice_get board.now.told index ≡ Some row }
    requires before { defs.old.items ≡ line_defs_of
        (with_parts board.now board.now.devices board.now.calls board.now.runs
        (take index board.now.told)) }
    ensures { OnOk result (defs.new.items ≡ line_defs_of
        (with_parts board.now board.now.devices board.now.calls board.now.runs
        (take (index + 1) board.now.told))) }
{
    board.is_board();
    if let Some(place) = board.place_of_line(row.line) {
        add_answer(&mut defs[place], row)?;
    }
    Ok(())
}

// Adds the device at the end of the definition's devices.
fn add_device(def: &mut LineDef, device: DeviceDef) -> Result<(), NoMemory>
    ensures { OnOk result (def.new ≡ record def.old { devices = def.old.devices ++ device ∷ [] }) }
{
    def.devices.push(device)
}

// Adds the call at the end of the definition's calls.
fn add_call(def: &mut LineDef, call: ScriptCall) -> Result<(), NoMemory>
    ensures { OnOk result (def.new ≡ record def.old
        { calls = def.old.calls ++ with_driver call ∷ [] }) }
{
    def.calls.push((call.driver, call.call))
}

// Adds the call at the end of the definition's calls of runs.
fn add_run(def: &mut LineDef, call: RunCall) -> Result<(), NoMemory>
    ensures { OnOk result (def.new ≡ record def.old
        { runs = def.old.runs ++ of_run call ∷ [] }) }
{
    def.runs.push((call.dev, call.part, call.call))
}

// Adds the answer at the end of the definition's answers.
fn add_answer(def: &mut LineDef, row: ToldRow) -> Result<(), NoMemory>
    ensures { OnOk result (def.new ≡ record def.old
        { told = def.old.told ++ of_told row ∷ [] }) }
{
    def.told.push((row.dev, row.part, row.answer))
}
