//! A line of a generated board, with its devices and its driver.
ghost use Rattle.std.specs.Prelude.{◌≡◌, ◌+◌, ◌<◌, ◌≤◌, [], ◌∷◌, ◌++◌, length, true, All, IfOk};
ghost use Rattle.std.specs.Prelude.{OnOk};
ghost use Rattle.board_def.specs.Rules.{has_line};
ghost use Rattle.board_gen.specs.Drawing.{x_after};
ghost use Rattle.board_gen.specs.Generated.{line_row, numbered, with_plan};
ghost use Rattle.board_gen.specs.Keeping.{IsUpTo};
ghost use Rattle.board_gen.specs.Plans.{device_count, kind_of, kinds_drawn, plan_of};

use crate::draws::Draws;
use crate::scripts::{Script, add_script};
use board_def::{Board, LineRow};
use irq_base::{DevNo, DeviceDef, DriverNo, Kind, LineNo, NoMemory};

/// The processors of a line without options: the two of the machine.
const BOTH: u32 = 3;

/// Adds the line with this number, and answers how many devices it has. `first` is the number of
/// its first device.
pub(crate) fn add_line(
    board: &mut Board,
    draws: &mut Draws,
    number: u32,
    first: u32,
) -> Result<u32, NoMemory>
    requires number { (1 ≤ number) × (number ≤ 16) }
    requires up_to { IsUpTo number first board.old }
    ensures devices { IfOk result (λ devices. devices ≡ device_count draws.old.x) }
    ensures drawn { IfOk result (λ devices. draws.new.x ≡ x_after (3 + devices) draws.old.x) }
    ensures line { OnOk result (board.new ≡ with_plan board.old
        (plan_of number first draws.old.x)) }
    ensures up_to { IfOk result (λ devices. IsUpTo (number + 1) (first + devices) board.new) }
{
    let domain = draws.draw(4) as usize;
    let devices = 1 + draws.draw(2);
    add_row(board, number, domain)?;
    add_devices(board, draws, number, first, devices)?;
    let script = Script {
        number,
        first,
        devices,
        asks: 50 + draws.draw(200),
    };
    board.is_board();
    board.add_driver(DriverNo(number))?;
    add_script(board, &script)?;
    Ok(devices)
}

// Adds the line's row.
fn add_row(board: &mut Board, number: u32, domain: usize) -> Result<(), NoMemory>
    requires number { (1 ≤ number) × (number ≤ 16) }
    requires domain { domain < 4 }
    requires cpus { board.old.cpus ≡ 2 }
    requires log { board.old.log ≡ 65536 }
    requires domains { length board.old.domains ≡ 4 }
    requires count { length board.old.lines + 1 ≡ number }
    requires rises { All (λ e. e.line.0 < number) board.old.lines }
    ensures { OnOk result (board.new ≡ record board.old
        { lines = board.old.lines ++ line_row number domain ∷ [] }) }
{
    board.is_board();
    board.add_line(LineRow {
        line: LineNo(number),
        domain,
        hw: number - 1,
        unlazy: false,
        later: false,
        mask: BOTH,
    })
}

// Adds the line's devices, numbered from `first` on; their kinds are drawn.
fn add_devices(
    board: &mut Board,
    draws: &mut Draws,
    line: u32,
    first: u32,
    devices: u32,
) -> Result<(), NoMemory>
    requires line { has_line board.old.lines (record { 0 = line }) ≡ true }
    requires first { 1 ≤ first }
    requires few { first + devices ≤ 256 }
    requires count { length board.old.devices + 1 ≡ first }
    requires rises { All (λ e. e.dev.0 < first) board.old.devices }
    ensures drawn { OnOk result (draws.new.x ≡ x_after devices draws.old.x) }
    ensures devices { OnOk result (board.new ≡ record board.old
        { devices = board.old.devices ++ numbered line first (kinds_drawn devices draws.old.x) }) }
    ensures rises { OnOk result (All (λ e. e.dev.0 < first + devices) board.new.devices) }
{
    for i in 0..devices {
        let device = DeviceDef {
            dev: DevNo(first + i),
            line: LineNo(line),
            kind: kind(draws.draw(3)),
            held: false,
            forgets: false,
        };
        board.is_board();
        board.add_device(device)?;
    }
    Ok(())
}

// The kind of a device by its draw.
fn kind(drawn: u32) -> Kind
    ensures { result ≡ kind_of drawn }
{
    match drawn {
        0 => Kind::Direct,
        1 => Kind::Check,
        _ => Kind::Null,
    }
}
