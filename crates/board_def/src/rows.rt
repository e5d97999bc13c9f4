//! The rows of a board.
ghost use Rattle.std.specs.Prelude.{◌≡◌};
ghost use Rattle.std.specs.List.{list_any};
ghost use Rattle.board_def.specs.Runs.{answers_wake};

use crate::names::Name;
use crate::tables::Keyed;
use irq_base::{Call, DevNo, DeviceDef, DomainDef, DriverNo, LineNo, Part, ToldAnswer};

/// A domain and its name.
#[derive(Clone, Copy, PartialEq, Eq)]
pub struct DomainRow {
    /// The name, which no other domain of the board has.
    pub name: Name,
    /// How it maps hardware numbers, what its controllers do, and the place of its parent.
    pub def: DomainDef,
}

impl Keyed<Name> for DomainRow {
    ghost key_of = { λ row. row.name };

    fn key(&self) -> Name {
        self.name
    }
}

/// A line: where it is wired, and its options.
#[derive(Clone, Copy, PartialEq, Eq)]
pub struct LineRow {
    /// Its number, 1 to 65,535.
    pub line: LineNo,
    /// The place of its domain among the board's domains, counted from 0.
    pub domain: usize,
    /// Its hardware number there.
    pub hw: u32,
    /// Disabling masks the chip at once (`IRQ_DISABLE_UNLAZY`, `include/linux/irq.h`).
    pub unlazy: bool,
    /// An affinity call takes effect at the next interrupt (`irq_can_move_pcntxt` is false).
    pub later: bool,
    /// The processors that may take it at first: bit c stands for processor c.
    pub mask: u32,
}

impl Keyed<LineNo> for LineRow {
    ghost key_of = { λ row. row.line };

    fn key(&self) -> LineNo {
        self.line
    }
}

impl Keyed<DevNo> for DeviceDef {
    ghost key_of = { λ device. device.dev };

    fn key(&self) -> DevNo {
        self.dev
    }
}

impl Keyed<DriverNo> for DriverNo {
    ghost key_of = { λ driver. driver };

    fn key(&self) -> DriverNo {
        *self
    }
}

/// A call of a driver's script, and the line that it is about.
#[derive(Clone, Copy, PartialEq, Eq)]
pub struct ScriptCall {
    /// The driver that makes it.
    pub driver: DriverNo,
    /// The line that it is about; of a call about a device, the device's line.
    pub line: LineNo,
    /// What is called.
    pub call: Call,
}

/// A call that runs of a device's handler or thread make, and the line that it is about.
#[derive(Clone, Copy, PartialEq, Eq)]
pub struct RunCall {
    /// The line that it is about; of a call about a device, that device's line.
    pub line: LineNo,
    /// The device whose runs make it.
    pub dev: DevNo,
    /// Which part of its handler runs.
    pub part: Part,
    /// What is called.
    pub call: Call,
}

/// What a told device answers in one run, and the line that it raises.
#[derive(Clone, Copy, PartialEq, Eq)]
pub struct ToldRow {
    /// The device's line.
    pub line: LineNo,
    /// The device.
    pub dev: DevNo,
    /// Which part of its handler answers.
    pub part: Part,
    /// What it answers.
    pub answer: ToldAnswer,
}

/// Whether the handler of the device wakes its thread by one of these answers.
#[tactic(auto, using(std::proofs::lemmas::List::drop_all))]
pub(crate) fn wake_thread(dev: DevNo, rows: &[ToldRow]) -> bool
    ensures { result ≡ list_any (answers_wake dev) rows.now }
{
    for row in rows {
        if answers_wake(dev, row) {
            return true;
        }
    }
    false
}

/// Whether the answer is of the device's handler, and wakes its thread.
fn answers_wake(dev: DevNo, row: &ToldRow) -> bool
    ensures { result ≡ answers_wake dev row.now }
{
    row.dev.0 == dev.0 && row.part == Part::Primary && row.answer == ToldAnswer::Wake
}
