//! Statements: what the words of a text line say.
use crate::faults::FaultKind;
use board_def::Name;
use irq_base::{
    Actor, ControllerKind, DevNo, DriverNo, Flags, ItemList, Kind, LineNo, MapKind, NoMemory, Part,
    ToldAnswer,
};
use thiserror::Error;

/// A `domain` statement.
#[derive(Clone, Copy, PartialEq, Eq)]
pub struct DomainWords {
    /// Its name.
    pub name: Name,
    /// How it maps hardware numbers.
    pub map: MapKind,
    /// What its controllers do with the signal.
    pub kind: ControllerKind,
    /// The name of its parent; the first one if `parent` stands again.
    pub parent: Option<Name>,
    /// `parent` stands again.
    pub twice: bool,
}

/// A `line` statement.
#[derive(Clone, Copy, PartialEq, Eq)]
pub struct LineWords {
    /// Its number.
    pub line: LineNo,
    /// The name of its domain.
    pub domain: Name,
    /// Its hardware number there.
    pub hw: u32,
    /// `unlazy` stands.
    pub unlazy: bool,
    /// `later` stands.
    pub later: bool,
    /// The number after `mask`, if it stands; the first one if it stands again.
    pub mask: Option<u32>,
    /// An option stands again.
    pub twice: bool,
}

/// A `device` statement.
#[derive(Clone, Copy, PartialEq, Eq)]
pub struct DeviceWords {
    /// Its number.
    pub dev: DevNo,
    /// The line that it raises.
    pub line: LineNo,
    /// How its handlers work; a told device has no thread yet.
    pub kind: Kind,
    /// `held` stands.
    pub held: bool,
    /// `forgets` stands.
    pub forgets: bool,
    /// An option stands again.
    pub twice: bool,
}

/// A call of a script, and the device or line that it names.
#[derive(Clone, Copy, PartialEq, Eq)]
pub enum CallWords {
    /// `request`; `twice` if a flag stands again.
    Request {
        dev: DevNo,
        flags: Flags,
        twice: bool,
    },
    /// `free`.
    Free {
        dev: DevNo,
    },
    /// `ask`.
    Ask {
        dev: DevNo,
    },
    /// `disable`.
    Disable {
        line: LineNo,
    },
    /// `disable_nosync`.
    DisableNosync {
        line: LineNo,
    },
    /// `enable`.
    Enable {
        line: LineNo,
    },
    /// `sync`.
    Sync {
        line: LineNo,
    },
    /// `affinity`: bit c of the mask stands for processor c.
    Affinity {
        line: LineNo,
        mask: u32,
    },
    /// `moment`: the time in milliseconds.
    Moment {
        line: LineNo,
        at: u32,
    },
    /// `sync_hard`.
    SyncHard {
        line: LineNo,
    },
    /// `disable_hard`.
    DisableHard {
        line: LineNo,
    },
    /// `wake`.
    Wake {
        dev: DevNo,
    },
    /// `quiet`.
    Quiet {
        dev: DevNo,
    },
    /// `arm`.
    Arm {
        dev: DevNo,
    },
    /// `serve`.
    Serve {
        dev: DevNo,
    },
}

/// One word of an `answers` statement.
#[derive(Clone, Copy, PartialEq, Eq)]
pub struct AnswerWord {
    /// What is answered.
    pub answer: ToldAnswer,
    /// In how many runs, 1 to 65,535.
    pub times: u32,
}

/// The words of an `answers` statement.
pub type AnswerList = ItemList<AnswerWord>;

/// One word of a `picks` statement.
#[derive(Clone, Copy, PartialEq, Eq)]
pub struct PickWord {
    /// The actor.
    pub who: Actor,
    /// How many steps of the actor, 1 to 65,535.
    pub times: u32,
}

/// The words of a `picks` statement.
pub type PickList = ItemList<PickWord>;

/// What one text line says.
#[derive(Drop)]
pub enum Statement {
    /// `board`: the version of the text, 1 to 3.
    Board(u32),
    /// `cpus`: the number of processors, 1 to 32.
    Cpus(u32),
    /// `spurious`: how many interrupts of a line are counted before the unhandled ones are judged,
    /// and how many may be unhandled.
    Spurious {
        window: u32,
        limit: u32,
    },
    /// `log`: the greatest length of a line's history, 1 to 1,000,000.
    Log(u32),
    /// `domain`.
    Domain(DomainWords),
    /// `line`.
    Line(LineWords),
    /// `device`.
    Device(DeviceWords),
    /// `answers`: what the part of the told device answers in turn.
    Answers {
        dev: DevNo,
        part: Part,
        answers: AnswerList,
    },
    /// `handler` or `thread`: the script of the device's runs of that part begins.
    Runs {
        dev: DevNo,
        part: Part,
    },
    /// `driver`.
    Driver(DriverNo),
    /// A call of the last `handler`, `thread` or `driver` before it.
    Call(CallWords),
    /// `picks`.
    Picks(PickList),
}

/// Why the words make no statement.
#[derive(Clone, Copy, Debug, PartialEq, Eq, Error)]
pub enum StatementRefused {
    /// The first fault of the words.
    #[error("{0}")]
    Fault(FaultKind),
    /// Memory was needed for picks or answers, and refused.
    #[error("out of memory")]
    NoMemory,
}
