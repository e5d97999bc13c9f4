//! What can be wrong with a board's text.
ghost use Rattle.std.specs.Prelude.{◌≡◌, ◌≤◌, length};
ghost use Rattle.board_words.specs.FaultTexts.{fault_text};

use thiserror::Error;

/// The kinds of faults. If a text line has several, the first in this order is told.
#[derive(Clone, Copy, Debug, PartialEq, Eq, Error)]
#[error("{}", self.text())]
pub enum FaultKind {
    /// The text has more bytes than it may have.
    TooLong,
    /// No text line `---` separates a log from the board. A board's text alone never has this
    /// fault.
    NoLog,
    /// A byte is neither printable ASCII nor a tab, a carriage return or a line feed.
    BadByte,
    /// The first statement isn't `board`, or there is none.
    NoHeader,
    /// A word that may not stand at its place.
    UnknownWord,
    /// A needed word is missing, or words are left over.
    WrongCount,
    /// A number is misspelled, or out of its range.
    BadNumber,
    /// A name or a pick is misspelled.
    BadName,
    /// A statement of an earlier section, a call that is of no script, or a number that doesn't
    /// rise.
    OutOfOrder,
    /// A setting, a domain's name or an option stands again.
    Twice,
    /// A domain, line, device, processor or driver isn't declared before; or the device of a pick,
    /// of `thread` or of a thread's answers has no thread.
    NotThere,
    /// A parent that the kind of the level doesn't allow, or too many levels.
    BadParent,
    /// `unlazy` on an edge line that stores no edges.
    BadUnlazy,
    /// A line's mask has no processor of the machine.
    BadMask,
    /// Two drivers request or free a device, or it is requested again without a free between.
    BadOwner,
    /// A call or an answer that the device's runs may not make or give.
    BadRun,
    /// One more of its kind than a board may have.
    TooMany,
    /// The log limit times the number of lines is above 4,000,000.
    LogTooLarge,
    /// The board can't be played behind one demultiplexer. This fault and the two after it are a
    /// command's: no board's text has them, and they are told after every fault of the text.
    NotForChain,
    /// The board can't be played with processors that go offline.
    NotForHotplug,
    /// The board can't be put to sleep.
    NotForSleep,
}

impl FaultKind {
    /// What the row of a fault calls it, in at most 15 letters and spaces.
    pub fn text(self) -> &'static str
        ensures text { result.now ≡ fault_text self }
        ensures short { length result.now ≤ 15 }
    {
        match self {
            FaultKind::TooLong => "too long",
            FaultKind::NoLog => "no log",
            FaultKind::BadByte => "bad byte",
            FaultKind::NoHeader => "no header",
            FaultKind::UnknownWord => "unknown word",
            FaultKind::WrongCount => "wrong count",
            FaultKind::BadNumber => "bad number",
            FaultKind::BadName => "bad name",
            FaultKind::OutOfOrder => "out of order",
            FaultKind::Twice => "twice",
            FaultKind::NotThere => "not there",
            FaultKind::BadParent => "bad parent",
            FaultKind::BadUnlazy => "bad unlazy",
            FaultKind::BadMask => "bad mask",
            FaultKind::BadOwner => "bad owner",
            FaultKind::BadRun => "bad run",
            FaultKind::TooMany => "too many",
            FaultKind::LogTooLarge => "log too large",
            FaultKind::NotForChain => "not for a chain",
            FaultKind::NotForHotplug => "not for hotplug",
            FaultKind::NotForSleep => "not for sleep",
        }
    }
}

/// The first fault of a board's text.
#[derive(Clone, Copy, Debug, PartialEq, Eq, Error)]
#[error("line {at}: {kind}")]
pub struct BoardFault {
    /// The text line, counted from 1; 0 if the fault is of the whole text.
    pub at: u32,
    /// What is wrong.
    pub kind: FaultKind,
}
