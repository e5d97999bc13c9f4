//! How far the runs of a device are.
ghost use Rattle.std.specs.Prelude.{◌≡◌, ◌+◌, ◌<◌, ◌^◌};
ghost use Rattle.run_scripts.specs.Places.{advanced, turned};

/// How far a run is with the calls of its script.
#[derive(Clone, Copy, PartialEq, Eq)]
pub struct RunPlace {
    /// How many of the calls are complete.
    pub place: u32,
    /// How many entries the next one has made.
    pub within: u32,
}

/// Which answers a part of a told device has, counted from 0 and at most their number: past the
/// last one it answers nothing.
#[derive(Clone, Copy, PartialEq, Eq)]
pub struct Turn {
    /// That of the last run that began.
    pub now: u32,
    /// That of the next run.
    pub next: u32,
}

/// What is kept of a device's runs.
#[derive(Clone, Copy, PartialEq, Eq)]
pub struct RunRow {
    /// How far its thread's run is with its calls.
    pub calls: RunPlace,
    /// The answers of its handler.
    pub handler: Turn,
    /// The answers of its thread.
    pub thread: Turn,
}

impl RunPlace {
    /// No call has begun.
    pub const FIRST: RunPlace = RunPlace {
        place: 0,
        within: 0,
    };

    /// The place after one more entry of the due call. `completes`: it is the last one.
    pub(crate) fn advanced(self, completes: bool) -> RunPlace
        requires place { self.place + 1 < 2 ^ 32 }
        requires within { self.within + 1 < 2 ^ 32 }
        ensures { result ≡ advanced completes self }
    {
        if completes {
            RunPlace {
                place: self.place + 1,
                within: 0,
            }
        } else {
            RunPlace {
                place: self.place,
                within: self.within + 1,
            }
        }
    }
}

impl RunRow {
    /// No run has begun.
    pub const FIRST: RunRow = RunRow {
        calls: RunPlace::FIRST,
        handler: Turn::FIRST,
        thread: Turn::FIRST,
    };
}

impl Turn {
    /// No run has begun.
    pub const FIRST: Turn = Turn { now: 0, next: 0 };

    /// One more run begins; there are `count` answers.
    pub(crate) fn turned(self, count: u32) -> Turn
        ensures { result ≡ turned count self }
    {
        Turn {
            now: self.next,
            next: if self.next < count {
                self.next + 1
            } else {
                count
            },
        }
    }
}
