//! The drivers' scripts, cut by driver.
ghost use Rattle.std.specs.Prelude.{◌≡◌, ◌+◌, false, ◌<◌, ◌≤◌, Some, [], ◌∷◌, ◌++◌, length};
ghost use Rattle.std.specs.Prelude.{slice_get, OnOk};
ghost use Rattle.board_core.specs.Placing.{joined};
ghost use Rattle.board_core.specs.Scripts.{advanced, due_at};
ghost use Rattle.board_core.specs.ReadyFor.{call_of};

use crate::turns::DueCall;
use board_def::ScriptCall;
use board_ready::CurrentCall;
use irq_base::{DriverNo, Entry, NoMemory};
use line_scripts::{completes, wait_of};
use std::alloc::Global;
use std::marker::Model;

/// A call of a script.
#[derive(Clone, Copy)]
pub struct PlacedCall {
    /// The place of its line among the lines that take part.
    pub place: usize,
    /// The call.
    pub call: ScriptCall,
}

/// A driver's calls on the lines that take part, and how far it is with them.
#[derive(Drop)]
pub struct Script {
    driver: DriverNo,
    calls: Vec<PlacedCall>,
    at: usize,
    made: u32,
}

impl Model for Script {
    ghost use Rattle.std.specs.Prelude.{◌≤◌};
    ghost use Rattle.board_core.specs.Scripts.{ScriptSeen};

    ghost Value = { ScriptSeen };

    ghost view = { λ s. record {
      driver = s.driver;
      calls = s.calls.items;
      at = s.at;
      made = s.made;
    } };

    ghost invariant = { λ s. s.made ≤ 2 };
}

impl Script {
    /// A driver without calls.
    pub fn new(alloc: Global, driver: DriverNo) -> Script
        ensures { result ≡ record { driver = driver; calls = []; at = 0; made = 0 } }
    {
        Script {
            driver,
            calls: Vec::new(alloc),
            at: 0,
            made: 0,
        }
    }

    /// Adds the call at the end.
    pub fn push(&mut self, call: PlacedCall) -> Result<(), NoMemory>
        ensures ok { OnOk result
            (self.new ≡ record self.old { calls = self.old.calls ++ call ∷ [] }) }
    {
        self.calls.push(call)?;
        Ok(())
    }

    /// The driver whose script it is.
    pub fn driver(&self) -> DriverNo
        ensures { result ≡ self.now.driver }
    {
        self.driver
    }

    /// The call that the driver is at; none if all are complete.
    pub fn current(&self) -> Option<PlacedCall>
        ensures { result ≡ slice_get self.now.calls self.now.at }
    {
        self.calls.get(self.at).copied()
    }

    /// The current call, by its line and by what it waits for; none if all calls are complete.
    pub fn call(&self) -> Option<CurrentCall>
        ensures { result ≡ call_of self.now }
    {
        match self.current() {
            Some(placed) => Some(CurrentCall {
                line: placed.place,
                wait: wait_of(placed.call.call, self.made),
            }),
            None => None,
        }
    }

    /// The current call, with how many of its entries are there; none if all calls are complete.
    pub fn due(&self) -> Option<DueCall>
        ensures { result ≡ due_at (slice_get self.now.calls self.now.at) self.now.made }
    {
        match self.current() {
            Some(placed) => Some(DueCall {
                line: placed.call.line,
                call: placed.call.call,
                made: self.made,
            }),
            None => None,
        }
    }

    /// Goes on by what `own`, the driver's script on one line alone, has done.
    pub fn join(&mut self, own: &Script)
        requires { self.old.at + own.now.at ≤ length self.old.calls }
        ensures { self.new ≡ joined own.now self.old }
    {
        let _end = self.calls.len();
        self.at += own.at;
        self.made = self.made.max(own.made);
    }

    /// The driver made this entry.
    pub fn advance(&mut self, entry: &Entry)
        ensures { self.new ≡ advanced entry.now self.old }
    {
        let Some(placed) = self.current() else {
            return;
        };
        if completes(placed.call.call, entry) {
            self.at += 1;
            self.made = 0;
        } else {
            self.made = (self.made + 1).min(2);
        }
    }
}
