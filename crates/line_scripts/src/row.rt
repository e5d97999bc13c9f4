//! One driver's calls on the line.
ghost use Rattle.std.specs.Prelude.{◌≡◌, ℕ, ◌+◌, ◌<◌, ◌^◌, ◌++◌, [], ◌∷◌, IsSome, OnOk, IfOk};
ghost use Rattle.std.specs.Prelude.{if◌then◌else◌};
ghost use Rattle.irq_model.specs.Laid.{with_count};
ghost use Rattle.line_scripts.specs.Rows.{unbegun, call_in};

use irq_base::{Call, NoMemory};
use std::alloc::Global;
use std::marker::Model;

/// A driver's calls on the line, in the order of its script, and how far it is with them.
#[derive(Drop)]
pub struct Row {
    calls: Vec<Call>,
    place: usize,
    within: u32,
}

impl Model for Row {
    ghost use Rattle.line_scripts.specs.Rows.{RowSeen};

    ghost Value = { RowSeen };

    ghost view = { λ r. record { calls = r.calls.items; place = r.place; within = r.within } };
}

impl Row {
    /// The row of no calls. It takes no memory yet.
    pub fn new(alloc: Global) -> Row
        ensures { result ≡ unbegun [] }
    {
        Row {
            calls: Vec::new(alloc),
            place: 0,
            within: 0,
        }
    }

    /// Adds a call at the end. The only error is `NoMemory`.
    pub fn push(&mut self, call: Call) -> Result<(), NoMemory>
        ensures { OnOk result (self.new ≡ record self.old { calls = self.old.calls ++ call ∷ [] }) }
    {
        self.calls.push(call)?;
        Ok(())
    }

    /// The first call that isn't complete, and how many entries it has made; none if all are
    /// complete.
    pub fn due(&self) -> Option<(Call, u32)>
        ensures { result ≡ with_count (call_in self.now) self.now.within }
    {
        let call = self.calls.get(self.place).copied()?;
        Some((call, self.within))
    }

    /// How many of the calls are complete.
    pub fn place(&self) -> usize
        ensures { result ≡ self.now.place }
    {
        self.place
    }

    /// Goes to the place, at which the call has made this many entries.
    pub fn go_to(&mut self, place: usize, within: u32)
        ensures { self.new ≡ record self.old { place = place; within = within } }
    {
        self.place = place;
        self.within = within;
    }

    /// One more entry of the due call was added. `completes`: it was the last one.
    pub fn advance(&mut self, completes: bool)
        requires due { IsSome (call_in self.old) }
        requires within { self.old.within + 1 < 2 ^ 32 }
        ensures calls { self.new.calls ≡ self.old.calls }
        ensures place { self.new.place
            ≡ (if completes then self.old.place + 1 else self.old.place) }
        ensures within { self.new.within ≡ (if completes then 0 else self.old.within + 1) }
    {
        if completes {
            self.place += 1;
            self.within = 0;
        } else {
            self.within += 1;
        }
    }
}
