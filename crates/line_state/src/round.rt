//! The round of a flow.
ghost use Rattle.std.specs.Prelude.{◌≡◌, ◌||◌, false, Some, None, max};
ghost use Rattle.irq_model.specs.Kinds.{is_wake, is_handled};

use irq_base::{Answer, DevNo};
use std::marker::Model;

/// What is kept of the handlers of a round (`__handle_irq_event_percpu`, `kernel/irq/handle.c`),
/// and the time.
#[derive(Drop)]
pub struct Round {
    working: Option<DevNo>,
    wakes: bool,
    handles: bool,
    moment: u32,
}

impl Model for Round {
    ghost use Rattle.line_marks.specs.Rounds.{RoundSeen};

    ghost Value = { RoundSeen };

    ghost view = { λ r. record {
      working = r.working;
      wakes = r.wakes;
      handles = r.handles;
      moment = r.moment;
    } };
}

impl Round {
    /// The round with these facts: the device whose handler is at work, whether some handler of
    /// it woke its thread, whether some handled the interrupt, and the greatest moment that was
    /// handed in.
    pub fn of(working: Option<DevNo>, wakes: bool, handles: bool, moment: u32) -> Round
        ensures { result ≡ record {
          working = working;
          wakes = wakes;
          handles = handles;
          moment = moment;
        } }
    {
        Round {
            working,
            wakes,
            handles,
            moment,
        }
    }

    /// No handler was called yet, and no moment handed in.
    pub(crate) fn new() -> Round
        ensures { result ≡ record { working = None; wakes = false; handles = false; moment = 0 } }
    {
        Round {
            working: None,
            wakes: false,
            handles: false,
            moment: 0,
        }
    }

    /// The device whose handler is at work, if one is.
    pub fn working(&self) -> Option<DevNo>
        ensures { result ≡ self.now.working }
    {
        self.working
    }

    /// Whether some handler of the round woke its thread.
    pub fn wakes(&self) -> bool
        ensures { result ≡ self.now.wakes }
    {
        self.wakes
    }

    /// Whether some handler of the round handled the interrupt.
    pub fn handles(&self) -> bool
        ensures { result ≡ self.now.handles }
    {
        self.handles
    }

    /// The greatest moment that was handed in, in milliseconds.
    pub fn moment(&self) -> u32
        ensures { result ≡ self.now.moment }
    {
        self.moment
    }

    /// A round begins: no handler of it has answered.
    pub(crate) fn begin(&mut self)
        ensures { self.new ≡ record self.old { wakes = false; handles = false } }
    {
        self.wakes = false;
        self.handles = false;
    }

    /// The device's handler is called.
    pub(crate) fn called(&mut self, dev: DevNo)
        ensures { self.new ≡ record self.old { working = Some dev } }
    {
        self.working = Some(dev);
    }

    /// It returns.
    pub(crate) fn returned(&mut self, answer: Answer)
        ensures { self.new ≡ record self.old {
          working = None;
          wakes = is_wake answer || self.old.wakes;
          handles = is_handled answer || self.old.handles;
        } }
    {
        self.working = None;
        match answer {
            Answer::Wake => self.wakes = true,
            Answer::Handled => self.handles = true,
            Answer::Nothing => {}
        }
    }

    /// The time is handed in; it never goes back.
    pub(crate) fn set_moment(&mut self, at: u32)
        ensures { self.new ≡ record self.old { moment = max at self.old.moment } }
    {
        self.moment = at.max(self.moment);
    }
}
