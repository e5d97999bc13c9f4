//! What a handler said.
ghost use Rattle.std.specs.Prelude.{◌≡◌, ◌↔◌, IsTrue};
ghost use Rattle.callbacks.specs.Seen.{answer_to};

use crate::handler::SharedHandler;
use irq_base::{Answer, DeviceDef, Part, Run};
use std::marker::Model;

/// An answer of a handler, with the run that it answers. Only a call of the handler makes one, and
/// it can be neither copied nor cloned. Its type keeps that the answer is the device's.
#[derive(Drop)]
pub struct Said {
    run: Run,
    answer: Answer,
}

impl Model for Said {
    ghost use Rattle.std.specs.Prelude.{◌≡◌};
    ghost use Rattle.callbacks.specs.Seen.{SaidSeen, answer_to};

    ghost Value = { SaidSeen };

    ghost view = { λ s. record { run = s.run; answer = s.answer } };

    ghost invariant = { λ s. s.answer ≡ answer_to s.run };
}

impl Said {
    /// Has the handler of this run called, and keeps what it answers. It takes no memory.
    pub fn of<G: SharedHandler>(handlers: &G, run: Run) -> Said
        ensures said { result ≡ record { run = run; answer = answer_to run } }
        ensures gave { G.gave handlers.now run result.answer }
    {
        let answer = handlers.answer(run);
        Said { run, answer }
    }

    /// The run that ended with this answer.
    pub fn run(&self) -> Run
        ensures { result ≡ self.now.run }
    {
        self.run
    }

    /// Which part of the handler was called: the primary one, or the thread's.
    pub fn part(&self) -> Part
        ensures { result ≡ self.now.run.part }
    {
        self.run.part
    }

    /// What the handler answered, which is what its device answers.
    pub fn answer(&self) -> Answer
        ensures answer { result ≡ self.now.answer }
        ensures by_kind { result ≡ answer_to self.now.run }
    {
        self.answer
    }

    /// Whether it is the answer of this run.
    pub fn is_for(&self, run: Run) -> bool
        ensures sound { IsTrue result → self.now.run ≡ run }
        ensures complete { self.now.run ≡ run → IsTrue result }
    {
        same_device(self.run.def, run.def) && same_run(self.run, run)
    }
}

/// Whether both are the same device.
fn same_device(first: DeviceDef, second: DeviceDef) -> bool
    ensures sound { IsTrue result → first ≡ second }
    ensures complete { first ≡ second → IsTrue result }
{
    first == second
}

/// Whether both runs of one device are the same.
fn same_run(first: Run, second: Run) -> bool
    ensures sound { IsTrue result → first.def ≡ second.def → first ≡ second }
    ensures complete { first ≡ second → IsTrue result }
{
    first.part == second.part && first.unserved == second.unserved && first.told == second.told
}
