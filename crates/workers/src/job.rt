//! What a worker does, and how it went.
use crate::post::Post;
use irq_base::Actor;
use irq_line::{IrqLine, StepRefused};
use std::marker::Model;

/// What a worker did in its part of a shift of threads, if no step was refused.
#[derive(Clone, Copy, PartialEq, Eq)]
pub(crate) enum Work {
    /// It made no step: its actor has nothing due on what it has seen.
    Idle,
    /// It made a step.
    Busy,
}

/// The work of one actor: its passes, and where it is.
#[derive(Drop)]
pub(crate) struct Job<L: IrqLine> {
    pub(crate) actor: Actor,
    /// The index of the line of its first pass. The passes are of this line and of the lines after
    /// it.
    pub(crate) first: usize,
    pub(crate) posts: Vec<Post<L>>,
    /// Of a processor: the pass with which it has a flow in progress.
    pub(crate) flow: Option<usize>,
    /// Of a processor: the pass with which it made its last step.
    pub(crate) last: usize,
    /// Of a driver: how many of the board's calls it is past.
    pub(crate) at: usize,
    /// How many attempts it has had in this run.
    pub(crate) attempts: u64,
    /// How many more steps it may make in this shift.
    pub(crate) left: u32,
    /// How its part of the last shift ended.
    pub(crate) end: Result<Work, StepRefused>,
}

impl<L: IrqLine> Model for Job<L> {
    ghost use Rattle.workers.specs.Seen.{JobSeen};

    ghost Value = { JobSeen };

    ghost view = { λ j. record {
      actor = j.actor;
      first = j.first;
      posts = j.posts.items;
      flow = j.flow;
      at = j.at;
      left = j.left;
      end = j.end;
    } };
}
