//! What a worker passes before each of its attempts.
use irq_base::Actor;

/// What a worker passes before each of its attempts, with no lock held. An attempt is one try to
/// make its actor's next step, the call of a handler included.
pub trait Gate {
    /// Lets the actor pass to its attempt number `attempt` of this run, counted from 1.
    fn pass(&self, actor: Actor, attempt: u64);
}

/// Lets everyone pass at once.
#[derive(Clone, Copy)]
pub struct NoGate;

impl Gate for NoGate {
    fn pass(&self, _actor: Actor, _attempt: u64) {}
}
