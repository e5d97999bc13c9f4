//! What passes know. No values of these types are made: they stand in contracts and in the lock's
//! rule.
use irq_base::{Actor, Entry, LineDef};
use std::collections::LinkedList;

/// An entry of the history with its place: how many entries stand before it.
pub struct Placed {
    pub place: u64,
    pub entry: Entry,
}

/// What a pass knows.
pub struct Known {
    /// The history, as it was when this pass, or a pass that it met, last looked: a beginning of
    /// the history now.
    pub seen: LinkedList<Entry>,
    /// The entries of its actor.
    pub mine: LinkedList<Placed>,
    /// None for a first pass.
    pub actor: Option<Actor>,
    /// For a first pass: the actors to which it gave passes.
    pub given: LinkedList<Actor>,
    /// For a first pass: the actors whose pass it hasn't met yet.
    pub out: LinkedList<Actor>,
    /// How many entries it found at each of its looks, at the last one first.
    pub looks: LinkedList<u64>,
}

/// A pass, as the lock's rule sees it.
pub struct View {
    pub def: LineDef,
    pub knows: Known,
    pub turn: bool,
    /// While it has the turn: the history of the value that it holds.
    pub held: LinkedList<Entry>,
    /// It was met, and is gone.
    pub spent: bool,
    /// What this pass and the pass that it met last knew before they met, until it learns what came
    /// of the meeting.
    pub last: Option<(Known, Known)>,
}
