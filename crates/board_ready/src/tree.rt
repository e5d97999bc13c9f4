//! The lowest of the lines' threads, by a tree over the lines.
ghost use Rattle.std.specs.Prelude.{◌≡◌, ℕ, ◌<◌, ◌==◌, None, if◌then◌else◌};
ghost use Rattle.board_ready.specs.Ready.{lower_of, thread_on};
ghost use Rattle.board_ready.specs.Sets.{leaf, lowest_in};

use crate::parts::{ReadyThread, is_same_thread};
use irq_base::DevNo;
use std::marker::Model;

/// How many lines it has room for.
const LINES: usize = 64;

/// A thread for each of 64 lines, and the lowest of each pair of neighbours, of each pair of pairs
/// and so on: node 1 is the lowest of all, the nodes 2 i and 2 i + 1 stand below node i, and the
/// line at place k has node 64 + k.
#[derive(Drop)]
pub struct ThreadTree {
    nodes: [Option<ReadyThread>; 128],
}

impl Model for ThreadTree {
    ghost use Rattle.std.specs.Prelude.{List, Option};
    ghost use Rattle.board_ready.specs.declared.parts.ReadyThread.{ReadyThread};

    ghost Value = { List (Option ReadyThread) };

    ghost use Rattle.board_ready.specs.Sets.{IsTree};

    ghost view = { λ t. t.nodes };

    ghost invariant = { λ t. IsTree t.nodes };
}

impl ThreadTree {
    /// No line has a thread.
    pub fn new() -> ThreadTree
        ensures { (k : ℕ) → k < 64 → leaf result k ≡ None }
    {
        ThreadTree { nodes: [None; 128] }
    }

    /// Replaces the line's thread. If it is the same, no other node is looked at.
    #[tactic(auto, using(crate::proofs::Trees::leaf_stands))]
    pub fn set(&mut self, line: usize, thread: Option<DevNo>)
        requires { line < 64 }
        ensures { (k : ℕ) → k < 64
            → leaf self.new k ≡ (if k == line then thread_on line thread else leaf self.old k) }
    {
        let thread = placed(line, thread);
        if !is_same_thread(self.nodes[LINES + line], thread) {
            self.put(line, thread);
        }
    }

    /// Puts the thread at the line's node, and joins the nodes above it.
    fn put(&mut self, line: usize, thread: Option<ReadyThread>)
        requires { line < 64 }
        ensures { (k : ℕ) → k < 64
            → leaf self.new k ≡ (if k == line then thread else leaf self.old k) }
    {
        let place = LINES + line;
        self.nodes[place] = thread;
        let mut node = place / 2;
        while node > 0 {
            self.nodes[node] = lower(self.nodes[2 * node], self.nodes[2 * node + 1]);
            node /= 2;
        }
    }

    /// The ready thread with the lowest device number; with equal numbers, that of the first line.
    pub fn first(&self) -> Option<ReadyThread>
        ensures { result ≡ lowest_in (leaf self.now) 0 64 }
    {
        self.nodes[1]
    }
}

/// The thread with its line, the one at place `line`.
fn placed(line: usize, thread: Option<DevNo>) -> Option<ReadyThread>
    ensures { result ≡ thread_on line thread }
{
    match thread {
        None => None,
        Some(dev) => Some(ReadyThread { line, dev }),
    }
}

/// The thread whose device has the lower number; with equal numbers, the first.
fn lower(first: Option<ReadyThread>, second: Option<ReadyThread>) -> Option<ReadyThread>
    ensures { result ≡ lower_of first second }
{
    match (first, second) {
        (None, _) => second,
        (Some(_), None) => first,
        (Some(a), Some(b)) => { if b.dev.0 < a.dev.0 { second } else { first } }
    }
}
