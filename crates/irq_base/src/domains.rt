//! The words of interrupt domains (`kernel/irq/irqdomain.c`).
ghost use Rattle.std.specs.Prelude.{◌≡◌, ℕ, ◌<◌, ◌≤◌, ◌==◌, [], ◌∷◌, ◌++◌, length, slice_get};

use std::marker::Model;

/// How a domain maps hardware numbers (`irq_domain_create_linear`, `irq_domain_create_tree`).
#[derive(Clone, Copy, PartialEq, Eq)]
pub enum MapKind {
    /// An array: the hardware numbers below its size, which is 1 to 1,024.
    Linear(u32),
    /// A tree: every hardware number.
    Tree,
}

/// What a level of interrupt controllers does with the signal (ours).
#[derive(Clone, Copy, PartialEq, Eq)]
pub enum ControllerKind {
    /// A root that presents edges, and stores an edge that comes while it is masked.
    Latch,
    /// A root that presents edges, and drops an edge that comes while it is masked.
    Plain,
    /// A root that presents levels.
    Level,
    /// A root that presents levels and needs an end of interrupt.
    Eoi,
    /// A child with a mask bit and a pending bit for each message.
    Msi,
    /// A child that passes everything on.
    Remap,
    /// A root that presents edges and can't mask: a vector of a processor.
    Vector,
    /// A root that presents edges, stores them, and is handled by the fast-EOI flow.
    Lpi,
    /// A root that presents edges, and stores an edge that comes while it is masked, but can't send
    /// one again: most GPIO controllers.
    Pin,
}

/// A domain (`struct irq_domain`).
#[derive(Clone, Copy, PartialEq, Eq)]
pub struct DomainDef {
    /// How it maps hardware numbers.
    pub map: MapKind,
    /// What its controllers do with the signal.
    pub kind: ControllerKind,
    /// The place of its parent, which stands before it among the domains; none for a root.
    pub parent: Option<usize>,
}

/// The most levels of a path.
pub const LEVELS: usize = 8;

/// The way of a line through its domains, leaf first: pairs of a domain's place and the hardware
/// number there, at most eight (`parent_data` of `struct irq_data`). Contracts see the list of the
/// pairs.
#[derive(Clone, Copy)]
pub struct Path {
    levels: [(usize, u32); LEVELS],
    len: usize,
}

impl Model for Path {
    ghost use Rattle.std.specs.Prelude.{ℕ, List};

    ghost Value = { List (ℕ × ℕ) };

    ghost use Rattle.irq_base.specs.PathLevels.{levels_of, IsPath, of_levels, of_levels_back};

    ghost view = { levels_of };

    ghost invariant = { IsPath };

    ghost inverse = { of_levels };

    ghost inverse_ok = { of_levels_back };
}

impl Path {
    /// The empty path.
    pub fn new() -> Path
        ensures { result ≡ [] }
    {
        Path {
            levels: [(0, 0); LEVELS],
            len: 0,
        }
    }

    /// Adds the pair at the end of a path of fewer than eight.
    pub fn push(&mut self, level: (usize, u32))
        requires { length self.old < 8 }
        ensures { self.new ≡ self.old ++ level ∷ [] }
    {
        self.levels[self.len] = level;
        self.len += 1;
    }

    /// The number of levels.
    pub fn len(&self) -> usize
        ensures { result ≡ length self.now }
    {
        self.len
    }

    /// Whether there are none.
    pub fn is_empty(&self) -> bool
        ensures { result ≡ (length self.now == 0) }
    {
        self.len == 0
    }

    /// The pair at index `place`; 0 is the leaf's; none from the path's length on.
    pub fn get(&self, place: usize) -> Option<(usize, u32)>
        ensures { result ≡ slice_get self.now place }
    {
        if place < self.len {
            Some(self.levels[place])
        } else {
            None
        }
    }
}
