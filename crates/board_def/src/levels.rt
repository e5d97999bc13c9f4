//! What the levels between a line and its processors make of its signal.
ghost use Rattle.std.specs.Prelude.{◌≡◌, ◌+◌, ◌<◌, ◌≤◌, None, Some, length, is_none, slice_get};
ghost use Rattle.std.specs.Prelude.{◌&&◌, if◌then◌else◌};
ghost use Rattle.board_def.specs.Unnamed.{defs_of};
ghost use Rattle.domain_rules.specs.Levels.{root_kind, masking_kind, is_some_kind, is_root_kind};
ghost use Rattle.domain_rules.specs.Levels.{masks_kind, keeps_kind, stores_at_root};
ghost use Rattle.domain_rules.specs.Levels.{retriggers_kind, presents_level_kind};
ghost use Rattle.domain_rules.specs.Levels.{trigger_of_root, flow_of_root};
ghost use Rattle.domain_rules.specs.Paths.{most_levels, way, kinds_from, kinds_on, kind_in};
ghost use Rattle.domain_rules.specs.Paths.{parent_in};
ghost use Rattle.irq_base.specs.declared.domains.ControllerKind.TheVariants.{Remap};

use crate::board::Board;
use irq_base::domains::LEVELS;
use irq_base::{ControllerKind, DomainDef, FlowKind, Path, Trigger};

/// Whether a level of this kind stands at the processors' end.
pub fn is_root(kind: ControllerKind) -> bool
    ensures { result ≡ is_root_kind kind }
{
    !matches!(kind, ControllerKind::Msi | ControllerKind::Remap)
}

/// Whether a level of this kind can mask.
pub fn masks(kind: ControllerKind) -> bool
    ensures { result ≡ masks_kind kind }
{
    !matches!(kind, ControllerKind::Remap | ControllerKind::Vector)
}

/// Whether a level of this kind stores the edges that come while it masks.
pub fn keeps(kind: ControllerKind) -> bool
    ensures { result ≡ keeps_kind kind }
{
    matches!(
        kind,
        ControllerKind::Latch | ControllerKind::Msi | ControllerKind::Lpi | ControllerKind::Pin
    )
}

/// Whether a level of this kind can send an edge again (`irq_retrigger` of `struct irq_chip`,
/// `include/linux/irq.h`).
pub fn retriggers(kind: ControllerKind) -> bool
    ensures { result ≡ retriggers_kind kind }
{
    matches!(
        kind,
        ControllerKind::Latch | ControllerKind::Vector | ControllerKind::Lpi
    )
}

/// Whether a level of this kind presents the level of its signal, and no edges.
pub fn presents_level(kind: ControllerKind) -> bool
    ensures { result ≡ presents_level_kind kind }
{
    matches!(kind, ControllerKind::Level | ControllerKind::Eoi)
}

/// What raises a line, by the kind of its root.
pub fn trigger_of(root: ControllerKind) -> Trigger
    ensures { result ≡ trigger_of_root root }
{
    match root {
        ControllerKind::Level | ControllerKind::Eoi => Trigger::Level,
        _ => Trigger::Edge,
    }
}

/// The flow handler of a line, by the kind of its root.
pub fn flow_of(root: ControllerKind) -> FlowKind
    ensures { result ≡ flow_of_root root }
{
    match root {
        ControllerKind::Level => FlowKind::Level,
        ControllerKind::Eoi | ControllerKind::Lpi => FlowKind::Eoi,
        _ => FlowKind::Edge,
    }
}

/// What is known of the levels passed so far, on the way from a device to the processors.
#[derive(Clone, Copy)]
pub struct Levels {
    /// The kind of the last level; in the end this is the root's.
    pub root: ControllerKind,
    /// The first level that can mask.
    pub masking: Option<ControllerKind>,
    /// How many levels were passed, at most eight.
    pub count: usize,
}

impl Levels {
    /// No level was passed.
    pub fn none() -> Levels
        ensures { result ≡ record { root = Remap; masking = None; count = 0 } }
    {
        Levels {
            root: ControllerKind::Remap,
            masking: None,
            count: 0,
        }
    }

    /// Passes one more level, after fewer than eight.
    pub fn pass(&mut self, kind: ControllerKind)
        requires { self.old.count < 8 }
        ensures { self.new ≡ record {
          root = kind;
          masking = if is_none self.old.masking && masks_kind kind then Some kind else
              self.old.masking;
          count = self.old.count + 1;
        } }
    {
        self.root = kind;
        if self.masking.is_none() && masks(kind) {
            self.masking = Some(kind);
        }
        self.count += 1;
    }

    /// Whether an edge that comes while the line is masked is stored.
    pub fn keeps(&self) -> bool
        ensures { result ≡ is_some_kind keeps_kind self.now.masking }
    {
        match self.masking {
            Some(kind) => keeps(kind),
            None => false,
        }
    }

    /// Whether masking takes back what was sent.
    pub fn recalls(&self) -> bool
        ensures { result ≡ is_some_kind stores_at_root self.now.masking }
    {
        match self.masking {
            Some(kind) => is_root(kind) && keeps(kind),
            None => false,
        }
    }
}

/// The kind of a domain; a domain that isn't there counts as one that passes everything on.
pub fn kind_of(def: Option<DomainDef>) -> ControllerKind
    ensures { result ≡ kind_in def }
{
    match def {
        Some(def) => def.kind,
        None => ControllerKind::Remap,
    }
}

/// The place of the parent; none for a root, or for a domain that isn't there.
pub fn parent_of(def: Option<DomainDef>) -> Option<usize>
    ensures { result ≡ parent_in def }
{
    def?.parent
}

/// The domain at index `place`, without its name; none from the number of domains on.
pub fn def_at(board: &Board, place: usize) -> Option<DomainDef>
    ensures { result ≡ slice_get (defs_of board.now.domains) place }
{
    Some(board.domain(place)?.def)
}

/// The levels from the domain at place `from` to its root.
pub fn levels_from(board: &Board, from: Option<usize>) -> Levels
    ensures root { result.root ≡ root_kind (kinds_from (defs_of board.now.domains) from) }
    ensures masking { result.masking ≡ masking_kind (kinds_from (defs_of board.now.domains) from) }
    ensures count { result.count ≡ length (way most_levels (defs_of board.now.domains) from) }
{
    let mut levels = Levels::none();
    let mut at = from;
    while levels.count < LEVELS {
        let Some(place) = at else {
            return levels;
        };
        let def = def_at(board, place);
        levels.pass(kind_of(def));
        at = parent_of(def);
    }
    levels
}
