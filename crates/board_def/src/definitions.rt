//! What a board says of its lines.
ghost use Rattle.std.specs.Prelude.{◌≡◌};
ghost use Rattle.board_def.specs.Rules.{is_bad_unlazy};
ghost use Rattle.board_def.specs.Unnamed.{defs_of};
ghost use Rattle.domain_rules.specs.Domains.{is_bad_parent};

use crate::board::Board;
use crate::levels::{is_root, levels_from, presents_level, trigger_of};
use irq_base::domains::LEVELS;
use irq_base::{ControllerKind, Trigger};

impl Board {
    /// Whether the rules forbid a domain of this kind with this parent, which is the place of one
    /// of the board's domains. A root has no parent, a child has one; messages are sent as edges; a
    /// path has at most eight levels.
    pub fn has_bad_parent(&self, kind: ControllerKind, parent: Option<usize>) -> bool
        ensures { result ≡ is_bad_parent (defs_of self.now.domains) kind parent }
    {
        if parent.is_none() {
            return !is_root(kind);
        }
        let levels = levels_from(self, parent);
        is_root(kind)
            || (kind == ControllerKind::Msi && presents_level(levels.root))
            || levels.count >= LEVELS
    }

    /// Whether a line at the domain may not be masked as soon as it is disabled: it is an edge
    /// line, and no level would store an edge that comes then.
    pub fn is_bad_unlazy(&self, domain: usize, unlazy: bool) -> bool
        ensures { result ≡ is_bad_unlazy (defs_of self.now.domains) domain unlazy }
    {
        let levels = levels_from(self, Some(domain));
        unlazy && trigger_of(levels.root) == Trigger::Edge && !levels.keeps()
    }
}
