//! The root of a path, and which of its levels masks.
ghost use Rattle.std.specs.Prelude.{◌≡◌, true, false};
ghost use Rattle.domain_chain.specs.Chains.{root_cell};
ghost use Rattle.domain_rules.specs.Domains.{is_msi};
ghost use Rattle.domain_rules.specs.Levels.{is_root_kind, is_some_kind, masking_kind};

use chip_kinds::{ChipKind, Eoi, Latch, Level, Lpi, Pin, Plain};
use irq_base::{Chip, ControllerKind, Trigger};
use line_cell::{Cell, CellMarks};

/// A root of this kind, to which nothing has been done. A vector can't mask by itself; a level
/// before it masks.
pub(crate) fn root_of(kind: ControllerKind) -> Cell
    requires { is_root_kind kind ≡ true }
    ensures cell { ⟦<Cell as Chip>⟧.cell result ≡ root_cell kind }
    ensures active { ⟦<Cell as Chip>⟧.active result ≡ false }
    ensures aimed { ⟦<Cell as Chip>⟧.aimed result ≡ 0 }
{
    match kind {
        ControllerKind::Latch => Latch::chip(),
        ControllerKind::Pin => Pin::chip(),
        ControllerKind::Plain => Plain::chip(),
        ControllerKind::Level => Level::chip(),
        ControllerKind::Eoi => Eoi::chip(),
        ControllerKind::Lpi => Lpi::chip(),
        ControllerKind::Vector | ControllerKind::Msi | ControllerKind::Remap => {
            Cell::new(Trigger::Edge, false, false, true, false)
        }
    }
}

/// The root behind a level of messages: that level masks in its place, so its own mask is open
/// from the start, also while it isn't active.
pub(crate) fn opened(root: Cell) -> Cell
    ensures cell { ⟦<Cell as Chip>⟧.cell result
        ≡ record (⟦<Cell as Chip>⟧.cell root) { masked = false } }
    ensures active { ⟦<Cell as Chip>⟧.active result ≡ ⟦<Cell as Chip>⟧.active root }
    ensures aimed { ⟦<Cell as Chip>⟧.aimed result ≡ ⟦<Cell as Chip>⟧.aimed root }
{
    Cell::of_marks(CellMarks {
        masked: false,
        ..root.marks()
    })
}

/// Whether the first level that can mask, counted from the device, is one of messages.
pub(crate) fn masks_by_message(kinds: &[ControllerKind]) -> bool
    ensures { result ≡ is_some_kind is_msi (masking_kind kinds.now) }
{
    for kind in kinds {
        match kind {
            ControllerKind::Msi => return true,
            ControllerKind::Remap | ControllerKind::Vector => (),
            _ => return false,
        }
    }
    false
}
