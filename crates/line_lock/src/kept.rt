//! What a counted lock keeps.
ghost use Rattle.std.specs.Prelude.{◌≡◌, List, length};
ghost use Rattle.irq_base.specs.declared.entries.Entry.{Entry};
ghost use Rattle.irq_base.specs.declared.lines.LineDef.{LineDef};

use irq_base::LineDef;

/// A value with a definition and a history. It is moved at each hold, so it should be small: a line
/// is kept in a box.
pub trait Kept: Drop {
    ghost definition: { Self → LineDef };

    ghost entries: { Self → List Entry };

    /// The definition.
    fn definition(&self) -> &LineDef
        ensures { result.now ≡ definition self.now };

    /// How many entries there are.
    fn count(&self) -> usize
        ensures { result ≡ length (entries self.now) };
}
