//! The two parts of a handler.
ghost use Rattle.std.specs.Prelude.{◌≡◌};
ghost use Rattle.irq_model.specs.Lines.{same_part};

use irq_base::Part;

/// Whether both are the same part.
pub fn same_part(first: Part, second: Part) -> bool
    ensures { result ≡ same_part first second }
{
    matches!(
        (first, second),
        (Part::Primary, Part::Primary) | (Part::Thread, Part::Thread)
    )
}
