//! Interrupts that wait without a signal.
ghost use Rattle.std.specs.Prelude.{◌≡◌};
ghost use Rattle.irq_model.specs.Waiting.{is_pending, is_soft};

use crate::entry_tests::EntryTest;
use crate::places::stands;
use irq_base::{Entry, LineDef};

/// An interrupt is pending (`IRQS_PENDING`).
#[tactic(auto, unfolding(crate::specs::Passes::passes))]
pub fn is_pending(def: &LineDef, past: &[Entry]) -> bool
    ensures { result ≡ is_pending def.now past.now }
{
    stands(
        past,
        EntryTest::SetsPending(def.trigger),
        EntryTest::ClearsPending,
    )
}

/// A start asked for a software resend, and no take by resend came since.
#[tactic(auto, unfolding(crate::specs::Passes::passes))]
pub fn is_soft(past: &[Entry]) -> bool
    ensures { result ≡ is_soft past.now }
{
    stands(past, EntryTest::SoftStart, EntryTest::ResendTake)
}
