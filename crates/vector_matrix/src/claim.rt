//! A claim.
ghost use Rattle.std.specs.Prelude.{◌≡◌, true};
ghost use Rattle.vector_matrix.specs.Claims.{IsWhole};
ghost use Rattle.vector_matrix.specs.Vectors.{is_in, IsEachOnce};

use crate::steps::Seated;
use crate::view::Vector;
use std::marker::Model;

/// What a try to claim a vector answers.
#[derive(Clone, Copy, Debug, PartialEq, Eq)]
pub enum ClaimAnswer {
    /// The claim got the processor's vector with this number.
    Got(u32),
    /// All vectors of the processor were taken (`-ENOSPC` of `irq_matrix_alloc`).
    Full,
}

/// What a thread claims vectors with. Contracts see which vectors it holds and which it found taken
/// (`met`); for the first claim of a matrix also how many of its forks it hasn't met yet (`out`).
/// It can be neither copied nor cloned. If a fork is dropped, the vectors that it holds stay taken,
/// and the first claim is never the only one again.
#[derive(Drop)]
pub struct Claim {
    pub(crate) seat: Seated,
}

impl Model for Claim {
    ghost use Rattle.vector_matrix.specs.Claims.{ClaimSeen, IsClaim, claim_seen};

    ghost Value = { ClaimSeen };

    ghost view = { λ c. claim_seen c.seat.table_id c.seat.me.0 };

    ghost invariant = { λ c. IsClaim c.seat.table_id.words c.seat.me };
}

impl Claim {
    /// What holds of every claim at every moment: it holds each vector once, and if it is the only
    /// one, it holds all that it met.
    pub fn is_known(&self)
        ensures once { IsEachOnce self.now.holds }
        ensures met { IsWhole self.now → (p : Vector) → is_in p self.now.met ≡ true
            → is_in p self.now.holds ≡ true }
    {
        let _seat = &self.seat;
    }
}
