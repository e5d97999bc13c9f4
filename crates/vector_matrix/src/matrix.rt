//! The matrix.
ghost use Rattle.std.specs.Prelude.{◌≡◌, ℕ, ◌+◌, ◌-◌, ◌<◌, ◌≤◌, true, false, ◌||◌, MatchBool};
ghost use Rattle.std.specs.Prelude.{IfOk, [], ◌∷◌, ◌++◌, length, slice_index};
ghost use Rattle.std.specs.Mem.Slots.{slots_items, slots_len, IsFull};
ghost use Rattle.vector_matrix.specs.Claims.{IsClaimOf, IsWhole, new_claim, gained, passed};
ghost use Rattle.vector_matrix.specs.Claims.{IfGot, Gains, FindsTaken};
ghost use Rattle.vector_matrix.specs.Steps.{has};
ghost use Rattle.vector_matrix.specs.Vectors.{vector_of, is_in, without, others_below};

use crate::claim::{Claim, ClaimAnswer};
use crate::steps::{HeldByOne, clear, join, set, split};
use crate::view::{Vector, View};
use atomic_table::{Closed, Table};
use irq_base::{CpuNo, NoMemory};
use std::alloc::Global;
use std::marker::Model;

/// The most processors, and the most vectors of each.
const CPUS: usize = 32;

/// The vectors of each processor. One claim holds a vector, or none does (`struct irq_matrix` of
/// `kernel/irq/matrix.c`). No call waits.
#[derive(Drop)]
pub struct Matrix {
    table: Table<u64, View, u32, HeldByOne, Global>,
    cpus: u32,
    vectors: u32,
}

impl Model for Matrix {
    ghost use Rattle.vector_matrix.specs.Claims.{MatrixSeen, IsMatrix};

    ghost Value = { MatrixSeen };

    ghost view = { λ m. record {
      table = m.table.shared.table_id;
      cpus = m.cpus;
      vectors = m.vectors;
    } };

    ghost invariant = { λ m. IsMatrix m.table.shared.table_id m.table.shared.key m.cpus m.vectors };
}

impl Matrix {
    /// A matrix of 1 to 32 processors with 1 to 64 vectors each, and the first claim, which
    /// holds none (`irq_alloc_matrix`). The only error is `NoMemory`.
    pub fn new(alloc: Global, cpus: u32, vectors: u32) -> Result<(Matrix, Claim), NoMemory>
        requires cpus { (1 ≤ cpus) × (cpus ≤ 32) }
        requires vectors { (1 ≤ vectors) × (vectors ≤ 64) }
        ensures size { IfOk result (λ r. (r.0.cpus ≡ cpus) × (r.0.vectors ≡ vectors)) }
        ensures claim { IfOk result (λ r. r.1 ≡ new_claim r.0.table true) }
    {
        let words = [0; CPUS];
        let (table, seat) = Table::of_words(alloc, &words[..cpus as usize], &cpus)?;
        Ok((
            Matrix {
                table,
                cpus,
                vectors,
            },
            Claim { seat },
        ))
    }

    /// Tries to get this vector.
    fn claim_one(&self, claim: &mut Claim, vector: Vector) -> bool
        requires claim { IsClaimOf self.now claim.old }
        requires cpu { vector.cpu.0 < self.now.cpus }
        requires number { vector.number < self.now.vectors }
        ensures { MatchBool result (Gains vector claim.old claim.new)
            (FindsTaken vector claim.old claim.new) }
    {
        !set(&self.table.shared, &mut claim.seat, vector)
    }

    /// Claims the lowest vector of the processor that nobody holds; each lower vector was held by
    /// somebody when it was looked at (`irq_matrix_alloc`, which finds the lowest by
    /// `matrix_alloc_area`).
    pub fn claim(&self, claim: &mut Claim, cpu: CpuNo) -> ClaimAnswer
        requires claim { IsClaimOf self.now claim.old }
        requires cpu { cpu.0 < self.now.cpus }
        // the vector that it got is one of the processor's, and this claim didn't hold it
        ensures got { IfGot result (λ n. (n < self.now.vectors)
            × (is_in (vector_of cpu n) claim.old.holds ≡ false)) }
        // it holds what it held and the vector that it got; it met the lower vectors that it
        // doesn't hold
        ensures claim { claim.new ≡ record claim.old {
          holds = claim.old.holds ++ gained cpu result;
          met = claim.old.met
              ++ others_below (passed self.now.vectors result) cpu claim.old.holds;
        } }
        // each lower vector, or each vector if it got none, it holds or met
        ensures passed { (u : ℕ) → u < passed self.now.vectors result
            → (is_in (vector_of cpu u) claim.new.holds || is_in (vector_of cpu u) claim.new.met)
            ≡ true }
        // if it is the only claim, it holds each of them: so it got the lowest that it doesn't hold
        ensures whole { IsWhole claim.old → (u : ℕ) → u < passed self.now.vectors result
            → is_in (vector_of cpu u) claim.old.holds ≡ true }
    {
        for number in 0..self.vectors {
            if self.claim_one(claim, Vector { cpu, number }) {
                return ClaimAnswer::Got(number);
            }
        }
        ClaimAnswer::Full
    }

    /// Gives back a vector that the only claim holds (`irq_matrix_free`).
    pub fn release(&self, claim: &mut Claim, cpu: CpuNo, vector: u32)
        requires claim { IsClaimOf self.now claim.old }
        requires whole { IsWhole claim.old }
        requires holds { is_in (vector_of cpu vector) claim.old.holds ≡ true }
        ensures { claim.new ≡ record claim.old {
          holds = without (vector_of cpu vector) claim.old.holds;
          met = without (vector_of cpu vector) claim.old.met;
        } }
    {
        let vector = Vector {
            cpu,
            number: vector,
        };
        clear(&self.table.shared, &mut claim.seat, vector);
    }

    /// A fork of the first claim, for another thread. It takes no memory.
    pub fn fork(&self, claim: &mut Claim) -> Claim
        requires claim { IsClaimOf self.now claim.old }
        requires first { claim.old.first ≡ true }
        ensures out { claim.new ≡ record claim.old { out = claim.old.out + 1 } }
        ensures fork { result ≡ new_claim self.now.table false }
    {
        let seat = split(&self.table.shared, &mut claim.seat);
        Claim { seat }
    }

    /// Takes in what a fork holds and met.
    pub fn meet(&self, claim: &mut Claim, other: Claim)
        requires claim { IsClaimOf self.now claim.old × IsClaimOf self.now other }
        requires first { claim.old.first ≡ true }
        requires fork { other.first ≡ false }
        ensures met { claim.new ≡ record claim.old {
          holds = claim.old.holds ++ other.holds;
          met = claim.old.met ++ other.met;
          out = claim.old.out - 1;
        } }
        // no vector was held by both
        ensures apart { (p : Vector) → is_in p claim.old.holds ≡ true
            → is_in p other.holds ≡ false }
    {
        let Claim { seat } = other;
        join(&self.table.shared, &mut claim.seat, seat);
    }

    /// Takes the matrix apart: a word for each of 32 processors, in which bit v is set exactly if
    /// the only claim holds the processor's vector v.
    pub fn finish(self, claim: Claim) -> [u64; 32]
        requires claim { IsClaimOf self claim }
        requires whole { IsWhole claim }
        ensures { (cpu : CpuNo) (v : ℕ) → cpu.0 < 32 → v < 64
            → has (slice_index result cpu.0) v ≡ is_in (vector_of cpu v) claim.holds }
    {
        let Matrix { table, cpus, .. } = self;
        let Claim { seat } = claim;
        let closed = table.close_with(seat);
        let words = words_of(&closed, cpus as usize);
        closed.free();
        words
    }
}

/// The words of a closed table; 0 for a processor without a word.
fn words_of(closed: &Closed<u64, Global>, count: usize) -> [u64; 32]
    requires few { count ≤ 32 }
    requires full { IsFull closed.now.words }
    requires count { (slots_len closed.now.words ≡ count)
        × (length (slots_items closed.now.words) ≡ count) }
    ensures { (c : ℕ) → c < 32
        → slice_index result c ≡ slice_index (slots_items closed.now.words) c }
{
    let mut words = [0; CPUS];
    for at in 0..count {
        words[at] = closed.word(at);
    }
    words
}
