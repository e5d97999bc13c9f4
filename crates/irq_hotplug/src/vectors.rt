//! The vectors that the lines hold.
ghost use Rattle.std.specs.Prelude.{◌≡◌, ℕ, ◌<◌, ◌≤◌, ◌++◌, [], true, false, None, IfOk, length};
ghost use Rattle.std.specs.Prelude.{slice_index, option_to_list, if◌then◌else◌};
ghost use Rattle.vector_matrix.specs.Vectors.{is_in, without, vector_of, IsEachOnce};
ghost use Rattle.vector_matrix.specs.Steps.{has};
ghost use Rattle.irq_hotplug.specs.Placing.{lowest_free, first_free, is_asked, is_online};
ghost use Rattle.irq_hotplug.specs.Placing.{place_for};
ghost use Rattle.irq_hotplug.specs.Held.{held_in};
ghost use Rattle.irq_model.specs.Lines.{is_in_mask};
ghost use Rattle.irq_base.specs.declared.numbers.CpuNo.{CpuNo};

use irq_base::{CpuNo, NoMemory};
use std::alloc::Global;
use std::marker::Model;
use vector_matrix::{Claim, ClaimAnswer, Matrix, Vector};

/// The vectors of all processors, with the only claim on them. Contracts see which are held.
#[derive(Drop)]
pub struct Vectors {
    matrix: Matrix,
    claim: Claim,
    cpus: u32,
    vectors: u32,
}

impl Model for Vectors {
    ghost use Rattle.irq_hotplug.specs.Held.{HeldSeen, IsHeldBy};

    ghost Value = { HeldSeen };

    ghost view = { λ h. record { cpus = h.cpus; vectors = h.vectors; held = h.claim.holds } };

    ghost invariant = { λ h. IsHeldBy h.matrix h.claim h.cpus h.vectors };
}

impl Vectors {
    /// The vectors of 1 to 32 processors, 1 to 64 of each; none is held. The only error is
    /// `NoMemory`.
    pub fn new(alloc: Global, cpus: u32, vectors: u32) -> Result<Vectors, NoMemory>
        requires cpus { (1 ≤ cpus) × (cpus ≤ 32) }
        requires vectors { (1 ≤ vectors) × (vectors ≤ 64) }
        ensures { IfOk result (λ h. h ≡ record { cpus = cpus; vectors = vectors; held = [] }) }
    {
        let (matrix, claim) = Matrix::new(alloc, cpus, vectors)?;
        Ok(Vectors {
            matrix,
            claim,
            cpus,
            vectors,
        })
    }

    /// Takes the lowest vector of the processor that isn't held; none if all are.
    #[tactic(auto, using(crate::proofs::Lowest::none_free, crate::proofs::Lowest::lowest_is))]
    fn take_on(&mut self, cpu: CpuNo) -> Option<Vector>
        requires { cpu.0 < self.old.cpus }
        ensures found { result ≡ lowest_free (held_in self.old) cpu.0 self.old.vectors }
        ensures held { self.new ≡ record self.old {
          held = self.old.held ++ option_to_list result;
        } }
    {
        match self.matrix.claim(&mut self.claim, cpu) {
            ClaimAnswer::Got(number) => Some(Vector { cpu, number }),
            ClaimAnswer::Full => None,
        }
    }

    /// As `take_on`, if the processor is asked; else nothing.
    fn take_if(&mut self, asked: bool, cpu: CpuNo) -> Option<Vector>
        requires { cpu.0 < self.old.cpus }
        ensures found { result
            ≡ (if asked then lowest_free (held_in self.old) cpu.0 self.old.vectors else None) }
        ensures held { self.new ≡ record self.old {
          held = self.old.held ++ option_to_list result;
        } }
    {
        if asked { self.take_on(cpu) } else { None }
    }

    /// Takes the first free vector of the online processors in the mask; with `inside` false, of
    /// those outside of it.
    fn take_among(&mut self, online: &[bool], mask: u32, inside: bool) -> Option<Vector>
        requires same { length online.now ≡ self.old.cpus }
        requires few { length online.now ≤ 32 }
        ensures found { result ≡ first_free (held_in self.old) self.old.vectors
            (is_asked online.now mask inside) (length online.now) }
        ensures held { self.new ≡ record self.old {
          held = self.old.held ++ option_to_list result;
        } }
    {
        for i in 0..online.len() {
            let asked = is_asked(online, mask, inside, i);
            if let Some(vector) = self.take_if(asked, CpuNo(i as u32)) {
                return Some(vector);
            }
        }
        None
    }

    /// Takes the vector that a line with this mask gets; none if all vectors of all online
    /// processors are held.
    pub fn take_for(&mut self, online: &[bool], mask: u32) -> Option<Vector>
        requires same { length online.now ≡ self.old.cpus }
        requires few { length online.now ≤ 32 }
        ensures found { result ≡ place_for (held_in self.old) self.old.vectors online.now mask }
        ensures held { self.new ≡ record self.old {
          held = self.old.held ++ option_to_list result;
        } }
    {
        match self.take_among(online, mask, true) {
            Some(vector) => Some(vector),
            None => self.take_among(online, mask, false),
        }
    }

    /// Gives back a vector that is held.
    pub fn give_back(&mut self, vector: Vector)
        requires { is_in vector self.old.held ≡ true }
        ensures { self.new ≡ record self.old { held = without vector self.old.held } }
    {
        self.matrix
            .release(&mut self.claim, vector.cpu, vector.number);
    }

    /// No vector is held twice.
    pub fn is_each_once(&self)
        ensures { IsEachOnce self.now.held }
    {
        self.claim.is_known();
    }

    /// A word for each of 32 processors, in which bit v is set exactly if the processor's vector v
    /// is held.
    pub fn finish(self) -> [u64; 32]
        ensures { (cpu : CpuNo) (v : ℕ) → cpu.0 < 32 → v < 64
            → has (slice_index result cpu.0) v ≡ is_in (vector_of cpu v) self.held }
    {
        let Vectors { matrix, claim, .. } = self;
        matrix.finish(claim)
    }
}

/// Whether the processor is asked: it is online, and in the mask or, with `inside` false, not.
fn is_asked(online: &[bool], mask: u32, inside: bool, cpu: usize) -> bool
    requires within { cpu < length online.now }
    requires few { length online.now ≤ 32 }
    ensures { result ≡ is_asked online.now mask inside cpu }
{
    let in_mask = (mask >> cpu) & 1 == 1;
    if inside {
        online[cpu] && in_mask
    } else {
        online[cpu] && !in_mask
    }
}
