//! What is asked of a reverse map.
ghost use Rattle.std.specs.Prelude.{◌≡◌, ℕ, ◌<◌, Option};
ghost use Rattle.revmap.specs.Answers.{IsAssociated, dispose_answer, after_associate};
ghost use Rattle.revmap.specs.Answers.{after_dispose, IsLowestFree};

/// What an association answers.
#[derive(Clone, Copy, Debug, PartialEq, Eq)]
pub enum AssocAnswer {
    /// The number is mapped now.
    Ok,
    /// The number is mapped already.
    Taken,
    /// The number isn't below the size of the linear map.
    OutOfRange,
    /// A tree's memory was needed and refused.
    NoMemory,
}

/// What giving up a number answers.
#[derive(Clone, Copy, Debug, PartialEq, Eq)]
pub enum DisposeAnswer {
    /// The number isn't mapped any more.
    Ok,
    /// The number wasn't mapped.
    NotThere,
}

/// A domain's reverse map. Contracts see the virq at each hardware number, and the size of a linear
/// map.
pub trait Revmap {
    /// The virq at each hardware number that is mapped.
    ghost at: { Self → ℕ → Option ℕ };

    /// The size of a linear map, which has the numbers below its size; none for a tree.
    ghost size: { Self → Option ℕ };

    /// Maps the hardware number to the virq, which is above 0 (`irq_domain_associate`,
    /// `kernel/irq/irqdomain.c`). A refusal changes nothing; a linear map never takes memory.
    fn associate(&mut self, virq: u32, hw: u32) -> AssocAnswer
        requires { 0 < virq }
        ensures answer { IsAssociated (size self.old) (at self.old hw) hw result }
        ensures map { (k : ℕ) → at self.new k ≡ after_associate result virq hw (at self.old) k }
        ensures size { size self.new ≡ size self.old };

    /// The virq at the hardware number; none if it isn't mapped (`__irq_resolve_mapping`,
    /// `kernel/irq/irqdomain.c`).
    fn resolve(&self, hw: u32) -> Option<u32>
        ensures { result ≡ at self.now hw };

    /// Gives up the hardware number (`irq_domain_clear_mapping`, `kernel/irq/irqdomain.c`).
    fn dispose(&mut self, hw: u32) -> DisposeAnswer
        ensures answer { result ≡ dispose_answer (at self.old hw) }
        ensures map { (k : ℕ) → at self.new k ≡ after_dispose hw (at self.old) k }
        ensures size { size self.new ≡ size self.old };

    /// The least hardware number, of 0 to 4,294,967,295, that isn't mapped; none if all are mapped.
    /// In a full linear map it is the size (ours).
    fn lowest_free(&self) -> Option<u32>
        ensures { IsLowestFree (at self.now) result };
}
