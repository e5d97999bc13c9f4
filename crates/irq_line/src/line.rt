//! The trait.
ghost use Rattle.std.specs.Prelude.{◌≡◌, ◌≤◌, ◌↔◌, IsTrue, Option, OnOk, OnErr};
ghost use Rattle.irq_base.specs.declared.entries.Entry.{Entry};
ghost use Rattle.callbacks.specs.Heard.{Heard};
ghost use Rattle.irq_line.specs.Answers.{Answers};
ghost use Rattle.irq_line.specs.Hearing.{Lacks, runs_by};
ghost use Rattle.irq_line.specs.Memory.{WantsMemory};
ghost use Rattle.irq_line.specs.Queries.{IsPresented, IsTaker, IsLowestThread, flow_of, blocks_of};
ghost use Rattle.irq_line.specs.Queries.{IsLowestHung, spins};
ghost use Rattle.irq_line.specs.Seen.{LineSeen, IsSound};

use crate::answers::{StepRefused, Stepped};
use callbacks::Hears;
use irq_base::{Actor, Blocks, CpuNo, DevNo, Entry, History, LineDef, NoMemory};

/// An interrupt line (`struct irq_desc`, `include/linux/irqdesc.h`). Contracts see what `seen`
/// makes of it: its definition, its entries, the oldest first, and how many more fit without
/// memory.
pub trait IrqLine: Drop {
    ghost seen: { Self → LineSeen };

    /// Whether a step may need memory though the history has room, if this entry is due of the
    /// actor; `None`: nothing is due.
    ghost may_want: { Option Entry → Type 0 };

    /// Adds the entry that is due of the actor, if there is one: one hold of the line's lock. If
    /// the entry ends a run of a handler, it says the answer that `ears` have for this run; they
    /// are asked once there is room for the entry, and for nothing else.
    ///
    /// # Errors
    ///
    /// `Full` if an entry is due and the history has the greatest length that the definition
    /// allows. `NoMemory` if memory was refused: a step needs none if the history has room, unless
    /// the line may want some for what is due. Nothing has changed then, and no handler was called.
    fn step<E: Hears>(
        &mut self,
        actor: Actor,
        ears: &mut E,
    ) -> Result<Stepped<E::Lack>, StepRefused>
        ensures def { (seen self.new).def ≡ (seen self.old).def }
        ensures answer { Answers (seen self.old) actor result (seen self.new) }
        ensures heard { Heard E.hears (runs_by (seen self.old) result) ears.old ears.new }
        ensures lacking { Lacks E.lacks (seen self.old) actor ears.old result }
        ensures memory { WantsMemory may_want (seen self.old) actor result };

    /// Makes room for one more entry. With room to spare it isn't refused; if it is refused, all is
    /// as before.
    fn reserve(&mut self) -> Result<(), NoMemory>
        ensures room { OnOk result (1 ≤ (seen self.new).spare) }
        ensures def { (seen self.new).def ≡ (seen self.old).def }
        ensures entries { (seen self.new).entries ≡ (seen self.old).entries }
        ensures grows { (seen self.old).spare ≤ (seen self.new).spare }
        ensures needed { OnErr result ((seen self.old).spare ≡ 0) }
        ensures refused { OnErr result (seen self.new ≡ seen self.old) };

    /// How many more entries fit without memory.
    fn spare(&self) -> usize
        ensures { result ≡ (seen self.now).spare };

    /// The definition that the line was made of.
    fn definition(&self) -> &LineDef
        ensures { result.now ≡ (seen self.now).def };

    /// The entries so far.
    fn history(&self) -> &History
        ensures entries { result.now.entries ≡ (seen self.now).entries }
        ensures spare { result.now.spare ≡ (seen self.now).spare };

    /// The entries so far; the line is given up.
    fn into_history(self) -> History
        ensures entries { result.entries ≡ (seen self).entries }
        ensures spare { result.spare ≡ (seen self).spare };

    /// What holds of every line at every moment: its definition is valid, each entry was due of its
    /// actor after the entries before it, and the history isn't longer than the definition allows.
    fn is_sound(&self)
        ensures { IsSound (seen self.now) };

    /// Whether a take of the processor is due. It takes no memory, as none of the queries does.
    fn present(&self, cpu: CpuNo) -> bool
        ensures { IsTrue result ↔ IsPresented (seen self.now) cpu };

    /// The processor of the flow in progress, if there is one.
    fn in_flow(&self) -> Option<CpuNo>
        ensures { result ≡ flow_of (seen self.now) };

    /// Whether the processor of the flow in progress has no entry due: a handler of it waits for
    /// the end of its own flow, so it spins for ever, and takes nothing on any line.
    fn spins(&self) -> bool
        ensures { result ≡ spins (seen self.now) };

    /// The one processor that has a take due, if there is one.
    fn taker(&self) -> Option<CpuNo>
        ensures { IsTaker (seen self.now) result };

    /// The lowest device by number whose thread has an entry due, if there is one.
    fn lowest_thread(&self) -> Option<DevNo>
        ensures { IsLowestThread (seen self.now) result };

    /// What drivers' calls wait for, as it stands.
    fn blocks(&self) -> Blocks
        ensures { result ≡ blocks_of (seen self.now) };

    /// The lowest actor that is hung, if there is one: it waits for itself, at once or through
    /// others. Threads come before processors before drivers. It may go over all devices.
    fn lowest_hung(&self) -> Option<Actor>
        ensures { IsLowestHung (seen self.now) result };
}
