//! The line.
ghost use Rattle.std.specs.Prelude.{◌≡◌, ◌+◌, ◌<◌, ◌≤◌, [], ◌∷◌, ◌++◌, length, IfOk, OnOk, OnErr};
ghost use Rattle.std.specs.Prelude.{IsTrue, Some, reverse};
ghost use Rattle.irq_model.specs.Legal.{IsDue};
ghost use Rattle.irq_model.specs.Valid.{IsValid};
ghost use Rattle.irq_model.specs.ValidRuns.{HasValidRuns};
ghost use Rattle.irq_line.specs.Room.{MakesRoom};
ghost use Rattle.plain_line.specs.Line.{IsPlain};
ghost use Rattle.plain_line.specs.Looked.{IsLooked};

use crate::looking::{Looked, look};
use crate::running::hear;
use callbacks::Hears;
use irq_base::{Actor, Blocks, CpuNo, DevNo, Entry, History, LineDef, NoMemory};
use irq_line::{IrqLine, StepRefused, Stepped};
use plain_next::{newest_first, next_past};
use std::alloc::Global;
use std::marker::Model;

/// A definition and a history; and the answers of all queries now, since a query can't take memory.
#[derive(Drop)]
pub struct PlainLine {
    alloc: Global,
    def: LineDef,
    history: History,
    looked: Looked,
}

impl Model for PlainLine {
    ghost use Rattle.std.specs.Prelude.{reverse};
    ghost use Rattle.irq_line.specs.Seen.{LineSeen};
    ghost use Rattle.plain_line.specs.Line.{IsPlain};

    ghost Value = { LineSeen };

    ghost view = { λ l. record {
      def = l.def;
      entries = l.history.entries;
      spare = l.history.spare;
    } };

    ghost invariant = { λ l. IsPlain l.def l.history.entries l.looked };
}

impl PlainLine {
    /// The line of this definition, to which nothing has happened. The only error is `NoMemory`.
    pub fn new(alloc: Global, def: &LineDef) -> Result<PlainLine, NoMemory>
        requires valid { IsValid def.now }
        requires runs { HasValidRuns def.now }
        ensures def { IfOk result (λ line. line.def ≡ def.now) }
        ensures empty { IfOk result (λ line. line.entries ≡ []) }
    {
        let looked = look(alloc, def, &[])?;
        let def = def.try_clone(alloc)?;
        let history = History::with_room(alloc, 0)?;
        Ok(PlainLine {
            alloc,
            def,
            history,
            looked,
        })
    }

    /// Makes room for the entry, which is due, and looks up what will hold after it. All memory
    /// that a step wants is taken here.
    #[tactic(auto, using(crate::proofs::Steps::legal_more, crate::proofs::Steps::few_more))]
    fn look_after(&mut self, past: &[Entry], entry: Entry) -> Result<Looked, NoMemory>
        requires past { past.now ≡ reverse self.old.entries }
        requires due { IsDue self.old.def entry past.now }
        requires below { length self.old.entries < self.old.def.log }
        ensures looked { IfOk result (IsLooked self.old.def (entry ∷ past.now)) }
        ensures room { OnOk result (MakesRoom self.old self.new) }
        ensures refused { OnErr result (self.new ≡ self.old) }
    {
        let more = with_newest(self.alloc, past, entry)?;
        let looked = look(self.alloc, &self.def, &more)?;
        if self.history.spare() == 0 {
            self.history.reserve(1)?;
        }
        Ok(looked)
    }

    /// Adds the entry, which is due, where there is room; `looked` is what holds after it.
    #[tactic(auto, using(crate::proofs::Steps::plain_more))]
    fn add(&mut self, entry: Entry, looked: Looked)
        requires due { IsDue self.old.def entry (reverse self.old.entries) }
        requires below { length self.old.entries < self.old.def.log }
        requires room { 1 ≤ self.old.spare }
        requires looked { IsLooked self.old.def (entry ∷ reverse self.old.entries) looked }
        ensures def { self.new.def ≡ self.old.def }
        ensures entries { self.new.entries ≡ self.old.entries ++ entry ∷ [] }
        ensures spare { self.old.spare ≤ self.new.spare + 1 }
    {
        self.history.push(entry);
        self.looked = looked;
    }
}

/// The entries with one more; the newest comes first.
fn with_newest(alloc: Global, past: &[Entry], entry: Entry) -> Result<Vec<Entry>, NoMemory>
    ensures { IfOk result (λ more. more.items ≡ entry ∷ past.now) }
{
    let mut more = vec![in alloc; entry]?;
    more.extend_from_slice(past)?;
    Ok(more)
}

/// Whether the taker is this processor.
fn is_that(taker: Option<CpuNo>, cpu: CpuNo) -> bool
    ensures sound { IsTrue result → taker ≡ Some cpu }
    ensures complete { taker ≡ Some cpu → IsTrue result }
{
    match taker {
        Some(taker) => taker == cpu,
        None => false,
    }
}

impl IrqLine for PlainLine {
    ghost seen = { λ l. l };

    // the history is copied at each step, so that memory may be refused even where nothing is due
    ghost may_want = { λ due. Unit {0} };

    #[tactic(auto, using(crate::proofs::Steps::due_there, crate::proofs::Steps::adds))]
    fn step<E: Hears>(
        &mut self,
        actor: Actor,
        ears: &mut E,
    ) -> Result<Stepped<E::Lack>, StepRefused> {
        let past = newest_first(self.alloc, &self.history)?;
        let Some(entry) = next_past(self.alloc, &self.def, &past, actor)? else {
            return Ok(Stepped::NotYet);
        };
        let len = self.history.len();
        if len >= self.def.log as usize {
            return Err(StepRefused::Full {
                line: self.def.line,
                len: len as u32,
            });
        }
        let looked = self.look_after(&past, entry)?;
        if let Err(lack) = hear(&self.def, &past, entry, ears) {
            return Ok(Stepped::Lacks(lack));
        }
        self.add(entry, looked);
        Ok(Stepped::Added(entry))
    }

    fn reserve(&mut self) -> Result<(), NoMemory> {
        if self.history.spare() == 0 {
            self.history.reserve(1)?;
        }
        Ok(())
    }

    fn spare(&self) -> usize {
        self.history.spare()
    }

    fn definition(&self) -> &LineDef {
        &self.def
    }

    fn history(&self) -> &History {
        &self.history
    }

    fn into_history(self) -> History {
        let PlainLine { history, .. } = self;
        history
    }

    fn is_sound(&self) {
        let _history = &self.history;
    }

    fn present(&self, cpu: CpuNo) -> bool {
        is_that(self.looked.taker, cpu)
    }

    fn in_flow(&self) -> Option<CpuNo> {
        self.looked.flow
    }

    fn spins(&self) -> bool {
        self.looked.spins
    }

    fn taker(&self) -> Option<CpuNo> {
        self.looked.taker
    }

    fn lowest_thread(&self) -> Option<DevNo> {
        self.looked.lowest
    }

    fn blocks(&self) -> Blocks {
        self.looked.blocks
    }

    fn lowest_hung(&self) -> Option<Actor> {
        self.looked.hung
    }
}
