//! The line.
ghost use Rattle.std.specs.Prelude.{◌≡◌, ◌≤◌, [], length, IfOk, OnOk, OnErr, IsTrue, Some, true};
ghost use Rattle.std.specs.Prelude.{false, reverse};
ghost use Rattle.irq_base.specs.Cell.{fresh_cell};
ghost use Rattle.irq_model.specs.Lines.{serves};
ghost use Rattle.irq_model.specs.Signal.{target};
ghost use Rattle.irq_model.specs.Up.{is_up};
ghost use Rattle.irq_model.specs.Valid.{IsValid};
ghost use Rattle.irq_model.specs.ValidRuns.{HasValidRuns};
ghost use Rattle.irq_laws.specs.Driven.{cell_after};
ghost use Rattle.callbacks.specs.Heard.{Heard};
ghost use Rattle.irq_line.specs.Answers.{Answers};
ghost use Rattle.irq_line.specs.Hearing.{Lacks, runs_by};
ghost use Rattle.irq_line.specs.Memory.{WantsMemory};
ghost use Rattle.line_core.specs.Blocking.{freed_in, blocks_by};
ghost use Rattle.line_core.specs.Room.{HasRoom, IsFullOf, RoomFor, links_next};

use crate::hanging::lowest_hung;
use crate::room::make_place;
use callbacks::Hears;
use irq_base::{Actor, Blocks, Chip, CpuNo, DevNo, History, LineDef, NoMemory};
use irq_line::{IrqLine, StepRefused, Stepped};
use line_scripts::Scripts;
use line_state::LineState;
use std::alloc::Global;
use std::marker::Model;

/// A line: its definition and its history, and beside them what the history makes of it, the state
/// of its parts and how far each driver is.
#[derive(Drop)]
pub struct Line<C: Chip> {
    pub(crate) def: LineDef,
    pub(crate) history: History,
    pub(crate) state: LineState<C>,
    pub(crate) scripts: Scripts,
}

impl<C: Chip> Model for Line<C> {
    ghost use Rattle.line_core.specs.Seen.{WiredSeen};
    ghost use Rattle.line_marks.specs.Line.{IsLine};
    ghost use Rattle.line_state.specs.Seen.{runs_seen};

    ghost Value = { WiredSeen };

    ghost view = { λ l. record {
      line = record {
        def = l.def;
        entries = l.history.entries;
        spare = l.history.spare;
      };
      wiring = l.state.fixed.wiring;
    } };

    ghost invariant = { λ l. IsLine l.def l.history.entries l.state.state l.scripts
        (runs_seen l.state) };
}

impl<C: Chip + Drop> Line<C> {
    /// The line of that definition over these chips, to which nothing has happened. The chips are
    /// those that the definition describes, masked and not active; they are aimed at the line's
    /// target. The only error is `NoMemory`.
    #[tactic(auto, using(crate::proofs::More::line_starts))]
    pub fn new(alloc: Global, def: &LineDef, chip: C) -> Result<Line<C>, NoMemory>
        requires valid { IsValid def.now }
        requires runs { HasValidRuns def.now }
        requires cell { C.cell chip
            ≡ fresh_cell def.now.trigger def.now.keeps def.now.recalls def.now.retriggers
            (serves def.now) }
        requires inactive { C.active chip ≡ false }
        ensures def { IfOk result (λ line. line.line.def ≡ def.now) }
        ensures empty { IfOk result (λ line. line.line.entries ≡ []) }
        ensures wiring { IfOk result (λ line. line.wiring ≡ C.wiring chip) }
    {
        // The state has the most parts: it is made last, so that no refusal has to drop it.
        let history = History::with_room(alloc, 0)?;
        let own = def.try_clone(alloc)?;
        let scripts = Scripts::new(alloc, &def.calls)?;
        let state = LineState::new(alloc, def, chip)?;
        Ok(Line {
            def: own,
            history,
            state,
            scripts,
        })
    }
}

impl<C: Chip> Line<C> {
    /// The chips. Their cell is the one that the entries drive, they are active exactly while the
    /// line is up, and they are aimed at the line's target.
    pub fn chip(&self) -> &C
        ensures cell { C.cell result.now
            ≡ cell_after self.now.line.def (reverse self.now.line.entries) }
        ensures active { C.active result.now ≡ is_up (reverse self.now.line.entries) }
        ensures aimed { target self.now.line.def (reverse self.now.line.entries)
            ≡ Some (record { 0 = C.aimed result.now }) }
        ensures wiring { C.wiring result.now ≡ self.now.wiring }
    {
        self.state.chip()
    }

    /// Whether the history has room for one more entry, and isn't as long as it may be.
    #[inline(always)]
    pub(crate) fn has_room(&self) -> bool
        ensures { IsTrue result → HasRoom self.now.line }
    {
        self.history.len() < self.def.log as usize && self.history.spare() > 0
    }

    /// Makes room for one more entry.
    ///
    /// # Errors
    ///
    /// `Full` if the history is as long as it may be, and `NoMemory`. Nothing has changed then.
    #[inline(always)]
    pub(crate) fn make_room(&mut self) -> Result<(), StepRefused>
        ensures room { RoomFor self.old.line result self.new.line }
        ensures wiring { self.new.wiring ≡ self.old.wiring }
    {
        if self.has_room() {
            return Ok(());
        }
        self.lengthen()
    }

    /// The same where no room is at hand.
    #[inline(never)]
    fn lengthen(&mut self) -> Result<(), StepRefused>
        ensures room { RoomFor self.old.line result self.new.line }
        ensures wiring { self.new.wiring ≡ self.old.wiring }
    {
        let len = self.history.len();
        if len >= self.def.log as usize {
            return Err(self.full(len));
        }
        if let Err(_refused) = make_place(&mut self.history) {
            return Err(StepRefused::NoMemory);
        }
        Ok(())
    }

    /// The history, of this length, is as long as it may be.
    pub(crate) fn full(&self, len: usize) -> StepRefused
        requires len { len ≡ length self.now.line.entries }
        requires log { self.now.line.def.log ≤ len }
        ensures { IsFullOf self.now.line result }
    {
        StepRefused::Full {
            line: self.def.line,
            len: len as u32,
        }
    }
}

/// The state is dropped, which has many parts.
fn give_up<C: Chip + Drop>(_state: LineState<C>) {}

/// Whether it is that processor.
fn is_that(taker: Option<CpuNo>, cpu: CpuNo) -> bool
    ensures sound { IsTrue result → taker ≡ Some cpu }
    ensures complete { taker ≡ Some cpu → IsTrue result }
{
    match taker {
        Some(taker) => taker == cpu,
        None => false,
    }
}

/// Whether the thread of the device that is being freed isn't at rest.
#[inline(always)]
fn freed_at_work<C: Chip>(state: &LineState<C>) -> bool
    ensures { result ≡ freed_in state.now.state.threads state.now.state.freeing }
{
    match state.freeing() {
        Some((_, dev)) => !state.is_at_rest(dev),
        None => false,
    }
}

/// What drivers' calls wait for, as the state says.
#[inline(always)]
fn blocks_by<C: Chip>(state: &LineState<C>) -> Blocks
    ensures { result ≡ blocks_by state.now.state }
{
    Blocks {
        flow: state.in_flow().is_some(),
        threads: state.active_threads() > 0,
        mutex: state.freeing().is_some(),
        freed: freed_at_work(state),
    }
}

impl<C: Chip + Drop> IrqLine for Line<C> {
    ghost seen = { λ l. l.line };

    ghost may_want = { λ due. links_next due ≡ true };

    #[inline(always)]
    fn step<E: Hears>(
        &mut self,
        actor: Actor,
        ears: &mut E,
    ) -> Result<Stepped<E::Lack>, StepRefused>
        ensures def { self.new.line.def ≡ self.old.line.def }
        ensures answer { Answers self.old.line actor result self.new.line }
        ensures heard { Heard E.hears (runs_by self.old.line result) ears.old ears.new }
        ensures lacking { Lacks E.lacks self.old.line actor ears.old result }
        ensures memory { WantsMemory (λ due. links_next due ≡ true) self.old.line actor result }
        ensures wiring { self.new.wiring ≡ self.old.wiring }
    {
        match actor {
            Actor::Cpu(cpu) => self.step_of_cpu(cpu, ears),
            Actor::Thread(dev) => self.step_of_thread(dev, ears),
            Actor::Driver(driver) => self.step_of_driver(driver),
        }
    }

    fn reserve(&mut self) -> Result<(), NoMemory>
        ensures room { OnOk result (1 ≤ self.new.line.spare) }
        ensures def { self.new.line.def ≡ self.old.line.def }
        ensures entries { self.new.line.entries ≡ self.old.line.entries }
        ensures grows { self.old.line.spare ≤ self.new.line.spare }
        ensures needed { OnErr result (self.old.line.spare ≡ 0) }
        ensures refused { OnErr result (self.new.line ≡ self.old.line) }
        ensures wiring { self.new.wiring ≡ self.old.wiring }
    {
        make_place(&mut self.history)
    }

    fn spare(&self) -> usize {
        self.history.spare()
    }

    fn definition(&self) -> &LineDef {
        &self.def
    }

    fn history(&self) -> &History {
        &self.history
    }

    fn into_history(self) -> History {
        let Line { history, state, .. } = self;
        give_up(state);
        history
    }

    #[tactic(auto, using(crate::proofs::Asked::sound))]
    fn is_sound(&self) {
        let _history = &self.history;
    }

    fn present(&self, cpu: CpuNo) -> bool {
        is_that(self.state.taker(), cpu)
    }

    fn in_flow(&self) -> Option<CpuNo> {
        self.state.in_flow()
    }

    #[inline(always)]
    fn spins(&self) -> bool {
        self.state.spins()
    }

    #[inline(always)]
    fn taker(&self) -> Option<CpuNo> {
        self.state.taker()
    }

    #[inline(always)]
    fn lowest_thread(&self) -> Option<DevNo> {
        self.state.lowest_thread()
    }

    #[inline(always)]
    fn blocks(&self) -> Blocks {
        blocks_by(&self.state)
    }

    fn lowest_hung(&self) -> Option<Actor> {
        lowest_hung(&self.state, &self.scripts)
    }
}
