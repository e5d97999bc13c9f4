//! The demultiplexer.
ghost use Rattle.std.specs.Prelude.{◌≡◌, ◌<◌, true, IfOk, IsSome, IsTrue, List, [], None, Some};
ghost use Rattle.std.specs.Prelude.{reverse, slice_get};
ghost use Rattle.irq_base.specs.declared.entries.Actor.{Actor};
ghost use Rattle.irq_base.specs.declared.entries.Actor.TheVariants as actors;
ghost use Rattle.callbacks.specs.Heard.{Heard};
ghost use Rattle.board_def.specs.Layout.{layout_of};
ghost use Rattle.board_def.specs.Rules.{IsBoard};
ghost use Rattle.board_play.specs.Kept.{AreKept};
ghost use Rattle.board_play.specs.Order.{due_on, flow_line};
ghost use Rattle.board_core.specs.Firsts.{is_take_due, number_of};
ghost use Rattle.board_core.specs.Hung.{SaysEnd, stop_of};
ghost use Rattle.board_core.specs.Making.{MakesAll};
ghost use Rattle.board_core.specs.Seen.{board_lines};
ghost use Rattle.irq_chained.specs.Chain.{IsChainLegal, child, cpu_0, lines_in, open_status};
ghost use Rattle.irq_chained.specs.Chain.{or_step};
ghost use Rattle.irq_chained.specs.Fits.{is_for_chain};
ghost use Rattle.irq_chained.specs.Parent.{parent_cell};
ghost use Rattle.irq_chained.specs.Runs.{runs_by_turn, runs_in};
ghost use Rattle.irq_chained.specs.Turned.{IsOther, IsPlay, IsUnderway, TurnsBy};
ghost use Rattle.irq_chained.specs.Turned.{lowest_driver_of, lowest_of, next_of, turn_of};
ghost use Rattle.irq_chained.specs.Walk.{IsWalkOf};
ghost use Rattle.irq_chained.specs.Wanted.{DueWants, PlayWants, Wants, child_for};
ghost use Rattle.irq_chained.specs.declared.chain.ChainEntry.TheVariants as steps;

use crate::chain::{ChainEntry, ChainTurn};
use crate::marks::{Mark, Marked, Walk};
use crate::parent::ParentInput;
use crate::status::{CPU_0, first_left, number_at, read_status, show, walk_after};
use crate::walking::ChainWalk;
use board_core::{PlayEnd, System, Turn};
use board_def::{Board, Layout};
use callbacks::Handler;
use irq_base::{Actor, LineNo, NoMemory};
use irq_line::{IrqLine, MakesLine, StepRefused};
use std::alloc::Global;
use std::marker::Model;

/// The lines of a board that take part, behind one input of a parent, with the steps that were
/// made.
#[derive(Drop)]
pub struct Demux<'b, L: IrqLine> {
    system: System<'b, L>,
    parent: ParentInput,
    walk: Option<Walk>,
    marks: Vec<Mark>,
}

impl<'b, L: IrqLine> Model for Demux<'b, L> {
    ghost use Rattle.irq_chained.specs.Seen.{DemuxSeen, IsDemux, seen_of};

    ghost Value = { DemuxSeen };

    ghost view = { λ d. seen_of d.system d.marks.items d.parent };

    ghost invariant = { λ d. IsDemux d.system d.marks.items d.walk d.parent };
}

impl<'b, L: IrqLine> Demux<'b, L> {
    /// The demultiplexer of the board's lines, to which nothing has happened: the maker makes each
    /// line that takes part. The only error is `NoMemory`.
    pub fn new<M: MakesLine<L>>(
        alloc: Global,
        board: &'b Board,
        layout: Layout,
        maker: &M,
    ) -> Result<Demux<'b, L>, NoMemory>
        requires fits { is_for_chain board.now ≡ true }
        requires layout { layout ≡ layout_of board.now }
        requires makes { MakesAll (M.makes maker.now) board.now (layout_of board.now) }
        ensures board { IfOk result (λ d. d.board ≡ board.now) }
        ensures layout { IfOk result (λ d. d.layout ≡ layout) }
        ensures fresh { IfOk result (λ d. d.log ≡ []) }
    {
        let system = System::new(alloc, board, layout, maker)?;
        board.is_board();
        let mut parent = ParentInput::new();
        show(&mut parent, &system);
        Ok(Demux {
            system,
            parent,
            walk: None,
            marks: Vec::new(alloc),
        })
    }

    /// What holds of every demultiplexer: each step was the next one of its actor; the lines are as
    /// the children's entries left them, each history is legal, and the drivers' calls are made in
    /// the order of their scripts; the parent is as the steps left it.
    pub fn is_kept(&self)
        ensures board { IsBoard self.now.board }
        ensures fits { is_for_chain self.now.board ≡ true }
        ensures legal { IsChainLegal self.now.board (reverse self.now.log) }
        ensures lines { board_lines self.now.lines
            ≡ lines_in self.now.board (reverse self.now.log) }
        ensures kept { AreKept self.now.board (board_lines self.now.lines) }
        ensures parent { self.now.parent ≡ parent_cell self.now.board (reverse self.now.log) }
    {
        self.system.is_kept();
        self.system.board().is_board();
    }

    /// The board's layout.
    pub fn layout(&self) -> &Layout
        ensures { result.now ≡ self.now.layout }
    {
        self.system.layout()
    }

    /// The steps, from the first one on. It takes no memory, and the same time however many there
    /// are.
    pub fn steps(&self) -> ChainWalk<'_, L>
        ensures { result ≡ self.now.log }
    {
        ChainWalk::new(
            self.marks.as_slice(),
            self.system.moves(),
            self.system.log_len(),
        )
    }

    /// How a play ended that stopped so: where nobody can move, whether somebody hangs.
    pub fn end_after(&self, stop: Result<(), StepRefused>) -> Result<PlayEnd, StepRefused>
        ensures stop { stop_of result ≡ stop }
        ensures says { SaysEnd (board_lines self.now.lines) result }
    {
        self.system.end_after(stop)
    }

    /// The system of the children, as they stand, without the demultiplexer.
    pub fn into_system(self) -> System<'b, L>
        ensures board { result.board ≡ self.entry.board }
        ensures layout { result.layout ≡ self.entry.layout }
        ensures lines { result.lines ≡ self.entry.lines }
    {
        let Demux { system, .. } = self;
        system
    }

    /// One step of the actor, if it has one. If the step ends a run of a handler, that handler is
    /// called. It takes the same time however many children and entries there are. If the step is
    /// refused, nothing changes.
    pub fn turn<H: Handler>(
        &mut self,
        actor: Actor,
        handlers: &mut H,
    ) -> Result<ChainTurn, StepRefused>
        ensures turns { TurnsBy self.old (next_of self.old actor) result self.new }
        ensures heard { Heard H.hears (runs_by_turn self.old result) handlers.old handlers.new }
        ensures memory { Wants L.may_want self.old actor result }
    {
        match actor {
            Actor::Cpu(cpu) => {
                if cpu.0 == 0 {
                    self.turn_cpu_0(handlers)
                } else {
                    Ok(ChainTurn::NotYet)
                }
            }
            Actor::Thread(_) => self.turn_other(actor, handlers),
            Actor::Driver(_) => self.turn_other(actor, handlers),
        }
    }

    /// A step of a thread or a driver.
    fn turn_other<H: Handler>(
        &mut self,
        actor: Actor,
        handlers: &mut H,
    ) -> Result<ChainTurn, StepRefused>
        requires { IsOther actor }
        ensures turns { TurnsBy self.old (next_of self.old actor) result self.new }
        ensures heard { Heard H.hears (runs_by_turn self.old result) handlers.old handlers.new }
        ensures memory { Wants L.may_want self.old actor result }
    {
        self.is_kept();
        let turn = self.system.turn(actor, handlers);
        show(&mut self.parent, &self.system);
        chain_turn_of(turn)
    }

    /// A step of processor 0.
    fn turn_cpu_0<H: Handler>(&mut self, handlers: &mut H) -> Result<ChainTurn, StepRefused>
        ensures turns { TurnsBy self.old (next_of self.old (actors.Cpu cpu_0)) result self.new }
        ensures heard { Heard H.hears (runs_by_turn self.old result) handlers.old handlers.new }
        ensures memory { Wants L.may_want self.old (actors.Cpu cpu_0) result }
    {
        match self.walk {
            None => self.enter(),
            Some(walk) => match self.system.flow_line(CPU_0) {
                Some(line) => self.go_on(line, handlers),
                None => self.walk_on(walk, handlers),
            },
        }
    }

    /// Enters a chain, if some child has a take due.
    fn enter(&mut self) -> Result<ChainTurn, StepRefused>
        requires { open_status (reverse self.old.log) ≡ None }
        ensures turns { TurnsBy self.old (next_of self.old (actors.Cpu cpu_0)) result self.new }
        ensures unheard { runs_by_turn self.old result ≡ [] }
        ensures memory { Wants L.may_want self.old (actors.Cpu cpu_0) result }
    {
        self.is_kept();
        let status = read_status(&self.system);
        if status == 0 {
            return Ok(ChainTurn::NotYet);
        }
        let mark = Mark {
            before: self.system.log_len(),
            what: Marked::Enter { status },
        };
        match self.marks.push(mark) {
            Err(_) => Err(StepRefused::NoMemory),
            Ok(()) => {
                self.parent.enter();
                self.walk = Some(Walk { status, taken: 0 });
                Ok(ChainTurn::Moved(ChainEntry::Enter { cpu: CPU_0, status }))
            }
        }
    }

    /// A further step of the flow that processor 0 has on this line, unless it spins there.
    fn go_on<H: Handler>(
        &mut self,
        line: LineNo,
        handlers: &mut H,
    ) -> Result<ChainTurn, StepRefused>
        requires open { IsSome (open_status (reverse self.old.log)) }
        requires flow { number_of (flow_line (board_lines self.old.lines) cpu_0) ≡ Some line }
        ensures turns { TurnsBy self.old (next_of self.old (actors.Cpu cpu_0)) result self.new }
        ensures heard { Heard H.hears (runs_by_turn self.old result) handlers.old handlers.new }
        ensures memory { Wants L.may_want self.old (actors.Cpu cpu_0) result }
    {
        self.is_kept();
        if !self.system.can_cpu_move(CPU_0) {
            return Ok(ChainTurn::NotYet);
        }
        let turn = self.system.step_on(line, Actor::Cpu(CPU_0), handlers);
        show(&mut self.parent, &self.system);
        chain_turn_of(turn)
    }

    /// Takes the first child of the status that is left, or leaves the chain.
    fn walk_on<H: Handler>(
        &mut self,
        walk: Walk,
        handlers: &mut H,
    ) -> Result<ChainTurn, StepRefused>
        requires walk { IsWalkOf (board_lines self.old.lines) (reverse self.old.log) (Some walk) }
        requires no_flow { flow_line (board_lines self.old.lines) cpu_0 ≡ None }
        ensures turns { TurnsBy self.old (next_of self.old (actors.Cpu cpu_0)) result self.new }
        ensures heard { Heard H.hears (runs_by_turn self.old result) handlers.old handlers.new }
        ensures memory { Wants L.may_want self.old (actors.Cpu cpu_0) result }
    {
        self.is_kept();
        let due = read_status(&self.system);
        match first_left(walk.status, walk.taken, due) {
            Some(place) => self.take(place, walk, handlers),
            None => self.exit(),
        }
    }

    /// Takes the child at this place.
    fn take<H: Handler>(
        &mut self,
        place: usize,
        walk: Walk,
        handlers: &mut H,
    ) -> Result<ChainTurn, StepRefused>
        requires walk { IsWalkOf (board_lines self.old.lines) (reverse self.old.log) (Some walk) }
        requires no_flow { flow_line (board_lines self.old.lines) cpu_0 ≡ None }
        requires place { place < 32 }
        requires due { IsTrue (is_take_due cpu_0
            (slice_get (board_lines self.old.lines) place)) }
        requires next { next_of self.old (actors.Cpu cpu_0)
            ≡ child (due_on (slice_get (board_lines self.old.lines) place) (actors.Cpu cpu_0)) }
        requires line { child_for self.old.board (reverse self.old.log) (actors.Cpu cpu_0)
            ≡ slice_get (board_lines self.old.lines) place }
        ensures turns { TurnsBy self.old (next_of self.old (actors.Cpu cpu_0)) result self.new }
        ensures heard { Heard H.hears (runs_by_turn self.old result) handlers.old handlers.new }
        ensures memory { Wants L.may_want self.old (actors.Cpu cpu_0) result }
    {
        self.is_kept();
        let line = number_at(&self.system, place);
        let turn = self.system.step_on(line, Actor::Cpu(CPU_0), handlers);
        self.walk = Some(walk_after(walk, place, turn));
        show(&mut self.parent, &self.system);
        chain_turn_of(turn)
    }

    /// Leaves the chain.
    fn exit(&mut self) -> Result<ChainTurn, StepRefused>
        requires { next_of self.old (actors.Cpu cpu_0) ≡ Some (steps.Exit cpu_0) }
        ensures turns { TurnsBy self.old (next_of self.old (actors.Cpu cpu_0)) result self.new }
        ensures unheard { runs_by_turn self.old result ≡ [] }
        ensures memory { Wants L.may_want self.old (actors.Cpu cpu_0) result }
    {
        self.is_kept();
        let mark = Mark {
            before: self.system.log_len(),
            what: Marked::Exit,
        };
        match self.marks.push(mark) {
            Err(_) => Err(StepRefused::NoMemory),
            Ok(()) => {
                self.parent.exit();
                self.walk = None;
                Ok(ChainTurn::Moved(ChainEntry::Exit { cpu: CPU_0 }))
            }
        }
    }

    /// One step of the lowest actor that has one; `NotYet` if none has.
    fn turn_lowest<H: Handler>(&mut self, handlers: &mut H) -> Result<ChainTurn, StepRefused>
        ensures turns { TurnsBy self.old (lowest_of self.old) result self.new }
        ensures heard { Heard H.hears (runs_by_turn self.old result) handlers.old handlers.new }
        ensures memory { DueWants L.may_want self.old (lowest_of self.old) result }
    {
        self.is_kept();
        match self.system.lowest_thread_or_cpu() {
            Some(Actor::Thread(dev)) => self.turn_other(Actor::Thread(dev), handlers),
            Some(Actor::Cpu(_)) => self.turn_after_threads(handlers),
            Some(Actor::Driver(_)) => self.turn_after_threads(handlers),
            None => self.turn_after_threads(handlers),
        }
    }

    /// One step of processor 0, if it has one, else of the lowest driver that has one.
    fn turn_after_threads<H: Handler>(&mut self, handlers: &mut H) -> Result<ChainTurn, StepRefused>
        requires { lowest_of self.old
            ≡ or_step (next_of self.old (actors.Cpu cpu_0)) (lowest_driver_of self.old) }
        ensures turns { TurnsBy self.old (lowest_of self.old) result self.new }
        ensures heard { Heard H.hears (runs_by_turn self.old result) handlers.old handlers.new }
        ensures memory { DueWants L.may_want self.old (lowest_of self.old) result }
    {
        match self.turn_cpu_0(handlers)? {
            ChainTurn::NotYet => self.turn_lowest_driver(handlers),
            moved => Ok(moved),
        }
    }

    /// One step of the lowest driver that has one; `NotYet` if none has.
    fn turn_lowest_driver<H: Handler>(&mut self, handlers: &mut H) -> Result<ChainTurn, StepRefused>
        ensures turns { TurnsBy self.old (lowest_driver_of self.old) result self.new }
        ensures heard { Heard H.hears (runs_by_turn self.old result) handlers.old handlers.new }
        ensures memory { DueWants L.may_want self.old (lowest_driver_of self.old) result }
    {
        match self.system.lowest_driver() {
            Some(driver) => self.turn_other(Actor::Driver(driver), handlers),
            None => Ok(ChainTurn::NotYet),
        }
    }

    /// Steps of the lowest actor that has one, until none has.
    fn settle<H: Handler>(&mut self, handlers: &mut H) -> Result<(), StepRefused>
        ensures board { self.new.board ≡ self.old.board }
        ensures layout { self.new.layout ≡ self.old.layout }
        ensures play { (picks : List Actor) → IsUnderway self.old picks []
            → IsPlay self.new picks result }
        ensures heard { (first : H) → Heard H.hears (runs_in self.old) first handlers.old
            → Heard H.hears (runs_in self.new) first handlers.new }
        ensures memory { (picks : List Actor) → IsUnderway self.old picks []
            → PlayWants L.may_want self.new picks result }
    {
        loop {
            self.is_kept();
            match self.turn_lowest(handlers)? {
                ChainTurn::Moved(_) => {}
                ChainTurn::NotYet => return Ok(()),
            }
        }
    }

    /// Plays the board from its beginning to its end: the picks in turn, with one that has no step
    /// passed over, and then always the lowest actor that has a step. A refusal ends the play.
    pub fn play<H: Handler>(&mut self, picks: &[Actor], handlers: &mut H) -> Result<(), StepRefused>
        requires { self.old.log ≡ [] }
        ensures board { self.new.board ≡ self.old.board }
        ensures layout { self.new.layout ≡ self.old.layout }
        ensures play { IsPlay self.new picks.now result }
        ensures heard { Heard H.hears (runs_in self.new) handlers.old handlers.new }
        ensures memory { PlayWants L.may_want self.new picks.now result }
    {
        for pick in picks {
            self.turn(*pick, handlers)?;
        }
        self.settle(handlers)
    }
}

/// What a turn answers, by what the system answered of the children.
fn chain_turn_of(turn: Result<Turn, StepRefused>) -> Result<ChainTurn, StepRefused>
    ensures { result ≡ turn_of turn }
{
    match turn? {
        Turn::Moved { line, entry } => Ok(ChainTurn::Moved(ChainEntry::Child { line, entry })),
        Turn::NotYet => Ok(ChainTurn::NotYet),
    }
}
