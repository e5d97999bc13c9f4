//! The lines of a board, put to sleep and woken.
ghost use Rattle.std.specs.Prelude.{◌≡◌, Err, IfErr, IfOk};
ghost use Rattle.board_core.specs.Hung.{SaysEnd, stop_of};
ghost use Rattle.board_core.specs.Making.{MakesAll};
ghost use Rattle.board_core.specs.Seen.{board_lines};
ghost use Rattle.board_core.specs.Turns.{move_of, lowest_move};
ghost use Rattle.callbacks.specs.Heard.{Heard};
ghost use Rattle.board_core.specs.Runs.{runs_in};
ghost use Rattle.board_def.specs.Layout.{layout_of};
ghost use Rattle.board_driver.specs.Longer.{last_driver};
ghost use Rattle.board_play.specs.Play.{or_move};
ghost use Rattle.irq_pm.specs.Phases.{Disabling, Asleep, Enabling, Going, asks_next, due_of};
ghost use Rattle.irq_pm.specs.Phases.{first_asking, is_disable_due};
ghost use Rattle.irq_sleeper.specs.Seen.{log_of};
ghost use Rattle.irq_sleeper.specs.Steps.{EndsIn, GoesTo, Heeds, IsAsleep, IsFresh, IsSleep};
ghost use Rattle.irq_sleeper.specs.Steps.{Reaches, Suspends};
ghost use Rattle.irq_sleeper.specs.Hearing.{HearsOn};
ghost use Rattle.irq_sleeper.specs.Steps.{IsTold, IsUnderway, IsWoken, Stays, StepsBy, ask_of};
ghost use Rattle.irq_sleeper.specs.Steps.{inner_of, last_of};
ghost use Rattle.irq_sleeper.specs.Wanted.{PlayWants, StepWants};

use crate::marks::WakeMark;
use crate::walk::SleepWalk;
use crate::watch::{SYSTEM, Watch};
use board_core::{PlayEnd, System, Turn};
use board_def::{Board, Layout};
use callbacks::Handler;
use irq_base::{Actor, Call, DriverNo, LineNo, NoMemory};
use irq_line::{IrqLine, MakesLine, StepRefused};
use std::alloc::Global;
use std::marker::Model;

/// A board that has the system's driver, with its lines, put to sleep and woken.
#[derive(Drop)]
pub struct Sleeper<'b, L: IrqLine> {
    system: System<'b, L>,
    watch: Watch<'b>,
    /// How many moves stand before the mark `Asleep`.
    asleep: Option<usize>,
    wake: Option<WakeMark>,
}

impl<'b, L: IrqLine> Model for Sleeper<'b, L> {
    ghost use Rattle.irq_sleeper.specs.Seen.{SleeperSeen};

    ghost Value = { SleeperSeen };

    ghost view = { λ s. record {
      system = s.system;
      watch = s.watch;
      asleep = s.asleep;
      wake = s.wake;
    } };
}

impl<'b, L: IrqLine> Sleeper<'b, L> {
    /// The lines of the board, to which nothing has happened: the maker makes each line that takes
    /// part. `armed`: the lines whose interrupts wake the machine. The only error is `NoMemory`.
    pub fn new<M: MakesLine<L>>(
        alloc: Global,
        board: &'b Board,
        layout: Layout,
        armed: &'b [LineNo],
        maker: &M,
    ) -> Result<Sleeper<'b, L>, NoMemory>
        requires layout { layout ≡ layout_of board.now }
        requires makes { MakesAll (M.makes maker.now) board.now (layout_of board.now) }
        ensures board { IfOk result (λ s. s.system.board ≡ board.now) }
        ensures layout { IfOk result (λ s. s.system.layout ≡ layout) }
        ensures armed { IfOk result (λ s. s.watch.armed ≡ armed.now) }
        ensures fresh { IfOk result IsFresh }
    {
        let system = System::new(alloc, board, layout, maker)?;
        let watch = Watch::new(alloc, armed)?;
        Ok(Sleeper {
            system,
            watch,
            asleep: None,
            wake: None,
        })
    }

    /// Plays the picks, puts the lines to sleep, lets devices ask until the machine wakes, opens
    /// the lines, and plays on to the end (`enter_state`, `kernel/power/suspend.c`). A pick that
    /// can't move is passed over. The play ends early if the system's driver waits for ever, and
    /// with an error if a step is refused.
    pub fn play<H: Handler>(&mut self, picks: &[Actor], handlers: &mut H) -> Result<(), StepRefused>
        requires { IsFresh self.old }
        ensures stays { Stays self.old self.new }
        ensures told { IsTold self.new }
        ensures sleep { IsSleep self.new picks.now result }
        ensures heard { Heard H.hears (runs_in self.new.system) handlers.old handlers.new }
        ensures memory { PlayWants L.may_want self.new picks.now result }
    {
        self.make_picks(picks, handlers)?;
        if !self.suspend(picks, handlers)? {
            return Ok(());
        }
        self.sleep(picks, handlers)?;
        self.resume(picks, handlers)?;
        self.go_on(picks, handlers)
    }

    /// The picks in turn.
    fn make_picks<H: Handler>(
        &mut self,
        picks: &[Actor],
        handlers: &mut H,
    ) -> Result<(), StepRefused>
        requires { IsFresh self.old }
        ensures reaches { Reaches self.old self.new picks.now Disabling result }
        ensures heard { HearsOn H.hears self.old handlers.old self.new handlers.new }
        ensures memory { PlayWants L.may_want self.new picks.now result }
    {
        for pick in picks {
            self.step(*pick, handlers)?;
        }
        Ok(())
    }

    /// The system's driver disables each line, and waits for its handlers and threads
    /// (`suspend_device_irqs`, `kernel/irq/pm.c`). Answers whether the machine is asleep; if not,
    /// the driver waits for ever. `picks`: those that were made.
    fn suspend<H: Handler>(
        &mut self,
        picks: &[Actor],
        handlers: &mut H,
    ) -> Result<bool, StepRefused>
        requires { IsUnderway self.old picks.now Disabling }
        ensures reaches { Suspends self.old self.new picks.now result }
        ensures heard { HearsOn H.hears self.old handlers.old self.new handlers.new }
        ensures memory { IfErr result
            (λ refused. PlayWants L.may_want self.new picks.now (Err refused)) }
    {
        while self.is_disabling() {
            if !self.step_disabling(handlers)? {
                return Ok(false);
            }
        }
        self.fall_asleep();
        Ok(true)
    }

    /// Devices ask, and interrupts are taken, until an armed line wakes the machine, or nothing is
    /// left to happen.
    fn sleep<H: Handler>(&mut self, picks: &[Actor], handlers: &mut H) -> Result<(), StepRefused>
        requires { IsUnderway self.old picks.now Asleep }
        ensures reaches { Reaches self.old self.new picks.now Enabling result }
        ensures heard { HearsOn H.hears self.old handlers.old self.new handlers.new }
        ensures memory { PlayWants L.may_want self.new picks.now result }
    {
        loop {
            if let Some(line) = self.watch.woken() {
                self.wake_by(Some(line));
                return Ok(());
            }
            if !self.step_asleep(handlers)? {
                self.wake_by(None);
                return Ok(());
            }
        }
    }

    /// The machine wakes, by an interrupt of this line.
    fn wake_by(&mut self, line: Option<LineNo>)
        ensures { IsWoken self.old line self.new }
    {
        self.wake = Some(WakeMark {
            at: self.system.log_len(),
            line,
        });
    }

    /// The machine is asleep.
    fn fall_asleep(&mut self)
        ensures { IsAsleep self.old self.new }
    {
        self.asleep = Some(self.system.log_len());
    }

    /// The system's driver enables each line (`resume_device_irqs`, `kernel/irq/pm.c`).
    fn resume<H: Handler>(&mut self, picks: &[Actor], handlers: &mut H) -> Result<(), StepRefused>
        requires { IsUnderway self.old picks.now Enabling }
        ensures reaches { Reaches self.old self.new picks.now Going result }
        ensures heard { HearsOn H.hears self.old handlers.old self.new handlers.new }
        ensures memory { PlayWants L.may_want self.new picks.now result }
    {
        while self.step(Actor::Driver(SYSTEM), handlers)? {}
        Ok(())
    }

    /// Steps of the lowest actor that can move, until none can.
    fn go_on<H: Handler>(&mut self, picks: &[Actor], handlers: &mut H) -> Result<(), StepRefused>
        requires { IsUnderway self.old picks.now Going }
        ensures ends { EndsIn self.old self.new picks.now result }
        ensures heard { HearsOn H.hears self.old handlers.old self.new handlers.new }
        ensures memory { PlayWants L.may_want self.new picks.now result }
    {
        while self.step_lowest(handlers)? {}
        Ok(())
    }

    /// One step of the actor. Answers whether it could move.
    fn step<H: Handler>(&mut self, actor: Actor, handlers: &mut H) -> Result<bool, StepRefused>
        ensures steps { StepsBy self.old (move_of self.old.system actor) result self.new }
        ensures heard { HearsOn H.hears self.old handlers.old self.new handlers.new }
        ensures memory { StepWants L.may_want self.old.system (move_of self.old.system actor)
            result }
    {
        let turn = self.system.turn(actor, handlers)?;
        Ok(self.heed(turn))
    }

    /// One step of the lowest actor that can move, if one can.
    fn step_lowest<H: Handler>(&mut self, handlers: &mut H) -> Result<bool, StepRefused>
        ensures steps { StepsBy self.old (lowest_move self.old.system) result self.new }
        ensures heard { HearsOn H.hears self.old handlers.old self.new handlers.new }
        ensures memory { StepWants L.may_want self.old.system (lowest_move self.old.system) result }
    {
        let turn = self.system.turn_lowest(handlers)?;
        Ok(self.heed(turn))
    }

    /// One step of the system's driver, or, while that waits, of the lowest thread or processor
    /// that can move.
    fn step_disabling<H: Handler>(&mut self, handlers: &mut H) -> Result<bool, StepRefused>
        ensures steps { StepsBy self.old (or_move (last_of self.old.system)
            (inner_of self.old.system))
            result self.new }
        ensures heard { HearsOn H.hears self.old handlers.old self.new handlers.new }
        ensures memory { StepWants L.may_want self.old.system
            (or_move (last_of self.old.system) (inner_of self.old.system)) result }
    {
        if self.step(Actor::Driver(SYSTEM), handlers)? {
            return Ok(true);
        }
        self.step_inner(handlers)
    }

    /// One step of the lowest thread or processor that can move, or else of the lowest driver of a
    /// device that asks.
    fn step_asleep<H: Handler>(&mut self, handlers: &mut H) -> Result<bool, StepRefused>
        ensures steps { StepsBy self.old (or_move (inner_of self.old.system)
            (ask_of self.old.system))
            result self.new }
        ensures heard { HearsOn H.hears self.old handlers.old self.new handlers.new }
        ensures memory { StepWants L.may_want self.old.system
            (or_move (inner_of self.old.system) (ask_of self.old.system)) result }
    {
        if self.step_inner(handlers)? {
            return Ok(true);
        }
        match self.first_asking() {
            Some(driver) => self.step(Actor::Driver(driver), handlers),
            None => Ok(false),
        }
    }

    /// One step of the lowest thread or processor that can move, if one can.
    fn step_inner<H: Handler>(&mut self, handlers: &mut H) -> Result<bool, StepRefused>
        ensures steps { StepsBy self.old (inner_of self.old.system) result self.new }
        ensures heard { HearsOn H.hears self.old handlers.old self.new handlers.new }
        ensures memory { StepWants L.may_want self.old.system (inner_of self.old.system) result }
    {
        match self.system.lowest_thread_or_cpu() {
            Some(actor) => self.step(actor, handlers),
            None => Ok(false),
        }
    }

    /// Whether the system's driver is at a disable.
    fn is_disabling(&self) -> bool
        ensures { result ≡ is_disable_due (due_of self.now.system.board
            (board_lines self.now.system.lines) last_driver) }
    {
        match self.system.due_call(SYSTEM) {
            Some(due) => matches!(due.call, Call::Disable),
            None => false,
        }
    }

    /// The lowest driver of a device that is at an ask.
    fn first_asking(&self) -> Option<DriverNo>
        ensures { result ≡ first_asking self.now.system.board
            (board_lines self.now.system.lines) self.now.system.board.drivers }
    {
        for j in 0..self.system.board().drivers_len() {
            let Some(driver) = self.system.board().driver(j) else {
                unreachable!();
            };
            if self.asks_next(driver) {
                return Some(driver);
            }
        }
        None
    }

    /// Whether it is the driver of a device, and is at an ask.
    fn asks_next(&self, driver: DriverNo) -> bool
        ensures { result ≡ asks_next self.now.system.board
            (board_lines self.now.system.lines) driver }
    {
        if driver == SYSTEM {
            return false;
        }
        match self.system.due_call(driver) {
            Some(due) => matches!(due.call, Call::Ask { .. }),
            None => false,
        }
    }

    /// Takes note of what a turn did. Answers whether it made a move.
    fn heed(&mut self, turn: Turn) -> bool
        ensures { Heeds self.old turn result self.new }
    {
        match turn {
            Turn::Moved { line, entry } => {
                self.watch.note(line, entry);
                true
            }
            Turn::NotYet => false,
        }
    }

    /// The log, from its first entry on. It takes no memory, and the same time however long the log
    /// is.
    pub fn entries(&self) -> SleepWalk<'_, L>
        ensures { result ≡ log_of self.now }
    {
        let _length = self.system.log_len();
        SleepWalk::new(self.system.moves(), self.asleep, self.wake)
    }

    /// The board.
    pub fn board(&self) -> &Board
        ensures { result.now ≡ self.now.system.board }
    {
        self.system.board()
    }

    /// The board's layout.
    pub fn layout(&self) -> &Layout
        ensures { result.now ≡ self.now.system.layout }
    {
        self.system.layout()
    }

    /// How a play ended that stopped so: where nobody can move, whether somebody hangs.
    pub fn end_after(&self, stop: Result<(), StepRefused>) -> Result<PlayEnd, StepRefused>
        ensures stop { stop_of result ≡ stop }
        ensures says { SaysEnd (board_lines self.now.system.lines) result }
    {
        self.system.end_after(stop)
    }

    /// The system, as it stands.
    pub fn into_system(self) -> System<'b, L>
        ensures { result ≡ self.entry.system }
    {
        let Sleeper { system, .. } = self;
        system
    }
}
