//! Asks, and the runs of handlers and threads.
ghost use Rattle.std.specs.Prelude.{◌≡◌, ◌-◌, ◌<◌, ◌&&◌, ◌^◌, nat_lt, true};
ghost use Rattle.irq_base.specs.Handlers.{answer_of_run};
ghost use Rattle.irq_base.specs.declared.devices.Part.TheVariants as parts;
ghost use Rattle.irq_base.specs.declared.entries.Entry.TheVariants as by;
ghost use Rattle.irq_base.specs.declared.entries.CpuEntry.TheVariants as cpus;
ghost use Rattle.irq_base.specs.declared.entries.ThreadEntry.TheVariants as threads;
ghost use Rattle.irq_base.specs.declared.entries.DriverEntry.TheVariants as drivers;
ghost use Rattle.irq_base.specs.declared.lines.LineDef.{LineDef};
ghost use Rattle.irq_model.specs.Lines.{has_device};
ghost use Rattle.irq_model.specs.Runs.{is_that_part, serves_by_word};
ghost use Rattle.device_table.specs.Rows.{at, change};
ghost use Rattle.ask_counts.specs.Facts.{facts_at};
ghost use Rattle.ask_counts.specs.Rows.{HasRoom, served};
ghost use Rattle.run_scripts.specs.Runs.{AreRunsOf};
ghost use Rattle.line_marks.specs.Acts.{lowered};
ghost use Rattle.line_marks.specs.Calls.{ask_edge_by};
ghost use Rattle.line_marks.specs.CpuDue.{return_by};
ghost use Rattle.line_marks.specs.Due.{thread_return_by};
ghost use Rattle.line_marks.specs.Runs.{met_in, served_at, taken_in};
ghost use Rattle.line_marks.specs.State.{state_after, IsOf};
ghost use Rattle.line_marks.specs.Facts.{serves_in};
ghost use Rattle.line_state.specs.Ended.{run_there};
ghost use Rattle.line_state.specs.Edges.{asks_by_row};
ghost use Rattle.line_state.specs.Entries.{IsActivated, finish_by};
ghost use Rattle.line_state.specs.Seen.{runs_seen};

use crate::state::LineState;
use act_thread::Finished;
use ask_counts::{AskRow, DeviceFacts};
use irq_base::{
    Answer, Chip, CpuEntry, CpuNo, DevNo, DeviceDef, DriverEntry, DriverNo, Entry, Kind, LineDef,
    Part, Run, ThreadEntry, ToldAnswer, Trigger,
};

/// The run that is there of a handler or of a thread.
#[derive(Clone, Copy)]
pub struct RunThere {
    /// What the handler is handed: its device, what the run met, and what a told device is to
    /// answer.
    pub run: Run,
    /// Runs of this part serve as they return.
    pub serves: bool,
    /// How many asks it takes away then, if it serves.
    pub takes: u32,
}

impl<C: Chip> LineState<C> {
    /// The device asks: an edge may come, or the level is high.
    pub fn ask(&mut self, def: &LineDef, driver: DriverNo, dev: DevNo) -> Entry
        requires is_of { IsOf def.now self.old.state }
        requires room { HasRoom (at self.old.state.asks dev) }
        ensures entry { result
            ≡ by.Driver driver (drivers.Ask (ask_edge_by def.now dev self.old.state) dev) }
        ensures state { self.new.state ≡ state_after def.now result self.old.state }
        ensures fixed { self.new.fixed ≡ self.old.fixed }
    {
        let was = self.asks.asked(dev);
        let edge = self.asks_with_edge(def, dev, was);
        self.signal(def, edge);
        Entry::Driver(driver, DriverEntry::Ask { edge, dev })
    }

    /// Whether an ask of the device would make an edge, as each counts on a level line: not while
    /// the device is quiet, nor, if it is held, while something of it is unserved. `was`: the
    /// counts of its asks before.
    #[inline(always)]
    fn asks_with_edge(&self, def: &LineDef, dev: DevNo, was: Option<AskRow>) -> bool
        ensures { result ≡ asks_by_row def.now (facts_at self.now.state.facts dev).held was }
    {
        if def.trigger == Trigger::Level {
            return true;
        }
        match was {
            Some(row) => !row.quiet && (row.unserved == 0 || !self.facts.get(dev).held),
            None => true,
        }
    }

    /// The device's handler is called.
    #[inline(always)]
    pub fn begin(&mut self, cpu: CpuNo, dev: DevNo) -> Entry
        ensures entry { result ≡ by.Cpu cpu (cpus.Begin dev) }
        ensures state { (def : LineDef) → AreRunsOf def (runs_seen self.old)
            → has_device def dev ≡ true → self.new.state ≡ state_after def result self.old.state }
        ensures fixed { self.new.fixed ≡ self.old.fixed }
    {
        let serves = serves_in(self.facts.get(dev), Part::Primary);
        self.asks.called(dev, serves);
        self.round.called(dev);
        self.actions.begin(dev);
        self.runs.begin(dev, Part::Primary);
        Entry::Cpu(cpu, CpuEntry::Begin { dev })
    }

    /// The run of that part of the device that is there: what its handler is handed, and whether it
    /// serves.
    #[inline(always)]
    pub fn run_there(&self, def: &LineDef, part: Part, dev: DevNo) -> RunThere
        requires scripted { AreRunsOf def.now (runs_seen self.now) }
        requires there { has_device def.now dev ≡ true }
        ensures run { result.run ≡ run_there def.now self.now.state part dev }
        ensures serves { result.serves ≡ serves_in self.now.state.facts part dev }
        ensures takes { result.takes ≡ taken_in (at self.now.state.asks dev) }
    {
        let facts = self.facts.get(dev);
        let row = self.asks.get(dev);
        let run = Run {
            def: DeviceDef {
                dev,
                line: def.line,
                kind: facts.kind,
                held: facts.held,
                forgets: facts.forgets,
            },
            part,
            unserved: met_in(part, row),
            told: self.told(dev, part),
        };
        RunThere {
            run,
            serves: serves_in(facts, part),
            takes: taken_in(row),
        }
    }

    /// The handler of this run returns with this answer, which is its device's: what it met is
    /// served if it serves, and its thread is woken if the answer says so
    /// (`__handle_irq_event_percpu`, `kernel/irq/handle.c`). What the run says of its device isn't
    /// looked up again.
    #[inline(always)]
    pub fn returned(&mut self, def: &LineDef, cpu: CpuNo, there: RunThere, answer: Answer) -> Entry
        requires is_of { IsOf def.now self.old.state }
        requires run { there.run
            ≡ run_there def.now self.old.state parts.Primary there.run.def.dev }
        requires serves { there.serves
            ≡ serves_in self.old.state.facts parts.Primary there.run.def.dev }
        requires takes { there.takes ≡ taken_in (at self.old.state.asks there.run.def.dev) }
        requires answer { answer ≡ answer_of_run there.run }
        ensures entry { result ≡ return_by def.now self.old.state cpu there.run.def.dev }
        ensures state { self.new.state ≡ state_after def.now result self.old.state }
        ensures fixed { self.new.fixed ≡ self.old.fixed }
    {
        let dev = there.run.def.dev;
        let served = self.serve_run(def, there);
        if answer == Answer::Wake {
            let oneshot = self.desc.oneshot();
            self.threads.wake(dev, oneshot);
        }
        self.round.returned(answer);
        self.runs.returned(dev, Part::Primary);
        Entry::Cpu(
            cpu,
            CpuEntry::Return {
                answer,
                dev,
                served,
            },
        )
    }

    /// The run serves what it met, if it serves at all, and the level is lowered by it. Answers how
    /// many asks it served.
    #[inline(always)]
    fn serve_run(&mut self, def: &LineDef, there: RunThere) -> u32
        requires is_of { IsOf def.now self.old.state }
        requires run { there.run
            ≡ run_there def.now self.old.state there.run.part there.run.def.dev }
        requires serves { there.serves
            ≡ serves_in self.old.state.facts there.run.part there.run.def.dev }
        requires takes { there.takes ≡ taken_in (at self.old.state.asks there.run.def.dev) }
        ensures served { result
            ≡ served_at def.now self.old.state there.run.part there.run.def.dev }
        ensures state { self.new.state ≡ lowered def.now result (record self.old.state {
          asks = change (served (serves_in self.old.state.facts there.run.part there.run.def.dev
              && nat_lt 0 result)) self.old.state.asks there.run.def.dev;
        }) }
        ensures fixed { self.new.fixed ≡ self.old.fixed }
    {
        let dev = there.run.def.dev;
        let serves = there.serves && serves_by_word(there.run.def.kind, there.run.told);
        if !serves || there.takes == 0 {
            return 0;
        }
        self.asks.served(dev, true);
        self.lower(def, there.takes);
        there.takes
    }

    /// The level after a run that served so many asks.
    #[inline(always)]
    fn lower(&mut self, def: &LineDef, served: u32)
        requires { IsOf def.now self.old.state }
        ensures state { self.new.state ≡ lowered def.now served self.old.state }
        ensures fixed { self.new.fixed ≡ self.old.fixed }
    {
        if def.trigger == Trigger::Level && served > 0 {
            self.chip.set_high(self.asks.is_high());
        }
    }

    /// The device's thread begins a run (`irq_wait_for_interrupt`, `kernel/irq/manage.c`).
    #[inline(always)]
    pub fn thread_begin(&mut self, dev: DevNo) -> Entry
        ensures entry { result ≡ by.Thread dev threads.Begin }
        ensures state { (def : LineDef) → AreRunsOf def (runs_seen self.old)
            → has_device def dev ≡ true → self.new.state ≡ state_after def result self.old.state }
        ensures fixed { self.new.fixed ≡ self.old.fixed }
    {
        let serves = serves_in(self.facts.get(dev), Part::Thread);
        self.threads.begin(dev);
        self.asks.begun(dev, serves);
        self.runs.begin(dev, Part::Thread);
        Entry::Thread(dev, ThreadEntry::Begin)
    }

    /// The thread's handler returns from this run with this answer: what it met is served if it
    /// serves (`irq_thread_fn`, `kernel/irq/manage.c`). What the run says of its device isn't
    /// looked up again.
    #[inline(always)]
    pub fn thread_returned(&mut self, def: &LineDef, there: RunThere, answer: Answer) -> Entry
        requires is_of { IsOf def.now self.old.state }
        requires room { self.old.state.counts.counts.threads_handled < 2 ^ 32 - 1 }
        requires run { there.run
            ≡ run_there def.now self.old.state parts.Thread there.run.def.dev }
        requires serves { there.serves
            ≡ serves_in self.old.state.facts parts.Thread there.run.def.dev }
        requires takes { there.takes ≡ taken_in (at self.old.state.asks there.run.def.dev) }
        requires answer { answer ≡ answer_of_run there.run }
        ensures entry { result ≡ thread_return_by def.now self.old.state there.run.def.dev }
        ensures state { self.new.state ≡ state_after def.now result self.old.state }
        ensures fixed { self.new.fixed ≡ self.old.fixed }
    {
        let dev = there.run.def.dev;
        let handled = answer == Answer::Handled;
        let served = self.serve_run(def, there);
        self.threads.returned(dev);
        self.runs.returned(dev, Part::Thread);
        if handled {
            self.counts.thread_handled();
        }
        Entry::Thread(dev, ThreadEntry::Return { handled, served })
    }

    /// Its run is finalized (`irq_finalize_oneshot`, `kernel/irq/manage.c`): if the thread gives
    /// its bit up, and no thread holds the line then, its mask opens (`unmask_threaded_irq`,
    /// `kernel/irq/chip.c`).
    #[inline(always)]
    pub fn finish(&mut self, dev: DevNo) -> Entry
        requires { IsActivated self.old.state }
        ensures entry { result ≡ finish_by self.old.state dev }
        ensures state { (def : LineDef)
            → self.new.state ≡ state_after def result self.old.state }
        ensures fixed { self.new.fixed ≡ self.old.fixed }
    {
        let found = self.threads.finish(dev);
        let unmask = found == Finished::Cleared
            && !self.desc.disabled()
            && self.desc.masked()
            && !self.is_held();
        if unmask {
            self.desc.unmask(&mut self.chip);
        }
        Entry::Thread(
            dev,
            ThreadEntry::Finish {
                kept: found == Finished::Kept,
                unmask,
            },
        )
    }

    /// Its run is over (`wake_threads_waitq`, `kernel/irq/manage.c`).
    #[inline(always)]
    pub fn done(&mut self, dev: DevNo) -> Entry
        ensures entry { result ≡ by.Thread dev threads.Done }
        ensures state { (def : LineDef)
            → self.new.state ≡ state_after def result self.old.state }
        ensures fixed { self.new.fixed ≡ self.old.fixed }
    {
        let oneshot = self.desc.oneshot();
        self.threads.done(dev, oneshot);
        Entry::Thread(dev, ThreadEntry::Done)
    }
}

/// Of a row of asks: those that were unserved as the run of that part last began.
#[inline(always)]
pub(crate) fn met_in(part: Part, row: Option<AskRow>) -> u32
    ensures { result ≡ met_in part row }
{
    match (row, part) {
        (Some(row), Part::Primary) => row.met_by_handler,
        (Some(row), Part::Thread) => row.met_by_thread,
        (None, _) => 0,
    }
}

/// How many asks the serving run takes away that returns now.
#[inline(always)]
fn taken_in(row: Option<AskRow>) -> u32
    ensures { result ≡ taken_in row }
{
    match row {
        Some(row) => row.taken(),
        None => 0,
    }
}

/// Whether runs of that part serve as they return.
#[inline(always)]
fn serves_in(facts: DeviceFacts, part: Part) -> bool
    ensures { result ≡ is_that_part part facts.serving }
{
    matches!(
        (facts.serving, part),
        (Some(Part::Primary), Part::Primary) | (Some(Part::Thread), Part::Thread)
    )
}

/// Whether a run of a device of this kind serves: a told one's only where its word is `handled`.
#[inline(always)]
fn serves_by_word(kind: Kind, told: Option<ToldAnswer>) -> bool
    ensures { result ≡ serves_by_word kind told }
{
    match kind {
        Kind::Told { .. } => matches!(told, Some(ToldAnswer::Handled)),
        _ => true,
    }
}
