//! One step of the line.
ghost use Rattle.std.specs.Prelude.{◌≡◌, ◌≤◌, ◌+◌, ◌-◌, ◌<◌, ◌^◌, true};
ghost use Rattle.irq_base.specs.declared.devices.Part.TheVariants as parts;
ghost use Rattle.irq_base.specs.declared.entries.Entry.TheVariants as by;
ghost use Rattle.irq_base.specs.declared.lines.LineDef.{LineDef};
ghost use Rattle.irq_model.specs.Lines.{has_device};
ghost use Rattle.irq_model.specs.Valid.{IsValid};
ghost use Rattle.line_marks.specs.Due.{thread_return_by};
ghost use Rattle.line_marks.specs.Places.{called_in};
ghost use Rattle.run_scripts.specs.Places.{place_at};
ghost use Rattle.run_scripts.specs.Runs.{AreRunsOf};
ghost use Rattle.line_marks.specs.State.{state_after, IsOf};
ghost use Rattle.line_state.specs.Entries.{entry_by, cpu_entry, thread_entry, driver_entry};
ghost use Rattle.line_state.specs.Entries.{call_made, links_by, links_by_driver, IsActivated};
ghost use Rattle.line_state.specs.Entries.{CanMake, CanCall, CanMakeOfCpu, CanMakeOfThread};
ghost use Rattle.line_state.specs.Entries.{CanMakeOfDriver};
ghost use Rattle.line_state.specs.Running.{IsAboutCpu, IsAboutThread, IsAbout};
ghost use Rattle.line_state.specs.Seen.{IsAimOf, IsScripted, HasCall, runs_seen};
ghost use Rattle.line_state.specs.declared.due.CpuStep.TheVariants as cpus;

use crate::due::{CallStep, CpuStep, DriverStep, DueStep, ThreadStep};
use crate::state::LineState;
use irq_base::{Actor, Chip, CpuNo, DevNo, DriverNo, Entry, LineDef, LinkAnswer, Part};
use line_scripts::completes;

impl<C: Chip> LineState<C> {
    /// Whether the step links an action.
    pub fn links(&self, step: DueStep) -> bool
        ensures { result ≡ links_by self.now.state step }
    {
        match step {
            DueStep::Driver {
                step: DriverStep::Request { dev, flags },
                ..
            } => self.actions.answer(self.kind(dev), flags) == LinkAnswer::Linked,
            _ => false,
        }
    }

    /// Makes the step that is due, and answers the entry that it comes to: what the holder of the
    /// descriptor lock does. A step that links an action needs room for it (`reserve`); no step
    /// takes memory.
    #[inline(always)]
    pub fn make(&mut self, def: &LineDef, step: DueStep) -> Entry
        requires valid { IsValid def.now }
        requires is_of { IsOf def.now self.old.state }
        requires aim { IsAimOf def.now self.old.state.aim }
        requires scripted { IsScripted def.now self.old }
        requires activated { IsActivated self.old.state }
        requires can { CanMake def.now step self.old.state }
        requires about { IsAbout self.old step }
        requires room { links_by self.old.state step ≡ true → 1 ≤ self.old.spare }
        ensures entry { result ≡ entry_by def.now self.old.state step }
        ensures state { self.new.state ≡ state_after def.now result self.old.state }
        ensures fixed { self.new.fixed ≡ self.old.fixed }
    {
        match step {
            DueStep::Cpu { cpu, step } => self.make_of_cpu(def, cpu, step),
            DueStep::Thread { dev, step } => self.make_of_thread(def, dev, step),
            DueStep::Driver { driver, step } => self.make_of_driver(def, driver, step),
        }
    }

    /// Makes the step of a processor.
    #[inline(always)]
    pub fn make_of_cpu(&mut self, def: &LineDef, cpu: CpuNo, step: CpuStep) -> Entry
        requires valid { IsValid def.now }
        requires is_of { IsOf def.now self.old.state }
        requires few { self.old.state.aim.cpus ≤ 32 }
        requires scripted { IsScripted def.now self.old }
        requires activated { IsActivated self.old.state }
        requires can { CanMakeOfCpu def.now step self.old.state }
        requires about { IsAboutCpu self.old step }
        ensures entry { result ≡ cpu_entry def.now self.old.state cpu step }
        ensures state { self.new.state ≡ state_after def.now result self.old.state }
        ensures fixed { self.new.fixed ≡ self.old.fixed }
    {
        match step {
            CpuStep::Take { way } => self.take(def, cpu, way),
            CpuStep::Begin { dev } => self.begin(cpu, dev),
            CpuStep::Call { dev, step } => self.call_of_cpu(def, cpu, dev, step),
            CpuStep::Return { dev } => self.returned_by_kind(def, cpu, dev),
            CpuStep::End => self.end(def, cpu),
        }
    }

    /// The device's handler returns, and answers as its kind says: nobody is called.
    #[inline(always)]
    fn returned_by_kind(&mut self, def: &LineDef, cpu: CpuNo, dev: DevNo) -> Entry
        requires is_of { IsOf def.now self.old.state }
        requires scripted { AreRunsOf def.now (runs_seen self.old) }
        requires there { has_device def.now dev ≡ true }
        ensures entry { result ≡ cpu_entry def.now self.old.state cpu (cpus.Return dev) }
        ensures state { self.new.state ≡ state_after def.now result self.old.state }
        ensures fixed { self.new.fixed ≡ self.old.fixed }
    {
        let there = self.run_there(def, Part::Primary, dev);
        let answer = there.run.answer();
        self.returned(def, cpu, there, answer)
    }

    /// The handler at work of this device makes a step of a call.
    #[inline(always)]
    pub fn call_of_cpu(&mut self, def: &LineDef, cpu: CpuNo, dev: DevNo, step: CallStep) -> Entry
        requires is_of { IsOf def.now self.old.state }
        requires scripted { IsScripted def.now self.old }
        requires activated { IsActivated self.old.state }
        requires can { CanCall step self.old.state }
        requires about { IsAboutCpu self.old (cpus.Call dev step) }
        ensures entry { result ≡ by.CpuCall cpu (call_made def.now self.old.state step) }
        ensures state { self.new.state ≡ state_after def.now result self.old.state }
        ensures fixed { self.new.fixed ≡ self.old.fixed }
    {
        let call = self.make_call(def, Actor::Cpu(cpu), step);
        let entry = Entry::CpuCall(cpu, call);
        self.advance(dev, Part::Primary, &entry);
        entry
    }

    /// The run of that part moves on by this entry of its due call.
    fn advance(&mut self, dev: DevNo, part: Part, entry: &Entry)
        requires call { HasCall self.old part dev }
        requires within { (place_at self.old.state.places dev part).within + 1 < 2 ^ 32 }
        ensures state { (def : LineDef) → AreRunsOf def (runs_seen self.old)
            → has_device def dev ≡ true → self.new.state ≡ record self.old.state {
              places = called_in def part dev entry.now self.old.state.places;
            } }
        ensures fixed { self.new.fixed ≡ self.old.fixed }
    {
        let Some((call, _)) = self.runs.due(dev, part) else {
            // The run has a call left.
            unreachable!();
        };
        let completes = completes(call, entry);
        self.runs.advance(dev, part, completes);
    }

    /// Makes the step of a device's thread.
    #[inline(always)]
    pub fn make_of_thread(&mut self, def: &LineDef, dev: DevNo, step: ThreadStep) -> Entry
        requires is_of { IsOf def.now self.old.state }
        requires scripted { IsScripted def.now self.old }
        requires activated { IsActivated self.old.state }
        requires can { CanMakeOfThread step self.old.state }
        requires about { IsAboutThread self.old dev step }
        ensures entry { result ≡ thread_entry def.now self.old.state dev step }
        ensures state { self.new.state ≡ state_after def.now result self.old.state }
        ensures fixed { self.new.fixed ≡ self.old.fixed }
    {
        match step {
            ThreadStep::Begin => self.thread_begin(dev),
            ThreadStep::Call { step } => self.call_of_thread(def, dev, step),
            ThreadStep::Return => self.thread_returned_by_kind(def, dev),
            ThreadStep::Finish => self.finish(dev),
            ThreadStep::Done => self.done(dev),
        }
    }

    /// The thread's handler returns, and answers as its kind says: nobody is called.
    #[inline(always)]
    fn thread_returned_by_kind(&mut self, def: &LineDef, dev: DevNo) -> Entry
        requires is_of { IsOf def.now self.old.state }
        requires scripted { AreRunsOf def.now (runs_seen self.old) }
        requires there { has_device def.now dev ≡ true }
        requires room { self.old.state.counts.counts.threads_handled < 2 ^ 32 - 1 }
        ensures entry { result ≡ thread_return_by def.now self.old.state dev }
        ensures state { self.new.state ≡ state_after def.now result self.old.state }
        ensures fixed { self.new.fixed ≡ self.old.fixed }
    {
        let there = self.run_there(def, Part::Thread, dev);
        let answer = there.run.answer();
        self.thread_returned(def, there, answer)
    }

    /// The thread's handler makes a step of a call.
    #[inline(always)]
    pub fn call_of_thread(&mut self, def: &LineDef, dev: DevNo, step: CallStep) -> Entry
        requires is_of { IsOf def.now self.old.state }
        requires scripted { IsScripted def.now self.old }
        requires there { has_device def.now dev ≡ true }
        requires activated { IsActivated self.old.state }
        requires can { CanCall step self.old.state }
        requires about { HasCall self.old parts.Thread dev }
        ensures entry { result ≡ by.ThreadCall dev (call_made def.now self.old.state step) }
        ensures state { self.new.state ≡ state_after def.now result self.old.state }
        ensures fixed { self.new.fixed ≡ self.old.fixed }
    {
        let call = self.make_call(def, Actor::Thread(dev), step);
        let entry = Entry::ThreadCall(dev, call);
        self.advance(dev, Part::Thread, &entry);
        entry
    }

    /// Makes the step of a driver. One that links an action needs room for it.
    #[inline(always)]
    pub fn make_of_driver(&mut self, def: &LineDef, driver: DriverNo, step: DriverStep) -> Entry
        requires valid { IsValid def.now }
        requires is_of { IsOf def.now self.old.state }
        requires few { self.old.state.aim.cpus ≤ 32 }
        requires activated { IsActivated self.old.state }
        requires can { CanMakeOfDriver step self.old.state }
        requires room { links_by_driver self.old.state step ≡ true → 1 ≤ self.old.spare }
        ensures entry { result ≡ driver_entry def.now self.old.state driver step }
        ensures state { self.new.state ≡ state_after def.now result self.old.state }
        ensures fixed { self.new.fixed ≡ self.old.fixed }
    {
        match step {
            DriverStep::Ask { dev } => self.ask(def, driver, dev),
            DriverStep::Request { dev, flags } => self.request(def, driver, dev, flags),
            DriverStep::Affinity { mask } => self.affinity(driver, mask),
            DriverStep::Moment { at } => self.moment(driver, at),
            DriverStep::Call { step } => self.call_of_driver(def, driver, step),
        }
    }

    /// The driver makes a step of a call that handlers and threads make alike.
    #[inline(always)]
    fn call_of_driver(&mut self, def: &LineDef, driver: DriverNo, step: CallStep) -> Entry
        requires is_of { IsOf def.now self.old.state }
        requires activated { IsActivated self.old.state }
        requires can { CanCall step self.old.state }
        ensures entry { result ≡ by.DriverCall driver (call_made def.now self.old.state step) }
        ensures state { self.new.state ≡ state_after def.now result self.old.state }
        ensures fixed { self.new.fixed ≡ self.old.fixed }
    {
        let call = self.make_call(def, Actor::Driver(driver), step);
        Entry::DriverCall(driver, call)
    }
}
