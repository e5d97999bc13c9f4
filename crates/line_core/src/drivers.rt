//! What a driver does by its calls.
ghost use Rattle.std.specs.Prelude.{◌≡◌, ◌+◌, ◌<◌, ◌≤◌, [], ◌∷◌, ◌++◌, length, IfOk, IsOk, OnOk};
ghost use Rattle.std.specs.Prelude.{OnErr, Some, false, option_map, reverse, true};
ghost use Rattle.irq_base.specs.declared.calls.Call.TheVariants as calls;
ghost use Rattle.irq_base.specs.declared.entries.Actor.TheVariants as actors;
ghost use Rattle.irq_base.specs.declared.entries.DriverEntry.TheVariants as drivers;
ghost use Rattle.irq_base.specs.declared.entries.Entry.TheVariants as by;
ghost use Rattle.irq_model.specs.Due.{due_call};
ghost use Rattle.irq_model.specs.Kinds.{is_linked_request};
ghost use Rattle.irq_model.specs.Next.{next};
ghost use Rattle.irq_line.specs.Answers.{Adds};
ghost use Rattle.line_scripts.specs.Rows.{call_of};
ghost use Rattle.line_marks.specs.Calls.{ask_edge_by};
ghost use Rattle.line_marks.specs.Line.{IsLine};
ghost use Rattle.line_state.specs.Entries.{driver_entry, links_by_driver};
ghost use Rattle.line_state.specs.Seen.{runs_seen};
ghost use Rattle.line_state.specs.declared.due.DueStep.TheVariants as steps;
ghost use Rattle.line_core.specs.Entries.{entry_at};
ghost use Rattle.line_core.specs.Room.{HasRoom};
ghost use Rattle.line_core.specs.Steps.{IsStepAlone};

use crate::line::Line;
use crate::room::make_room;
use irq_base::{Call, Chip, DevNo, DriverNo, Entry, History, LineDef, NoMemory};
use irq_line::{StepRefused, Stepped};
use line_scripts::{Scripts, completes};
use line_state::{DriverStep, DueStep, LineState};

impl<C: Chip> Line<C> {
    /// A step of a driver, which ends no run. Most calls are asks: an ask is made here, with its
    /// due call at hand, if there is room for its entry.
    #[inline(always)]
    pub(crate) fn step_of_driver<L>(&mut self, driver: DriverNo) -> Result<Stepped<L>, StepRefused>
        ensures step { IsStepAlone self.old.line (actors.Driver driver) result self.new.line }
        ensures wiring { self.new.wiring ≡ self.old.wiring }
    {
        let Some((call, within)) = self.scripts.due(driver) else {
            return Ok(Stepped::NotYet);
        };
        if let Call::Ask { dev } = call {
            if self.has_room() {
                return Ok(Stepped::Added(self.ask(driver, dev)));
            }
        }
        self.step_of_call(driver, call, within)
    }

    /// The ask, which is due of the driver, where the history has room.
    #[inline(never)]
    fn ask(&mut self, driver: DriverNo, dev: DevNo) -> Entry
        requires call { option_map (λ due. due.0)
            (due_call self.old.line.def driver (reverse self.old.line.entries))
            ≡ Some (calls.Ask dev) }
        requires room { HasRoom self.old.line }
        ensures adds { Adds self.old.line (actors.Driver driver) result self.new.line }
        ensures wiring { self.new.wiring ≡ self.old.wiring }
    {
        put_ask(
            &self.def,
            &mut self.history,
            &mut self.state,
            &mut self.scripts,
            driver,
            dev,
        )
    }

    /// A step of the driver's due call, which has made `within` entries.
    #[inline(never)]
    fn step_of_call<L>(
        &mut self,
        driver: DriverNo,
        call: Call,
        within: u32,
    ) -> Result<Stepped<L>, StepRefused>
        requires call { due_call self.old.line.def driver (reverse self.old.line.entries)
            ≡ Some (call, within) }
        ensures step { IsStepAlone self.old.line (actors.Driver driver) result self.new.line }
        ensures wiring { self.new.wiring ≡ self.old.wiring }
    {
        let Some(step) = self.state.due_of_driver(driver, call, within) else {
            return Ok(Stepped::NotYet);
        };
        let len = self.history.len();
        if len >= self.def.log as usize {
            return Err(self.full(len));
        }
        match self.add(driver, call, step) {
            Ok(entry) => Ok(Stepped::Added(entry)),
            Err(_refused) => Err(StepRefused::NoMemory),
        }
    }

    /// Makes the step, which is due of the driver's call, and adds its entry. If it links no action
    /// and the history has room, it takes no memory.
    #[inline(always)]
    fn add(&mut self, driver: DriverNo, call: Call, step: DriverStep) -> Result<Entry, NoMemory>
        requires call { option_map (λ due. due.0)
            (due_call self.old.line.def driver (reverse self.old.line.entries)) ≡ Some call }
        requires due { next self.old.line.def self.old.line.entries (actors.Driver driver)
            ≡ Some (entry_at self.old.line (steps.Driver driver step)) }
        requires below { length self.old.line.entries < self.old.line.def.log }
        ensures def { self.new.line.def ≡ self.old.line.def }
        ensures entry { IfOk result
            (λ entry. entry ≡ entry_at self.old.line (steps.Driver driver step)) }
        ensures entries { IfOk result
            (λ entry. self.new.line.entries ≡ self.old.line.entries ++ entry ∷ []) }
        ensures spare { OnOk result (self.old.line.spare ≤ self.new.line.spare + 1) }
        ensures refused { OnErr result (self.new ≡ self.old) }
        ensures needless { is_linked_request (entry_at self.old.line (steps.Driver driver step))
            ≡ false
            → 1 ≤ self.old.line.spare → IsOk result }
        ensures wiring { self.new.wiring ≡ self.old.wiring }
    {
        make_room(
            &mut self.state,
            &mut self.history,
            DueStep::Driver { driver, step },
        )?;
        Ok(put_of_call(
            &self.def,
            &mut self.history,
            &mut self.state,
            &mut self.scripts,
            driver,
            call,
            step,
        ))
    }
}

/// Makes the step, which is due of the driver's call, and puts its entry at the history's end,
/// which
/// has room for it. The driver's place moves. An action that is linked needs room too.
#[inline(always)]
fn put_of_call<C: Chip>(
    def: &LineDef,
    history: &mut History,
    state: &mut LineState<C>,
    scripts: &mut Scripts,
    driver: DriverNo,
    call: Call,
    step: DriverStep,
) -> Entry
    requires line { IsLine def.now history.old.entries state.old.state scripts.old
        (runs_seen state.old) }
    requires call { call_of scripts.old driver ≡ Some call }
    requires due { next def.now history.old.entries (actors.Driver driver)
        ≡ Some (driver_entry def.now state.old.state driver step) }
    requires below { length history.old.entries < def.now.log }
    requires room { 1 ≤ history.old.spare }
    requires action { links_by_driver state.old.state step ≡ true → 1 ≤ state.old.spare }
    ensures entry { result ≡ driver_entry def.now state.old.state driver step }
    ensures entries { history.new.entries ≡ history.old.entries ++ result ∷ [] }
    ensures spare { history.old.spare ≤ history.new.spare + 1 }
    ensures line { IsLine def.now history.new.entries state.new.state scripts.new
        (runs_seen state.new) }
    ensures wiring { state.new.fixed.wiring ≡ state.old.fixed.wiring }
{
    let entry = state.make_of_driver(def, driver, step);
    scripts.advance(driver, completes(call, &entry));
    history.push(entry);
    entry
}

/// The same for an ask, which is all that its call makes.
#[inline(always)]
fn put_ask<C: Chip>(
    def: &LineDef,
    history: &mut History,
    state: &mut LineState<C>,
    scripts: &mut Scripts,
    driver: DriverNo,
    dev: DevNo,
) -> Entry
    requires line { IsLine def.now history.old.entries state.old.state scripts.old
        (runs_seen state.old) }
    requires call { call_of scripts.old driver ≡ Some (calls.Ask dev) }
    requires below { length history.old.entries < def.now.log }
    requires room { 1 ≤ history.old.spare }
    ensures entry { result
        ≡ by.Driver driver (drivers.Ask (ask_edge_by def.now dev state.old.state) dev) }
    ensures entries { history.new.entries ≡ history.old.entries ++ result ∷ [] }
    ensures spare { history.old.spare ≤ history.new.spare + 1 }
    ensures line { IsLine def.now history.new.entries state.new.state scripts.new
        (runs_seen state.new) }
    ensures wiring { state.new.fixed.wiring ≡ state.old.fixed.wiring }
{
    let entry = state.ask(def, driver, dev);
    scripts.advance(driver, true);
    history.push(entry);
    entry
}
