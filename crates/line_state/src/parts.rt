//! The parts, lent and put. A search writes a line's state as numbers, and makes it again of them.
ghost use Rattle.std.specs.Prelude.{◌≡◌, ◌≤◌, ◌+◌, ◌<◌, true, false, length, OnOk, OnErr, IsOk};
ghost use Rattle.irq_base.specs.declared.entries.LinkAnswer.TheVariants as links;
ghost use Rattle.device_table.specs.Rows.{change};
ghost use Rattle.act_list.specs.Actions.{has, is_mismatch};
ghost use Rattle.act_list.specs.Lists.{after_begin, after_link, unlinked};
ghost use Rattle.line_state.specs.Seen.{runs_seen};

use crate::round::Round;
use crate::state::LineState;
use act_list::ActList;
use act_thread::{ThreadRow, Threads};
use affinity::Aim;
use ask_counts::{AskRow, Asks, FactTable};
use desc_state::Desc;
use irq_base::{Actor, Chip, DevNo, Flags, NoMemory};
use run_scripts::{RunPlace, RunRow, RunScripts};
use spurious::Counts;

impl<C: Chip> LineState<C> {
    /// The descriptor.
    pub fn desc(&self) -> &Desc
        ensures { result.now ≡ self.now.state.desc }
    {
        &self.desc
    }

    /// The affinity.
    pub fn aim(&self) -> &Aim
        ensures { result.now ≡ self.now.state.aim }
    {
        &self.aim
    }

    /// The linked actions, and whose handler was called in the round.
    pub fn actions(&self) -> &ActList
        ensures { result.now.list ≡ self.now.state.list }
    {
        &self.actions
    }

    /// The threads.
    pub fn threads(&self) -> &Threads
        ensures { result.now ≡ self.now.state.threads }
    {
        &self.threads
    }

    /// The asks.
    pub fn asks(&self) -> &Asks
        ensures { result.now ≡ self.now.state.asks }
    {
        &self.asks
    }

    /// What is fixed of the devices.
    pub fn facts(&self) -> &FactTable
        ensures { result.now ≡ self.now.state.facts }
    {
        &self.facts
    }

    /// The scripts of the runs, and how far they are.
    pub fn runs(&self) -> &RunScripts
        ensures { result.now ≡ runs_seen self.now }
    {
        &self.runs
    }

    /// The round of the flow.
    pub fn round(&self) -> &Round
        ensures { result.now ≡ self.now.state.round }
    {
        &self.round
    }

    /// The counts of the rule on spurious interrupts.
    pub fn counts(&self) -> &Counts
        ensures { result.now ≡ self.now.state.counts }
    {
        &self.counts
    }

    /// Puts another descriptor in place of this one.
    pub fn put_desc(&mut self, desc: Desc)
        ensures { self.new ≡ record self.old { state = record self.old.state { desc = desc } } }
    {
        self.desc = desc;
    }

    /// Puts another affinity in place of this one. The chip stays aimed as it is.
    pub fn put_aim(&mut self, aim: Aim)
        ensures { self.new ≡ record self.old { state = record self.old.state { aim = aim } } }
    {
        self.aim = aim;
    }

    /// Puts another row in place of the device's thread's; nothing for a device that the line
    /// lacks.
    pub fn put_thread(&mut self, dev: DevNo, row: ThreadRow)
        ensures { self.new ≡ record self.old {
          state = record self.old.state {
            threads = change (λ _. row) self.old.state.threads dev;
          };
        } }
    {
        self.threads.put(dev, row);
    }

    /// Puts another row in place of the device's asks; nothing for a device that the line lacks.
    pub fn put_asks(&mut self, dev: DevNo, row: AskRow)
        ensures { self.new ≡ record self.old {
          state = record self.old.state {
            asks = change (λ _. row) self.old.state.asks dev;
          };
        } }
    {
        self.asks.put(dev, row);
    }

    /// Puts another row in place of the device's runs; nothing for a device that the line lacks.
    pub fn put_run(&mut self, dev: DevNo, row: RunRow)
        ensures { self.new ≡ record self.old {
          state = record self.old.state {
            places = record self.old.state.places {
              rows = change (λ _. row) self.old.state.places.rows dev;
            };
          };
        } }
    {
        self.runs.put(dev, row);
    }

    /// Says how far the handler is that is at work.
    pub fn put_work(&mut self, place: RunPlace)
        ensures { self.new ≡ record self.old {
          state = record self.old.state {
            places = record self.old.state.places { work = place };
          };
        } }
    {
        self.runs.set_work(place);
    }

    /// Puts another round in place of this one.
    pub fn put_round(&mut self, round: Round)
        ensures { self.new ≡ record self.old { state = record self.old.state { round = round } } }
    {
        self.round = round;
    }

    /// Puts other counts in place of these.
    pub fn put_counts(&mut self, counts: Counts)
        ensures { self.new ≡ record self.old { state = record self.old.state { counts = counts } } }
    {
        self.counts = counts;
    }

    /// Says who frees which device, if somebody does.
    pub fn put_freeing(&mut self, freeing: Option<(Actor, DevNo)>)
        ensures { self.new ≡ record self.old {
          state = record self.old.state { freeing = freeing };
        } }
    {
        self.freeing = freeing;
    }

    /// Makes the list of actions as it was when nothing had been linked yet. Its memory is kept.
    pub fn clear_actions(&mut self)
        ensures state { self.new.state ≡ record self.old.state {
          list = unlinked self.old.state.list;
        } }
        ensures spare { self.old.spare ≤ self.new.spare }
        ensures fixed { self.new.fixed ≡ self.old.fixed }
    {
        self.actions.clear();
    }

    /// Links the device with these flags at the end of the list, as in a state in which it is
    /// linked; nothing else changes. The only error is `NoMemory`, which comes only if there was no
    /// room.
    pub fn relink(&mut self, dev: DevNo, flags: Flags) -> Result<(), NoMemory>
        requires absent { has dev self.old.state.list.actions ≡ false }
        requires goes { is_mismatch flags self.old.state.list.actions ≡ false }
        requires bits { flags.oneshot ≡ true → length self.old.state.list.actions < 64 }
        ensures state { OnOk result (self.new.state ≡ record self.old.state {
          list = after_link links.Linked dev flags self.old.state.list;
        }) }
        ensures refused { OnErr result (self.new.state ≡ self.old.state) }
        ensures room { 1 ≤ self.old.spare → IsOk result }
        ensures spare { self.old.spare ≤ self.new.spare + 1 }
        ensures fixed { self.new.fixed ≡ self.old.fixed }
    {
        self.actions.relink(dev, flags)
    }

    /// Says that the device's handler was called in the round; nothing for a device that the line
    /// lacks.
    pub fn put_begun(&mut self, dev: DevNo)
        ensures { self.new ≡ record self.old {
          state = record self.old.state {
            list = after_begin dev self.old.state.list;
          };
        } }
    {
        self.actions.begin(dev);
    }
}

impl<C: Chip + Drop> LineState<C> {
    /// Puts another chip in place of this one.
    pub fn put_chip(&mut self, chip: C)
        ensures state { self.new.state ≡ record self.old.state {
          cell = C.cell chip;
          active = C.active chip;
          aimed = C.aimed chip;
        } }
        ensures spare { self.new.spare ≡ self.old.spare }
        ensures fixed { self.new.fixed ≡ record self.old.fixed { wiring = C.wiring chip } }
    {
        self.chip = chip;
    }
}
