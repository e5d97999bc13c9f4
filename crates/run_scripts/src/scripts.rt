//! The scripts and the answers of a line's runs.
ghost use Rattle.std.specs.Prelude.{◌≡◌, ◌+◌, ◌^◌, ◌<◌, ◌≤◌, true, [], length, IsSome, IfOk};
ghost use Rattle.std.specs.List.{list_any};
ghost use Rattle.irq_model.specs.Valid.{HasDistinctDevices};
ghost use Rattle.irq_model.specs.ValidRuns.{may_wait};
ghost use Rattle.device_table.specs.Rows.{change, all_with};
ghost use Rattle.run_scripts.specs.Places.{first_place, first_row, row_at, place_at, turn_at};
ghost use Rattle.run_scripts.specs.Places.{after_begin, after_return, after_call, placed};
ghost use Rattle.run_scripts.specs.Places.{handler_begun, thread_begun, row_advanced};
ghost use Rattle.run_scripts.specs.Runs.{AreRunsOf, answers_of, call_of, due_of, told_of};

use crate::groups::Groups;
use crate::rows::{RunPlace, RunRow, Turn};
use device_table::DeviceTable;
use irq_base::{Call, DevNo, LineDef, NoMemory, Part, ToldAnswer};
use std::alloc::Global;
use std::marker::Model;

/// Which calls the runs of a line's devices make, what those of told devices answer, and how far
/// the runs are. Contracts see the calls and the answers, which never change, and the places: one
/// for the handler that is at work, and a row for each device.
#[derive(Drop)]
pub struct RunScripts {
    // Nothing is called and nothing told, so that nothing ever changes.
    bare: bool,
    // Some call may wait for its own run.
    waits: bool,
    calls: Groups<Call>,
    answers: Groups<ToldAnswer>,
    work: RunPlace,
    rows: DeviceTable<RunRow>,
}

impl Model for RunScripts {
    ghost use Rattle.run_scripts.specs.Runs.{RunsSeen, IsKept};

    ghost Value = { RunsSeen };

    ghost view = { λ s. record {
      calls = s.calls;
      answers = s.answers;
      places = record { work = s.work; rows = s.rows };
    } };

    ghost invariant = { λ s. IsKept s.bare s.waits s.calls.items s.answers.items s.work s.rows };
}

impl RunScripts {
    /// The scripts and answers of the definition; no run has begun. The only error is `NoMemory`.
    pub fn new(alloc: Global, def: &LineDef) -> Result<RunScripts, NoMemory>
        requires distinct { HasDistinctDevices def.now.devices }
        requires few { length def.now.devices ≤ 256 }
        requires few_calls { length def.now.runs ≤ 256 }
        requires few_answers { length def.now.told ≤ 65536 }
        ensures runs { IfOk result (λ s. AreRunsOf def.now s) }
        ensures places { IfOk result (λ s. s.places
            ≡ record { work = first_place; rows = all_with first_row def.now.devices }) }
    {
        let calls = Groups::new(alloc, &def.devices, &def.runs)?;
        let answers = Groups::new(alloc, &def.devices, &def.told)?;
        let rows = DeviceTable::new(alloc, &def.devices, RunRow::FIRST)?;
        let bare = are_bare(&calls, &answers);
        let waits = may_any_wait(calls.items());
        Ok(RunScripts {
            bare,
            waits,
            calls,
            answers,
            work: RunPlace::FIRST,
            rows,
        })
    }

    /// Whether some call of a run may wait for its own run.
    #[inline(always)]
    pub fn may_wait(&self) -> bool
        ensures { result ≡ list_any may_wait self.now.calls.items }
    {
        self.waits
    }

    /// The first call that isn't complete of the run that is there, and how many entries it has
    /// made; none if all are complete. Whether the run makes calls at all, its answer says.
    #[inline(always)]
    pub fn due(&self, dev: DevNo, part: Part) -> Option<(Call, u32)>
        ensures { result ≡ due_of self.now dev part }
    {
        if self.bare {
            return None;
        }
        self.call_left(dev, part)
    }

    /// That call, where something is called at all.
    fn call_left(&self, dev: DevNo, part: Part) -> Option<(Call, u32)>
        ensures { result ≡ due_of self.now dev part }
    {
        let at = self.place(dev, part);
        let call = self.calls.get(dev, part, at.place)?;
        Some((call, at.within))
    }

    /// What the run that is there is told to answer; none past the last answer, and of a device
    /// that isn't told.
    #[inline(always)]
    pub fn told(&self, dev: DevNo, part: Part) -> Option<ToldAnswer>
        ensures { result ≡ told_of self.now dev part }
    {
        if self.bare {
            return None;
        }
        self.answer_told(dev, part)
    }

    /// That answer, where something is told at all.
    fn answer_told(&self, dev: DevNo, part: Part) -> Option<ToldAnswer>
        ensures { result ≡ told_of self.now dev part }
    {
        let turn = self.turn(dev, part);
        self.answers.get(dev, part, turn.now)
    }

    /// How far the run of that part of the device is with its calls.
    pub fn place(&self, dev: DevNo, part: Part) -> RunPlace
        ensures { result ≡ place_at self.now.places dev part }
    {
        match part {
            Part::Primary => self.work,
            Part::Thread => self.row(dev).calls,
        }
    }

    /// Which answers that part of the device has.
    pub fn turn(&self, dev: DevNo, part: Part) -> Turn
        ensures { result ≡ turn_at self.now.places dev part }
    {
        let row = self.row(dev);
        match part {
            Part::Primary => row.handler,
            Part::Thread => row.thread,
        }
    }

    /// The row of the device; that of no runs for one that the line lacks.
    pub fn row(&self, dev: DevNo) -> RunRow
        ensures { result ≡ row_at self.now.places.rows dev }
    {
        match self.rows.get(dev) {
            Some(row) => row,
            None => RunRow::FIRST,
        }
    }

    /// A run of that part of the device begins: its calls begin anew, and it has the part's next
    /// answer.
    #[inline(always)]
    pub fn begin(&mut self, dev: DevNo, part: Part)
        ensures { self.new ≡ record self.old {
          places = after_begin (length (answers_of self.old dev part)) dev part self.old.places;
        } }
    {
        if self.bare {
            return;
        }
        self.begin_run(dev, part);
    }

    /// The same, where something is called or told.
    fn begin_run(&mut self, dev: DevNo, part: Part)
        ensures { self.new ≡ record self.old {
          places = after_begin (length (answers_of self.old dev part)) dev part self.old.places;
        } }
    {
        let count = self.answers.count(dev, part);
        match part {
            Part::Primary => self.begin_handler(dev, count),
            Part::Thread => self.begin_thread(dev, count),
        }
    }

    /// A run of the device's handler begins; there are `count` answers.
    fn begin_handler(&mut self, dev: DevNo, count: u32)
        ensures { self.new ≡ record self.old {
          places = record {
            work = first_place;
            rows = change (handler_begun count) self.old.places.rows dev;
          };
        } }
    {
        self.bare = false;
        self.work = RunPlace::FIRST;
        let Some(row) = self.rows.get(dev) else {
            return;
        };
        let handler = row.handler.turned(count);
        self.rows.set(dev, RunRow { handler, ..row });
    }

    /// A run of the device's thread begins; there are `count` answers.
    fn begin_thread(&mut self, dev: DevNo, count: u32)
        ensures { self.new ≡ record self.old {
          places = record self.old.places {
            rows = change (thread_begun count) self.old.places.rows dev;
          };
        } }
    {
        self.bare = false;
        let Some(row) = self.rows.get(dev) else {
            return;
        };
        let thread = row.thread.turned(count);
        let calls = RunPlace::FIRST;
        self.rows.set(
            dev,
            RunRow {
                calls,
                thread,
                ..row
            },
        );
    }

    /// The run of that part of the device returns.
    #[inline(always)]
    pub fn returned(&mut self, dev: DevNo, part: Part)
        ensures { self.new
            ≡ record self.old { places = after_return dev part self.old.places } }
    {
        if self.bare {
            return;
        }
        self.end_run(dev, part);
    }

    /// The same, where something is called or told.
    fn end_run(&mut self, dev: DevNo, part: Part)
        ensures { self.new
            ≡ record self.old { places = after_return dev part self.old.places } }
    {
        self.bare = false;
        match part {
            Part::Primary => self.work = RunPlace::FIRST,
            Part::Thread => self.go_to(dev, RunPlace::FIRST),
        }
    }

    /// One more entry of the due call of that part of the device was added. `completes`: it was the
    /// last one.
    pub fn advance(&mut self, dev: DevNo, part: Part, completes: bool)
        requires due { IsSome (call_of self.old dev part) }
        requires within { (place_at self.old.places dev part).within + 1 < 2 ^ 32 }
        ensures { self.new
            ≡ record self.old { places = after_call completes dev part self.old.places } }
    {
        let count = self.calls.count(dev, part);
        let at = self.place(dev, part);
        if at.place >= count {
            unreachable!();
        }
        self.bare = false;
        match part {
            Part::Primary => self.work = at.advanced(completes),
            Part::Thread => self.go_to(dev, at.advanced(completes)),
        }
    }

    /// The thread's run goes to that place; nothing changes if the line lacks the device.
    pub fn go_to(&mut self, dev: DevNo, place: RunPlace)
        ensures { self.new ≡ record self.old {
          places = record self.old.places {
            rows = change (placed place) self.old.places.rows dev;
          };
        } }
    {
        self.bare = false;
        let Some(row) = self.rows.get(dev) else {
            return;
        };
        self.rows.set(
            dev,
            RunRow {
                calls: place,
                ..row
            },
        );
    }

    /// How far the handler is that is at work.
    pub fn work(&self) -> RunPlace
        ensures { result ≡ self.now.places.work }
    {
        self.work
    }

    /// The handler that is at work goes to that place.
    pub fn set_work(&mut self, place: RunPlace)
        ensures { self.new ≡ record self.old {
          places = record self.old.places {
            work = place;
          };
        } }
    {
        self.bare = false;
        self.work = place;
    }

    /// Puts another row in the place of the device's; nothing changes if the line lacks the device.
    pub fn put(&mut self, dev: DevNo, row: RunRow)
        ensures { self.new ≡ record self.old {
          places = record self.old.places {
            rows = change (λ _. row) self.old.places.rows dev;
          };
        } }
    {
        self.bare = false;
        if self.rows.get(dev).is_some() {
            self.rows.set(dev, row);
        }
    }
}

/// Whether one of the calls may wait for its own run.
fn may_any_wait(calls: &[Call]) -> bool
    ensures { result ≡ list_any may_wait calls.now }
{
    for call in calls {
        if may_wait(*call) {
            return true;
        }
    }
    false
}

/// Whether the call may wait for its own run.
fn may_wait(call: Call) -> bool
    ensures { result ≡ may_wait call }
{
    matches!(call, Call::Disable | Call::Sync | Call::Free { .. })
}

/// Whether nothing is called and nothing told.
fn are_bare(calls: &Groups<Call>, answers: &Groups<ToldAnswer>) -> bool
    ensures calls { result ≡ true → calls.now.items ≡ [] }
    ensures answers { result ≡ true → answers.now.items ≡ [] }
{
    calls.is_empty() && answers.is_empty()
}
