//! A board: what is declared of a machine and its drivers.
ghost use Rattle.std.specs.Prelude.{◌≡◌, ◌<◌, ◌≤◌, [], ◌∷◌, ◌++◌, length, slice_get, OnOk, OnErr};
ghost use Rattle.board_def.specs.Find.{place_of_name, place_of_line, last_line, last_device};
ghost use Rattle.board_def.specs.Find.{last_driver};
ghost use Rattle.board_def.specs.LineOf.{find_line};
ghost use Rattle.board_def.specs.Rules.{IsBoard, find_device, has_driver, with_answers};

use crate::names::Name;
use crate::rows::{DomainRow, LineRow, RunCall, ScriptCall, ToldRow, wake_thread};
use crate::tables::Table;
use irq_base::{Actor, DevNo, DeviceDef, DriverNo, LineNo, NoMemory};
use std::alloc::Global;
use std::marker::Model;

/// A board that keeps the rules. Contracts see its numbers and its lists. It looks up a domain's
/// name and the numbers of lines, devices and drivers in constant time.
#[derive(Drop)]
pub struct Board {
    version: u32,
    cpus: u32,
    window: u32,
    limit: u32,
    log: u32,
    domains: Table<Name, DomainRow>,
    lines: Table<LineNo, LineRow>,
    devices: Table<DevNo, DeviceDef>,
    told: Vec<ToldRow>,
    runs: Vec<RunCall>,
    drivers: Table<DriverNo, DriverNo>,
    calls: Vec<ScriptCall>,
    picks: Vec<Actor>,
}

impl Model for Board {
    ghost use Rattle.board_def.specs.Seen.{BoardSeen};

    ghost Value = { BoardSeen };

    ghost use Rattle.board_def.specs.Rules.{IsBoard};
    ghost use Rattle.board_def.specs.Inside.{board_seen};

    ghost view = { board_seen };

    ghost invariant = { λ b. IsBoard (board_seen b) };
}

impl Board {
    /// A board of version 1 with nothing declared. `cpus`: the number of processors (1 to 32);
    /// `window` (1 to 1,000,000) and `limit` (below the window): of the rule on spurious
    /// interrupts; `log`: the greatest length of a line's history (1 to 1,000,000).
    pub fn new(alloc: Global, cpus: u32, window: u32, limit: u32, log: u32) -> Board
        requires cpus { (1 ≤ cpus) × (cpus ≤ 32) }
        requires window { window ≤ 1000000 }
        requires limit { limit < window }
        requires log { (1 ≤ log) × (log ≤ 1000000) }
        ensures board { result ≡ record {
          version = 1;
          cpus = cpus;
          window = window;
          limit = limit;
          log = log;
          domains = [];
          lines = [];
          devices = [];
          told = [];
          runs = [];
          drivers = [];
          calls = [];
          picks = [];
        } }
    {
        Board {
            version: 1,
            cpus,
            window,
            limit,
            log,
            domains: Table::new(alloc),
            lines: Table::new(alloc),
            devices: Table::new(alloc),
            told: Vec::new(alloc),
            runs: Vec::new(alloc),
            drivers: Table::new(alloc),
            calls: Vec::new(alloc),
            picks: Vec::new(alloc),
        }
    }

    /// Sets the version of its text.
    pub fn set_version(&mut self, version: u32)
        requires board { IsBoard (record self.old { version = version }) }
        ensures set { self.new ≡ record self.old { version = version } }
    {
        self.version = version;
    }

    /// Sets the number of processors, 1 to 32.
    pub fn set_cpus(&mut self, cpus: u32)
        requires board { IsBoard (record self.old { cpus = cpus }) }
        ensures set { self.new ≡ record self.old { cpus = cpus } }
    {
        self.cpus = cpus;
    }

    /// Sets the window, 1 to 1,000,000, and the limit, below it (`note_interrupt`,
    /// `kernel/irq/spurious.c`).
    pub fn set_spurious(&mut self, window: u32, limit: u32)
        requires board { IsBoard (record self.old { window = window; limit = limit }) }
        ensures set { self.new ≡ record self.old { window = window; limit = limit } }
    {
        self.window = window;
        self.limit = limit;
    }

    /// Sets the greatest length of a line's history, 1 to 1,000,000.
    pub fn set_log(&mut self, log: u32)
        requires board { IsBoard (record self.old { log = log }) }
        ensures set { self.new ≡ record self.old { log = log } }
    {
        self.log = log;
    }

    /// Declares the domain, as the last one. If it is refused, the board is as before.
    pub fn add_domain(&mut self, row: DomainRow) -> Result<(), NoMemory>
        requires board { IsBoard (record self.old { domains = self.old.domains ++ row ∷ [] }) }
        ensures added { OnOk result (self.new
            ≡ record self.old { domains = self.old.domains ++ row ∷ [] }) }
        ensures refused { OnErr result (self.new ≡ self.old) }
    {
        self.domains.push(row)
    }

    /// Declares the line, as the last one. If it is refused, the board is as before.
    pub fn add_line(&mut self, row: LineRow) -> Result<(), NoMemory>
        requires board { IsBoard (record self.old { lines = self.old.lines ++ row ∷ [] }) }
        ensures added { OnOk result (self.new
            ≡ record self.old { lines = self.old.lines ++ row ∷ [] }) }
        ensures refused { OnErr result (self.new ≡ self.old) }
    {
        self.lines.push(row)
    }

    /// Declares the device, as the last one. If it is refused, the board is as before.
    pub fn add_device(&mut self, device: DeviceDef) -> Result<(), NoMemory>
        requires board { IsBoard (record self.old { devices = self.old.devices ++ device ∷ [] }) }
        ensures added { OnOk result (self.new
            ≡ record self.old { devices = self.old.devices ++ device ∷ [] }) }
        ensures refused { OnErr result (self.new ≡ self.old) }
    {
        self.devices.push(device)
    }

    /// Adds what a told device answers, after all other answers; if its handler wakes its thread by
    /// one of them, the device has a thread from then on. If it is refused, the board is as before.
    pub fn add_answers(&mut self, dev: DevNo, rows: &[ToldRow]) -> Result<(), NoMemory>
        requires board { IsBoard (with_answers dev rows.now self.old) }
        ensures added { OnOk result (self.new ≡ with_answers dev rows.now self.old) }
        ensures refused { OnErr result (self.new ≡ self.old) }
    {
        self.told.extend_from_slice(rows)?;
        if wake_thread(dev, rows) {
            self.devices.set_thread(dev);
        }
        Ok(())
    }

    /// Adds the call at the end of the runs' scripts. If it is refused, the board is as before.
    pub fn add_run(&mut self, call: RunCall) -> Result<(), NoMemory>
        requires board { IsBoard (record self.old { runs = self.old.runs ++ call ∷ [] }) }
        ensures added { OnOk result (self.new
            ≡ record self.old { runs = self.old.runs ++ call ∷ [] }) }
        ensures refused { OnErr result (self.new ≡ self.old) }
    {
        self.runs.push(call)?;
        Ok(())
    }

    /// Declares the driver, as the last one. If it is refused, the board is as before.
    pub fn add_driver(&mut self, driver: DriverNo) -> Result<(), NoMemory>
        requires board { IsBoard (record self.old { drivers = self.old.drivers ++ driver ∷ [] }) }
        ensures added { OnOk result (self.new
            ≡ record self.old { drivers = self.old.drivers ++ driver ∷ [] }) }
        ensures refused { OnErr result (self.new ≡ self.old) }
    {
        self.drivers.push(driver)
    }

    /// Adds the call at the end of the scripts. If it is refused, the board is as before.
    pub fn add_call(&mut self, call: ScriptCall) -> Result<(), NoMemory>
        requires board { IsBoard (record self.old { calls = self.old.calls ++ call ∷ [] }) }
        ensures added { OnOk result (self.new
            ≡ record self.old { calls = self.old.calls ++ call ∷ [] }) }
        ensures refused { OnErr result (self.new ≡ self.old) }
    {
        self.calls.push(call)?;
        Ok(())
    }

    /// Adds the pick, as the last one. If it is refused, the board is as before.
    pub fn add_pick(&mut self, pick: Actor) -> Result<(), NoMemory>
        requires board { IsBoard (record self.old { picks = self.old.picks ++ pick ∷ [] }) }
        ensures added { OnOk result (self.new
            ≡ record self.old { picks = self.old.picks ++ pick ∷ [] }) }
        ensures refused { OnErr result (self.new ≡ self.old) }
    {
        self.picks.push(pick)?;
        Ok(())
    }

    /// What holds of every board.
    pub fn is_board(&self)
        ensures board { IsBoard self.now }
    {
        let _ = &self.cpus;
    }

    /// The version of its text.
    pub fn version(&self) -> u32
        ensures { result ≡ self.now.version }
    {
        self.version
    }

    /// The number of processors, 1 to 32.
    pub fn cpus(&self) -> u32
        ensures { result ≡ self.now.cpus }
    {
        self.cpus
    }

    /// How many interrupts of a line are counted before the unhandled ones are judged, 1 to
    /// 1,000,000.
    pub fn window(&self) -> u32
        ensures { result ≡ self.now.window }
    {
        self.window
    }

    /// How many of the counted interrupts may be unhandled, below the window.
    pub fn limit(&self) -> u32
        ensures { result ≡ self.now.limit }
    {
        self.limit
    }

    /// The greatest length of a line's history, 1 to 1,000,000.
    pub fn log(&self) -> u32
        ensures { result ≡ self.now.log }
    {
        self.log
    }

    /// The domain at index `place`, counted from 0; none from the number of domains on.
    pub fn domain(&self, place: usize) -> Option<DomainRow>
        ensures { result ≡ slice_get self.now.domains place }
    {
        self.domains.get(place)
    }

    /// The line at index `place`, counted from 0; none from the number of lines on.
    pub fn line(&self, place: usize) -> Option<LineRow>
        ensures { result ≡ slice_get self.now.lines place }
    {
        self.lines.get(place)
    }

    /// The device at index `place`, counted from 0; none from the number of devices on.
    pub fn device(&self, place: usize) -> Option<DeviceDef>
        ensures { result ≡ slice_get self.now.devices place }
    {
        self.devices.get(place)
    }

    /// The driver at index `place`, counted from 0; none from the number of drivers on.
    pub fn driver(&self, place: usize) -> Option<DriverNo>
        ensures { result ≡ slice_get self.now.drivers place }
    {
        self.drivers.get(place)
    }

    /// The answer at index `place`, counted from 0; none from the number of answers on.
    pub fn answer(&self, place: usize) -> Option<ToldRow>
        ensures { result ≡ slice_get self.now.told place }
    {
        self.told.get(place).copied()
    }

    /// The call at index `place` of the runs' scripts, counted from 0; none from their number on.
    pub fn run(&self, place: usize) -> Option<RunCall>
        ensures { result ≡ slice_get self.now.runs place }
    {
        self.runs.get(place).copied()
    }

    /// The call at index `place` of all scripts, counted from 0; none from the number of calls on.
    pub fn call(&self, place: usize) -> Option<ScriptCall>
        ensures { result ≡ slice_get self.now.calls place }
    {
        self.calls.get(place).copied()
    }

    /// The drivers' scripts, one after another.
    pub fn calls(&self) -> &[ScriptCall]
        ensures { result.now ≡ self.now.calls }
    {
        self.calls.as_slice()
    }

    /// What told devices answer, of each part in turn.
    pub fn told(&self) -> &[ToldRow]
        ensures { result.now ≡ self.now.told }
    {
        self.told.as_slice()
    }

    /// The scripts of handlers' and threads' runs, one after another.
    pub fn runs(&self) -> &[RunCall]
        ensures { result.now ≡ self.now.runs }
    {
        self.runs.as_slice()
    }

    /// The actors whose steps a play makes first.
    pub fn picks(&self) -> &[Actor]
        ensures { result.now ≡ self.now.picks }
    {
        self.picks.as_slice()
    }

    /// The number of domains, at most 32.
    pub fn domains_len(&self) -> usize
        ensures { result ≡ length self.now.domains }
    {
        self.domains.len()
    }

    /// The number of lines, at most 64.
    pub fn lines_len(&self) -> usize
        ensures { result ≡ length self.now.lines }
    {
        self.lines.len()
    }

    /// The number of devices, at most 256.
    pub fn devices_len(&self) -> usize
        ensures { result ≡ length self.now.devices }
    {
        self.devices.len()
    }

    /// The number of answers of told devices, at most 65,536.
    pub fn told_len(&self) -> usize
        ensures { result ≡ length self.now.told }
    {
        self.told.len()
    }

    /// The number of calls of the runs' scripts, at most 256.
    pub fn runs_len(&self) -> usize
        ensures { result ≡ length self.now.runs }
    {
        self.runs.len()
    }

    /// The number of drivers, at most 64.
    pub fn drivers_len(&self) -> usize
        ensures { result ≡ length self.now.drivers }
    {
        self.drivers.len()
    }

    /// The number of calls in all scripts, at most 16,384.
    pub fn calls_len(&self) -> usize
        ensures { result ≡ length self.now.calls }
    {
        self.calls.len()
    }

    /// The number of picks, at most 65,536.
    pub fn picks_len(&self) -> usize
        ensures { result ≡ length self.now.picks }
    {
        self.picks.len()
    }

    /// The place of the domain with this name, counted from 0; none if there is no such domain.
    pub fn find_domain(&self, name: &Name) -> Option<usize>
        ensures { result ≡ place_of_name self.now.domains name.now }
    {
        self.domains.place_of(name)
    }

    /// The line with this number; none if there is no such line.
    pub fn find_line(&self, line: LineNo) -> Option<LineRow>
        ensures { result ≡ find_line self.now.lines line }
    {
        if let Some(row) = self.lines.get(likely_place(line.0))
            && row.line == line
        {
            return Some(row);
        }
        self.lines.find(&line)
    }

    /// The place of the line with this number, counted from 0; none if there is no such line.
    pub fn place_of_line(&self, line: LineNo) -> Option<usize>
        ensures { result ≡ place_of_line self.now.lines line }
    {
        let likely = likely_place(line.0);
        if let Some(row) = self.lines.get(likely)
            && row.line == line
        {
            return Some(likely);
        }
        self.lines.place_of(&line)
    }

    /// The device with this number; none if there is no such device.
    pub fn find_device(&self, dev: DevNo) -> Option<DeviceDef>
        ensures { result ≡ find_device self.now.devices dev }
    {
        if let Some(device) = self.devices.get(likely_place(dev.0))
            && device.dev == dev
        {
            return Some(device);
        }
        self.devices.find(&dev)
    }

    /// Whether the driver is declared.
    pub fn has_driver(&self, driver: DriverNo) -> bool
        ensures { result ≡ has_driver self.now.drivers driver }
    {
        self.drivers.find(&driver).is_some()
    }

    /// The number of the last line, the greatest number of a line; none if there is no line.
    pub fn last_line(&self) -> Option<LineNo>
        ensures { result ≡ last_line self.now.lines }
    {
        Some(self.lines.last()?.line)
    }

    /// The number of the last device, the greatest number of a device; none if there is no device.
    pub fn last_device(&self) -> Option<DevNo>
        ensures { result ≡ last_device self.now.devices }
    {
        Some(self.devices.last()?.dev)
    }

    /// The number of the last driver, the greatest number of a driver; none if there is no driver.
    pub fn last_driver(&self) -> Option<DriverNo>
        ensures { result ≡ last_driver self.now.drivers }
    {
        self.drivers.last()
    }
}

/// Where the row of a number is looked for before any search: lines and devices are mostly numbered
/// from 1 on.
fn likely_place(number: u32) -> usize {
    number.saturating_sub(1) as usize
}
