//! The histories that a run of the program hands out.
ghost use Rattle.std.specs.Prelude.{◌≡◌, ℕ, ◌+◌, ◌-◌, ◌<◌, ◌≤◌, ◌==◌, [], ◌∷◌, ◌++◌, length};
ghost use Rattle.std.specs.Prelude.{IfOk, OnOk, OnErr, IsOk, slice_get, slice_set, Some};
ghost use Rattle.std.specs.Borrow.{Lends, sem};
ghost use Rattle.irq_base.specs.contracts.reporting.Logs.{the_row as logs_row};
ghost use Rattle.irq_base.specs.contracts.histories.History.{the_row as history_row};
ghost use Rattle.std.specs.Option.{option_copied};

use crate::histories::History;
use crate::memory::NoMemory;
use crate::numbers::LineNo;
use std::alloc::Global;
use std::marker::Model;

/// A line's number and its history.
#[derive(Drop)]
pub struct LineReport {
    /// The line's number.
    pub line: LineNo,
    /// All its entries, the oldest first.
    pub history: History,
}

/// One report for each line. Contracts see the list of the reports, and `spare`, how many more fit
/// without memory.
#[derive(Drop)]
pub struct Reports {
    reports: Vec<LineReport>,
}

impl Model for Reports {
    ghost use Rattle.std.specs.Prelude.{◌-◌, vec_len, vec_capacity};
    ghost use Rattle.irq_base.specs.ReportsSeen.{ReportsSeen};

    ghost Value = { ReportsSeen };

    ghost view = { λ r. record {
      reports = r.reports.items;
      spare = vec_capacity r.reports - vec_len r.reports;
    } };
}

impl Reports {
    /// The empty list. It takes no memory yet.
    pub fn new(alloc: Global) -> Reports
        ensures { result.reports ≡ [] }
    {
        Reports {
            reports: Vec::new(alloc),
        }
    }

    /// Makes room for `n` more reports. If it is refused, all is as before.
    pub fn reserve(&mut self, n: usize) -> Result<(), NoMemory>
        ensures room { OnOk result (n ≤ self.new.spare) }
        ensures same { self.new.reports ≡ self.old.reports }
        ensures refused { OnErr result (self.new ≡ self.old) }
    {
        self.reports.reserve(n)?;
        Ok(())
    }

    /// Adds the report at the end. If it is refused, the list is as before; with spare room it
    /// isn't refused.
    pub fn push(&mut self, report: LineReport) -> Result<(), NoMemory>
        ensures ok { OnOk result (self.new.reports ≡ self.old.reports ++ report ∷ []) }
        ensures err { OnErr result (self.new ≡ self.old) }
        ensures succeeds { 1 ≤ self.old.spare → IsOk result }
        ensures spare { 1 ≤ self.old.spare → self.new.spare ≡ self.old.spare - 1 }
    {
        if self.reports.len() == self.reports.capacity() {
            self.reports.reserve(1)?;
        }
        self.reports.push_reserved(report);
        Ok(())
    }

    /// The number of reports.
    pub fn len(&self) -> usize
        ensures { result ≡ length self.now.reports }
    {
        self.reports.len()
    }

    /// Whether there are none.
    pub fn is_empty(&self) -> bool
        ensures { result ≡ (length self.now.reports == 0) }
    {
        self.reports.is_empty()
    }

    /// The report at index `place`, counted from 0; none from the length on.
    pub fn get(&self, place: usize) -> Option<&LineReport>
        ensures { option_copied result ≡ slice_get self.now.reports place }
    {
        self.reports.get(place)
    }
}

/// One history for each line of a board. Contracts see the list of the histories.
#[derive(Drop)]
pub struct Logs {
    histories: Vec<History>,
}

impl Model for Logs {
    ghost use Rattle.std.specs.Prelude.{List};
    ghost use Rattle.irq_base.specs.Seen.{HistorySeen};

    ghost Value = { List HistorySeen };

    ghost view = { λ l. l.histories.items };
}

impl Logs {
    /// The empty list. It takes no memory yet.
    pub fn new(alloc: Global) -> Logs
        ensures { result ≡ [] }
    {
        Logs {
            histories: Vec::new(alloc),
        }
    }

    /// Adds the history at the end. If it is refused, the list is as before.
    pub fn push(&mut self, history: History) -> Result<(), NoMemory>
        ensures ok { OnOk result (self.new ≡ self.old ++ history ∷ []) }
        ensures err { OnErr result (self.new ≡ self.old) }
    {
        self.histories.push(history)?;
        Ok(())
    }

    /// The number of histories.
    pub fn len(&self) -> usize
        ensures { result ≡ length self.now }
    {
        self.histories.len()
    }

    /// Whether there are none.
    pub fn is_empty(&self) -> bool
        ensures { result ≡ (length self.now == 0) }
    {
        self.histories.is_empty()
    }

    /// The history at index `place`, counted from 0; none from the length on.
    pub fn get(&self, place: usize) -> Option<&History>
        ensures { option_copied result ≡ slice_get self.now place }
    {
        self.histories.get(place)
    }

    /// The history at index `place`, below the length, to be written. All others stay as they are.
    pub fn history_mut(&mut self, place: usize) -> &mut History
        requires { place < length self.old }
        ensures* writes_back { sem 𝓛 (Lends logs_row history_row self.entry result
            (slice_set self.old place)) }
        ensures value { slice_get self.old place ≡ Some result.now }
    {
        &mut self.histories[place]
    }
}
