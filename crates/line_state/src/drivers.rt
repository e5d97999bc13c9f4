//! The calls that drivers alone make, but for asks and requests.
ghost use Rattle.std.specs.Prelude.{◌≡◌, ◌≤◌};
ghost use Rattle.irq_base.specs.declared.entries.Entry.TheVariants as by;
ghost use Rattle.irq_base.specs.declared.entries.DriverEntry.TheVariants as drivers;
ghost use Rattle.irq_base.specs.declared.lines.LineDef.{LineDef};
ghost use Rattle.affinity.specs.Seen.{set_answer};
ghost use Rattle.line_marks.specs.State.{state_after};

use crate::state::LineState;
use irq_base::{AffinityAnswer, Chip, DriverEntry, DriverNo, Entry};

impl<C: Chip> LineState<C> {
    /// `irq_set_affinity`: if a mask is in force at once, the chip is aimed by it from now on.
    pub(crate) fn affinity(&mut self, driver: DriverNo, mask: u32) -> Entry
        requires { self.old.state.aim.cpus ≤ 32 }
        ensures entry { result
            ≡ by.Driver driver (drivers.Affinity (set_answer self.old.state.aim mask) mask) }
        ensures state { (def : LineDef)
            → self.new.state ≡ state_after def result self.old.state }
        ensures fixed { self.new.fixed ≡ self.old.fixed }
    {
        let answer = self.aim.set(mask);
        if answer == AffinityAnswer::Now {
            self.aim_chip();
        }
        Entry::Driver(driver, DriverEntry::Affinity { answer, mask })
    }

    /// The time is handed in.
    pub(crate) fn moment(&mut self, driver: DriverNo, at: u32) -> Entry
        ensures entry { result ≡ by.Driver driver (drivers.Moment at) }
        ensures state { (def : LineDef)
            → self.new.state ≡ state_after def result self.old.state }
        ensures fixed { self.new.fixed ≡ self.old.fixed }
    {
        self.round.set_moment(at);
        Entry::Driver(driver, DriverEntry::Moment { at })
    }
}
