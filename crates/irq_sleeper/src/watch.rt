//! What wakes the machine is known at once.
ghost use Rattle.std.specs.Prelude.{◌≡◌, ◌&&◌, ◌∷◌, not, IfOk, List, None};
ghost use Rattle.board_driver.specs.Longer.{last_driver};
ghost use Rattle.board_play.specs.Lines.{Move};
ghost use Rattle.irq_base.specs.declared.numbers.LineNo.{LineNo};
ghost use Rattle.irq_model.specs.Kinds.{is_off, same_line};
ghost use Rattle.irq_pm.specs.Waking.{is_among};
ghost use Rattle.irq_sleeper.specs.Watching.{Watches};
ghost use Rattle.irq_pm.specs.Sleeping.{is_disable_by};

use irq_base::{CallEntry, CpuEntry, DriverNo, Entry, LineNo, NoMemory, TakeAnswer};
use std::alloc::Global;
use std::marker::Model;

/// The system's driver, the last of all.
pub(crate) const SYSTEM: DriverNo = DriverNo(65_535);

/// The armed lines (`irq_set_irq_wake`, `kernel/irq/manage.c`), and what of them is known.
#[derive(Drop)]
pub struct Watch<'a> {
    armed: &'a [LineNo],
    /// Those that the system's driver hasn't disabled yet; the others are `IRQD_WAKEUP_ARMED`.
    awake: Vec<LineNo>,
    /// The line that has woken the machine.
    woken: Option<LineNo>,
}

impl<'a> Model for Watch<'a> {
    ghost use Rattle.irq_sleeper.specs.Watching.{WatchSeen};

    ghost Value = { WatchSeen };

    ghost view = { λ w. record {
      armed = w.armed.now;
      awake = w.awake.items;
      woken = w.woken;
    } };
}

impl<'a> Watch<'a> {
    /// The watch over the armed lines, before the first move. The only error is `NoMemory`.
    pub(crate) fn new(alloc: Global, armed: &'a [LineNo]) -> Result<Watch<'a>, NoMemory>
        ensures { IfOk result
            (λ w. w ≡ record { armed = armed.now; awake = armed.now; woken = None }) }
    {
        let awake = armed.to_vec(alloc)?;
        Ok(Watch {
            armed,
            awake,
            woken: None,
        })
    }

    /// The line that has woken the machine.
    pub(crate) fn woken(&self) -> Option<LineNo>
        ensures { result ≡ self.now.woken }
    {
        self.woken
    }

    /// Takes note of a move (`irq_pm_check_wakeup`, `kernel/irq/pm.c`).
    pub(crate) fn note(&mut self, line: LineNo, entry: Entry)
        ensures armed { self.new.armed ≡ self.old.armed }
        ensures watch { (g : List Move) → Watches self.old g
            → Watches self.new ((line, entry) ∷ g) }
    {
        if is_system_disable(entry) {
            take_out(&mut self.awake, line);
        } else if is_off(entry) && self.woken.is_none() {
            if is_among(line, self.armed) && !is_among(line, self.awake.as_slice()) {
                self.woken = Some(line);
            }
        }
    }
}

/// Takes the line out of these.
fn take_out(lines: &mut Vec<LineNo>, line: LineNo)
    ensures { (other : LineNo) → is_among other lines.new.items
        ≡ (is_among other lines.old.items && not (same_line other line)) }
{
    lines.retain(|l| *l != line);
}

/// Whether the system's driver disables the line.
fn is_system_disable(entry: Entry) -> bool
    ensures { result ≡ is_disable_by last_driver entry }
{
    matches!(entry, Entry::DriverCall(driver, CallEntry::Disable) if driver == SYSTEM)
}

/// Whether it is a take that is answered off.
fn is_off(entry: Entry) -> bool
    ensures { result ≡ is_off entry }
{
    matches!(
        entry,
        Entry::Cpu(
            _,
            CpuEntry::Take {
                answer: TakeAnswer::Off,
                ..
            }
        )
    )
}

/// Whether the line is among these.
fn is_among(line: LineNo, lines: &[LineNo]) -> bool
    ensures { result ≡ is_among line lines.now }
{
    lines.contains(&line)
}
