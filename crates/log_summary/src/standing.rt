//! Whether a line has linked devices, and whether it is disabled.
ghost use Rattle.std.specs.Prelude.{◌≡◌, ◌^◌, ◌<◌, ◌≤◌, [], List, length, not, if◌then◌else◌};
ghost use Rattle.irq_base.specs.declared.entries.Entry.{Entry};
ghost use Rattle.irq_model.specs.Kinds.{is_lowering_opened, opened_by_enable};
ghost use Rattle.log_summary.specs.Standings.{StandsAfter, called_standing};
ghost use Rattle.log_summary.specs.Standings.{requested_standing, standing_with};
ghost use Rattle.log_summary.specs.Texts.{state_word};

use irq_base::{
    CallEntry, CpuEntry, DriverEntry, EnableAnswer, Entry, LinkAnswer, Note, Opened, UnlinkAnswer,
};

/// How a line stands. The depth (`desc->depth`) is kept as two sums: the line is disabled if the
/// depth was raised further than it was lowered.
#[derive(Clone, Copy)]
pub(crate) struct Standing {
    /// A device is linked.
    pub(crate) linked: bool,
    /// What the depth was raised to since it was last set anew, by a first request or a last
    /// unlink.
    pub(crate) raised: u32,
    /// How often it was lowered since then.
    pub(crate) lowered: u32,
}

impl Standing {
    /// A line to which nothing has happened.
    pub(crate) fn new() -> Standing
        ensures { StandsAfter [] result }
    {
        Standing {
            linked: false,
            raised: 1,
            lowered: 0,
        }
    }

    /// What one more entry makes of it.
    pub(crate) fn add(&mut self, entry: Entry)
        requires raised { self.old.raised < 2 ^ 31 }
        requires lowered { self.old.lowered < 2 ^ 31 }
        ensures with { self.new ≡ standing_with self.old entry }
    {
        match entry {
            Entry::Cpu(
                _,
                CpuEntry::End {
                    note: Note::Killed,
                    ..
                },
            ) => self.raised += 1,
            Entry::Driver(_, DriverEntry::Request { answer, opened, .. }) => {
                self.request(answer, opened);
            }
            Entry::CpuCall(_, call) | Entry::ThreadCall(_, call) | Entry::DriverCall(_, call) => {
                self.call(call);
            }
            Entry::Cpu(_, _) | Entry::Thread(_, _) | Entry::Driver(_, _) => {}
        }
    }

    // A call was made: a disable raises the depth, an enable may lower it.
    fn call(&mut self, call: CallEntry)
        requires raised { self.old.raised < 2 ^ 31 }
        requires lowered { self.old.lowered < 2 ^ 31 }
        ensures { self.new ≡ called_standing self.old call }
    {
        match call {
            CallEntry::Disable => self.raised += 1,
            CallEntry::Enable { answer } => self.lowered += u32::from(lowers(opened_by(answer))),
            CallEntry::Unlink {
                answer: UnlinkAnswer::Unlinked { last },
                ..
            } => self.unlink(last),
            CallEntry::HardClear
            | CallEntry::Synced
            | CallEntry::Unlink { .. }
            | CallEntry::Freed { .. }
            | CallEntry::Wake { .. }
            | CallEntry::Quiet { .. }
            | CallEntry::Arm { .. }
            | CallEntry::Serve { .. } => {}
        }
    }

    // A request came: if it links the first device, it sets the depth anew.
    fn request(&mut self, answer: LinkAnswer, opened: Opened)
        requires { self.old.lowered < 2 ^ 31 }
        ensures { self.new ≡ requested_standing self.old answer opened }
    {
        let is_linked = answer == LinkAnswer::Linked;
        if is_linked && !self.linked {
            self.raised = u32::from(!matches!(opened, Opened::Started { .. }));
            self.lowered = 0;
        } else {
            self.lowered += u32::from(lowers(opened));
        }
        self.linked = self.linked || is_linked;
    }

    // A device was unlinked: the unlink of the last device leaves the line disabled once.
    fn unlink(&mut self, last: bool)
        ensures linked { self.new.linked ≡ not last }
        ensures raised { self.new.raised ≡ (if last then 1 else self.old.raised) }
        ensures lowered { self.new.lowered ≡ (if last then 0 else self.old.lowered) }
    {
        self.linked = !last;
        if last {
            self.raised = 1;
            self.lowered = 0;
        }
    }

    /// The word for it.
    pub(crate) fn word(&self) -> &'static [u8]
        ensures word { (past : List Entry) → StandsAfter past self.now
            → result.now ≡ state_word past }
        ensures short { length result.now ≤ 8 }
    {
        if !self.linked {
            b"stopped"
        } else if self.lowered < self.raised {
            b"disabled"
        } else {
            b"enabled"
        }
    }
}

// What an enable made of the depth.
fn opened_by(answer: EnableAnswer) -> Opened
    ensures { result ≡ opened_by_enable answer }
{
    match answer {
        EnableAnswer::Unbalanced => Opened::Unbalanced,
        EnableAnswer::Lowered => Opened::Lowered,
        EnableAnswer::Started { resend } => Opened::Started { resend },
    }
}

// Whether the depth is one less.
fn lowers(opened: Opened) -> bool
    ensures { result ≡ is_lowering_opened opened }
{
    matches!(opened, Opened::Lowered | Opened::Started { .. })
}
