//! The small answers of an entry as numbers from 0 on, and back. A number too large for its type is
//! read as the type's last answer.
ghost use Rattle.std.specs.Prelude.{◌≡◌, ◌<◌, ◌%◌, ◌/◌};
ghost use Rattle.irq_base.specs.Codes.{way_at, take_at, answer_at, note_at, resend_at, error_at};
ghost use Rattle.irq_base.specs.Codes.{enable_at, opened_at, link_at, unlink_at, affinity_at};
ghost use Rattle.irq_base.specs.Codes.{flag_at};

use crate::devices::Answer;
use crate::entries::{
    AffinityAnswer, EnableAnswer, Errno, LinkAnswer, Note, Opened, Resend, TakeAnswer,
    UnlinkAnswer, Way,
};

#[tactic(auto, unfolding(crate::specs::Codes::flag_at))]
pub fn flag_number(flag: bool) -> u32
    ensures below { result < 2 }
    ensures back { flag_at result ≡ flag }
{
    if flag { 1 } else { 0 }
}

#[tactic(auto, unfolding(crate::specs::Codes::flag_at))]
pub fn flag_at(n: u32) -> bool
    ensures { result ≡ flag_at n }
{
    n == 1
}

#[tactic(auto, unfolding(crate::specs::Codes::way_at))]
pub fn way_number(way: Way) -> u32
    ensures below { result < 2 }
    ensures back { way_at result ≡ way }
{
    match way {
        Way::Line => 0,
        Way::Resend => 1,
    }
}

#[tactic(auto, unfolding(crate::specs::Codes::way_at))]
pub fn way_at(n: u32) -> Way
    ensures { result ≡ way_at n }
{
    match n {
        0 => Way::Line,
        _ => Way::Resend,
    }
}

#[tactic(auto, unfolding(crate::specs::Codes::take_at))]
pub fn take_number(answer: TakeAnswer) -> u32
    ensures below { result < 3 }
    ensures back { take_at result ≡ answer }
{
    match answer {
        TakeAnswer::Handle => 0,
        TakeAnswer::Busy => 1,
        TakeAnswer::Off => 2,
    }
}

#[tactic(auto, unfolding(crate::specs::Codes::take_at))]
pub fn take_at(n: u32) -> TakeAnswer
    ensures { result ≡ take_at n }
{
    match n {
        0 => TakeAnswer::Handle,
        1 => TakeAnswer::Busy,
        _ => TakeAnswer::Off,
    }
}

#[tactic(auto, unfolding(crate::specs::Codes::answer_at))]
pub fn answer_number(answer: Answer) -> u32
    ensures below { result < 3 }
    ensures back { answer_at result ≡ answer }
{
    match answer {
        Answer::Nothing => 0,
        Answer::Handled => 1,
        Answer::Wake => 2,
    }
}

#[tactic(auto, unfolding(crate::specs::Codes::answer_at))]
pub fn answer_at(n: u32) -> Answer
    ensures { result ≡ answer_at n }
{
    match n {
        0 => Answer::Nothing,
        1 => Answer::Handled,
        _ => Answer::Wake,
    }
}

#[tactic(auto, unfolding(crate::specs::Codes::note_at))]
pub fn note_number(note: Note) -> u32
    ensures below { result < 3 }
    ensures back { note_at result ≡ note }
{
    match note {
        Note::Quiet => 0,
        Note::Counted => 1,
        Note::Killed => 2,
    }
}

#[tactic(auto, unfolding(crate::specs::Codes::note_at))]
pub fn note_at(n: u32) -> Note
    ensures { result ≡ note_at n }
{
    match n {
        0 => Note::Quiet,
        1 => Note::Counted,
        _ => Note::Killed,
    }
}

#[tactic(auto, unfolding(crate::specs::Codes::resend_at))]
pub fn resend_number(resend: Resend) -> u32
    ensures below { result < 3 }
    ensures back { resend_at result ≡ resend }
{
    match resend {
        Resend::No => 0,
        Resend::Chip => 1,
        Resend::Soft => 2,
    }
}

#[tactic(auto, unfolding(crate::specs::Codes::resend_at))]
pub fn resend_at(n: u32) -> Resend
    ensures { result ≡ resend_at n }
{
    match n {
        0 => Resend::No,
        1 => Resend::Chip,
        _ => Resend::Soft,
    }
}

#[tactic(auto, unfolding(crate::specs::Codes::error_at))]
pub fn error_number(error: Errno) -> u32
    ensures below { result < 2 }
    ensures back { error_at result ≡ error }
{
    match error {
        Errno::Inval => 0,
        Errno::Busy => 1,
    }
}

#[tactic(auto, unfolding(crate::specs::Codes::error_at))]
pub fn error_at(n: u32) -> Errno
    ensures { result ≡ error_at n }
{
    match n {
        0 => Errno::Inval,
        _ => Errno::Busy,
    }
}

#[tactic(auto, unfolding(crate::specs::Codes::enable_at))]
pub fn enable_number(answer: EnableAnswer) -> u32
    ensures below { result < 5 }
    ensures back { enable_at result ≡ answer }
{
    match answer {
        EnableAnswer::Unbalanced => 0,
        EnableAnswer::Lowered => 1,
        EnableAnswer::Started { resend } => 2 + resend_number(resend),
    }
}

#[tactic(auto, unfolding(crate::specs::Codes::enable_at))]
pub fn enable_at(n: u32) -> EnableAnswer
    ensures { result ≡ enable_at n }
{
    match n {
        0 => EnableAnswer::Unbalanced,
        1 => EnableAnswer::Lowered,
        _ => EnableAnswer::Started {
            resend: resend_at(n - 2),
        },
    }
}

#[tactic(auto, unfolding(crate::specs::Codes::opened_at))]
pub fn opened_number(opened: Opened) -> u32
    ensures below { result < 6 }
    ensures back { opened_at result ≡ opened }
{
    match opened {
        Opened::No => 0,
        Opened::Unbalanced => 1,
        Opened::Lowered => 2,
        Opened::Started { resend } => 3 + resend_number(resend),
    }
}

#[tactic(auto, unfolding(crate::specs::Codes::opened_at))]
pub fn opened_at(n: u32) -> Opened
    ensures { result ≡ opened_at n }
{
    match n {
        0 => Opened::No,
        1 => Opened::Unbalanced,
        2 => Opened::Lowered,
        _ => Opened::Started {
            resend: resend_at(n - 3),
        },
    }
}

#[tactic(auto, unfolding(crate::specs::Codes::link_at))]
pub fn link_number(answer: LinkAnswer) -> u32
    ensures below { result < 3 }
    ensures back { link_at result ≡ answer }
{
    match answer {
        LinkAnswer::Linked => 0,
        LinkAnswer::Refused(error) => 1 + error_number(error),
    }
}

#[tactic(auto, unfolding(crate::specs::Codes::link_at))]
pub fn link_at(n: u32) -> LinkAnswer
    ensures { result ≡ link_at n }
{
    match n {
        0 => LinkAnswer::Linked,
        _ => LinkAnswer::Refused(error_at(n - 1)),
    }
}

#[tactic(auto, unfolding(crate::specs::Codes::affinity_at))]
pub fn affinity_number(answer: AffinityAnswer) -> u32
    ensures below { result < 4 }
    ensures back { affinity_at result ≡ answer }
{
    match answer {
        AffinityAnswer::Now => 0,
        AffinityAnswer::Later => 1,
        AffinityAnswer::Refused(error) => 2 + error_number(error),
    }
}

#[tactic(auto, unfolding(crate::specs::Codes::affinity_at))]
pub fn affinity_at(n: u32) -> AffinityAnswer
    ensures { result ≡ affinity_at n }
{
    match n {
        0 => AffinityAnswer::Now,
        1 => AffinityAnswer::Later,
        _ => AffinityAnswer::Refused(error_at(n - 2)),
    }
}

#[tactic(auto, unfolding(crate::specs::Codes::unlink_at))]
pub fn unlink_number(answer: UnlinkAnswer) -> u32
    ensures below { result < 3 }
    ensures back { unlink_at result ≡ answer }
{
    match answer {
        UnlinkAnswer::NotThere => 0,
        UnlinkAnswer::Unlinked { last: false } => 1,
        UnlinkAnswer::Unlinked { last: true } => 2,
    }
}

#[tactic(auto, unfolding(crate::specs::Codes::unlink_at))]
pub fn unlink_at(n: u32) -> UnlinkAnswer
    ensures { result ≡ unlink_at n }
{
    match n {
        0 => UnlinkAnswer::NotThere,
        _ => UnlinkAnswer::Unlinked { last: n == 2 },
    }
}
