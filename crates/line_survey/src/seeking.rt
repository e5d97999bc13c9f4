//! A shortest history as wanted.
ghost use Rattle.std.specs.Prelude.{◌≡◌, ◌≤◌, ◌<◌, IfOk, IfSome, List, Some, length, reverse};
ghost use Rattle.std.specs.Prelude.{slice_get, true, false};
ghost use Rattle.irq_base.specs.declared.entries.Entry.{Entry};
ghost use Rattle.irq_model.specs.Legal.{IsDue};
ghost use Rattle.irq_model.specs.Valid.{IsValid};
ghost use Rattle.irq_model.specs.ValidRuns.{HasValidRuns};
ghost use Rattle.line_survey.specs.Answers.{IsAnswer, IsMetBy, known_within};
ghost use Rattle.line_survey.specs.Wanting.{unmet_answer, whole_past};
ghost use Rattle.line_words.specs.Node.{node};
ghost use Rattle.state_search.specs.Paths.{Searches, LeavesOut, IsNearest, NoneWanted};
ghost use Rattle.state_search.specs.Seen.{cut_of};

use crate::answer::Answer;
use crate::through::search_through;
use crate::wanting::WantedSpace;
use irq_base::{Entry, LineDef, NoMemory};
use line_wanted::Wanted;
use state_search::{Searched, Sought};
use std::alloc::Global;

/// A shortest legal history as wanted; or that there is none, or none as far as a search through at
/// most `most` states (at most 100,000,000) knows. The search ends where what is wanted is first
/// met. The only error is `NoMemory`.
pub fn shortest(
    alloc: Global,
    def: &LineDef,
    wanted: Wanted,
    most: usize,
) -> Result<Answer, NoMemory>
    requires valid { IsValid def.now }
    requires runs { HasValidRuns def.now }
    requires some { 1 ≤ most }
    requires most { most ≤ 100000000 }
    ensures { IfOk result (IsAnswer most def.now wanted) }
{
    let sought = seek(alloc, def, wanted, most)?;
    if sought.is_met {
        return Ok(Answer::Found(history(alloc, &sought.found, wanted)?));
    }
    Ok(unmet(&sought.found, wanted))
}

/// Searches the states of the line until what is wanted is met, for at most `most` states. The only
/// error is `NoMemory`.
fn seek(
    alloc: Global,
    def: &LineDef,
    wanted: Wanted,
    most: usize,
) -> Result<Sought<Entry>, NoMemory>
    requires valid { IsValid def.now }
    requires runs { HasValidRuns def.now }
    requires some { 1 ≤ most }
    requires most { most ≤ 100000000 }
    ensures paths { IfOk result (λ s. Searches (IsDue def.now) (node def.now) s.found.paths
        s.found.looked (cut_of s.found)) }
    ensures within { IfOk result (λ s. length s.found.paths ≤ most) }
    ensures met { IfOk result (λ s. s.is_met ≡ true → IsNearest (IsDue def.now)
        (IsMetBy def.now wanted) s.found.paths s.found.looked) }
    ensures none { IfOk result (λ s. NoneWanted (IsDue def.now) (IsMetBy def.now wanted)
        s.found.paths s.found.looked (cut_of s.found)) }
    ensures left_out { IfOk result (λ s. s.is_met ≡ false
        → LeavesOut (IsDue def.now) (node def.now) s.found.paths s.found.looked) }
    ensures cut { IfOk result (λ s. s.is_met ≡ false
        → IfSome (cut_of s.found) (λ _. length s.found.paths ≡ most)) }
{
    let space = WantedSpace::new(alloc, def, wanted)?;
    search_through(alloc, space, most)
}

/// The history as wanted that comes of the state at which the search stopped. The only error is
/// `NoMemory`.
fn history(alloc: Global, found: &Searched<Entry>, wanted: Wanted) -> Result<Vec<Entry>, NoMemory>
    requires { found.now.looked < length found.now.paths }
    ensures { IfOk result (λ entries. (p : List Entry)
        → slice_get found.now.paths found.now.looked ≡ Some p
        → reverse entries.items ≡ whole_past wanted p) }
{
    let mut entries = found.path(alloc, found.looked())?;
    match wanted {
        Wanted::Row(entry) => {
            entries.push(entry)?;
            Ok(entries)
        }
        Wanted::Rest(_) => Ok(entries),
    }
}

/// What a search says that didn't stop.
fn unmet(found: &Searched<Entry>, wanted: Wanted) -> Answer
    requires { IfSome (cut_of found.now) (λ cut. cut ≤ 100000000) }
    ensures { result ≡ unmet_answer wanted (cut_of found.now) }
{
    match found.cut() {
        Some(cut) => Answer::NotWithin(known_within(wanted, cut)),
        None => Answer::Never,
    }
}

/// Up to which length a search that was cut knows what is wanted.
fn known_within(wanted: Wanted, cut: usize) -> u32
    requires { cut ≤ 100000000 }
    ensures { result ≡ known_within wanted cut }
{
    match wanted {
        Wanted::Row(_) => cut as u32,
        Wanted::Rest(_) => cut.saturating_sub(1) as u32,
    }
}
