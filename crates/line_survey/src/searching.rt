//! A search through the states of one line.
ghost use Rattle.std.specs.Prelude.{◌≡◌, ◌≤◌, ◌<◌, IfOk, IfSome, length};
ghost use Rattle.irq_model.specs.Legal.{IsDue};
ghost use Rattle.irq_model.specs.Valid.{IsValid};
ghost use Rattle.irq_model.specs.ValidRuns.{HasValidRuns};
ghost use Rattle.line_survey.specs.Kept.{IsOfLine};
ghost use Rattle.line_survey.specs.Seen.{depth_at};
ghost use Rattle.line_words.specs.Node.{node};
ghost use Rattle.state_search.specs.Paths.{Searches, AreCounted, LeavesOut};
ghost use Rattle.state_search.specs.Seen.{cut_of};

use crate::through::search_through;
use irq_base::{Entry, LineDef, NoMemory};
use line_space::LineSpace;
use state_search::Searched;
use std::alloc::Global;
use std::marker::Model;

/// A search through the states of one line, over all its legal histories. Contracts see the line's
/// definition and what the search found.
#[derive(Drop)]
pub struct LineSearch {
    pub(crate) alloc: Global,
    pub(crate) def: LineDef,
    pub(crate) searched: Searched<Entry>,
}

impl Model for LineSearch {
    ghost use Rattle.line_survey.specs.Seen.{LineSearchSeen};
    ghost use Rattle.line_survey.specs.Kept.{IsSearch};

    ghost Value = { LineSearchSeen };

    ghost view = { λ s. record { def = s.def; searched = s.searched } };

    ghost invariant = { IsSearch };
}

/// The search through the states of the line. The only error is `NoMemory`.
fn search_states(alloc: Global, def: &LineDef, most: usize) -> Result<Searched<Entry>, NoMemory>
    requires valid { IsValid def.now }
    requires runs { HasValidRuns def.now }
    requires some { 1 ≤ most }
    requires most { most ≤ 100000000 }
    ensures line { IfOk result (IsOfLine def.now) }
    ensures within { IfOk result (λ s. length s.paths ≤ most) }
    ensures cut { IfOk result (λ s. IfSome (cut_of s) (λ _. length s.paths ≡ most)) }
{
    let space = LineSpace::new(alloc, def)?;
    let sought = search_through(alloc, space, most)?;
    Ok(sought.found)
}

impl LineSearch {
    /// Searches the line's states, up to `most` of them (at most 100,000,000). If there are more,
    /// the search is cut, and what comes later is unknown. The only error is `NoMemory`.
    pub fn new(alloc: Global, def: &LineDef, most: usize) -> Result<LineSearch, NoMemory>
        requires valid { IsValid def.now }
        requires runs { HasValidRuns def.now }
        requires some { 1 ≤ most }
        requires most { most ≤ 100000000 }
        ensures def { IfOk result (λ s. s.def ≡ def.now) }
        ensures searches { IfOk result (λ s. Searches (IsDue def.now) (node def.now)
            s.searched.paths s.searched.looked (cut_of s.searched)) }
        ensures counts { IfOk result (λ s.
            AreCounted (IsDue def.now) s.searched.paths s.searched.counts) }
        ensures counted { IfOk result (λ s. length s.searched.counts ≡ s.searched.looked) }
        ensures within { IfOk result (λ s. length s.searched.paths ≤ most) }
        ensures cut { IfOk result (λ s.
            IfSome (cut_of s.searched) (λ _. length s.searched.paths ≡ most)) }
        ensures left_out { IfOk result (λ s.
            LeavesOut (IsDue def.now) (node def.now) s.searched.paths s.searched.looked) }
    {
        let searched = search_states(alloc, def, most)?;
        let def = def.try_clone(alloc)?;
        Ok(LineSearch {
            alloc,
            def,
            searched,
        })
    }

    /// If the search was cut: the length of histories from which on states may be unknown.
    pub(crate) fn cut(&self) -> Option<u32>
        ensures { result ≡ cut_of self.now.searched }
    {
        match self.searched.cut() {
            Some(cut) => Some(cut as u32),
            None => None,
        }
    }

    /// The length of the history to the state at the place.
    pub(crate) fn depth(&self, place: usize) -> u32
        requires { place < length self.now.searched.paths }
        ensures depth { result ≡ depth_at self.now.searched.paths place }
        ensures few { result ≤ 100000000 }
    {
        self.searched.depth(place) as u32
    }
}
