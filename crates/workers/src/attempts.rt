//! A worker's attempts.
ghost use Rattle.std.specs.Prelude.{◌≡◌, ◌<◌, ℕ, true, Some, None, length, slice_get};
ghost use Rattle.workers.specs.Fit.{ArePosted, HasOneFlow, HasItsFlow};
ghost use Rattle.workers.specs.Attempts.{AttemptsCpu, StepsCpu, StepsPost, TriesLast, flow_after};
ghost use Rattle.workers.specs.Terms.{terms_of};

use crate::job::Job;
use crate::lines::SharedLines;
use crate::post::Reach;
use callbacks::SharedHandler;
use irq_base::{CpuEntry, Entry, FlowKind, TakeAnswer};
use irq_line::{IrqLine, StepRefused};
use std::sync::Wait;

impl<L: IrqLine> Job<L> {
    /// Tries the actor's next step with the pass at index `place`.
    pub(crate) fn try_post<R: Wait, H: SharedHandler>(
        &mut self,
        rt: &R,
        lines: &SharedLines<L>,
        place: usize,
        handlers: &H,
    ) -> Result<Option<Entry>, StepRefused>
        requires posted { ArePosted lines.now self.old }
        requires place { place < length self.old.posts }
        ensures { StepsPost (terms_of L.seen L.may_want (H.gave handlers.now))
            lines.now place result self.old self.new }
    {
        let all = lines.lines.as_slice();
        let k = self.first + place;
        let line = &all[k];
        let post = &mut self.posts[place];
        post.step(rt, line, handlers)
    }

    /// Tries a processor's next step with the pass at index `place`. The processor has no flow in
    /// progress on another line.
    fn step_cpu<R: Wait, H: SharedHandler>(
        &mut self,
        rt: &R,
        lines: &SharedLines<L>,
        place: usize,
        handlers: &H,
    ) -> Result<Option<Entry>, StepRefused>
        requires posted { ArePosted lines.now self.old }
        requires place { place < length self.old.posts }
        requires flow { HasOneFlow self.old }
        requires its { HasItsFlow self.old }
        requires free { (i : ℕ) → self.old.flow ≡ Some i → i ≡ place }
        ensures { StepsCpu (terms_of L.seen L.may_want (H.gave handlers.now))
            lines.now place result self.old self.new }
    {
        let moved = self.try_post(rt, lines, place, handlers)?;
        if let Some(entry) = moved {
            let flow = lines.flow_at(self.first, place);
            self.flow = flow_after(flow, &entry, place, self.flow);
        }
        Ok(moved)
    }

    /// A processor's attempt. If it has a flow in progress, it steps on the flow's line alone,
    /// where nothing is due of it only while it spins; else on the line of its last step, if an
    /// entry of it is due there, or on the first within reach on which one is.
    pub(crate) fn attempt_cpu<R: Wait, H: SharedHandler>(
        &mut self,
        rt: &R,
        lines: &SharedLines<L>,
        reach: Reach,
        handlers: &H,
    ) -> Result<Option<Entry>, StepRefused>
        requires posted { ArePosted lines.now self.old }
        requires flow { HasOneFlow self.old }
        requires its { HasItsFlow self.old }
        ensures { AttemptsCpu (terms_of L.seen L.may_want (H.gave handlers.now))
            lines.now result self.old self.new }
    {
        if let Some(place) = self.flow {
            return self.step_cpu(rt, lines, place, handlers);
        }
        if let Some(entry) = self.try_last(rt, lines, handlers)? {
            return Ok(Some(entry));
        }
        for place in 0..self.posts.len() {
            if self.posts[place].is_beyond(reach) {
                continue;
            }
            if let Some(entry) = self.step_cpu(rt, lines, place, handlers)? {
                self.last = place;
                return Ok(Some(entry));
            }
        }
        Ok(None)
    }

    /// Tries a processor's next step with the pass with which it made its last one, where it is
    /// likely to have the next.
    fn try_last<R: Wait, H: SharedHandler>(
        &mut self,
        rt: &R,
        lines: &SharedLines<L>,
        handlers: &H,
    ) -> Result<Option<Entry>, StepRefused>
        requires posted { ArePosted lines.now self.old }
        requires flow { HasOneFlow self.old }
        requires its { HasItsFlow self.old }
        requires none { self.old.flow ≡ None }
        ensures { TriesLast (terms_of L.seen L.may_want (H.gave handlers.now))
            lines.now result self.old self.new }
    {
        let last = self.last;
        if last >= self.posts.len() {
            return Ok(None);
        }
        self.step_cpu(rt, lines, last, handlers)
    }
}

/// The pass with which a processor has a flow in progress, after it added the entry with the pass
/// at index `place`.
pub(crate) fn flow_after(
    flow: FlowKind,
    entry: &Entry,
    place: usize,
    before: Option<usize>,
) -> Option<usize>
    ensures { result ≡ flow_after flow entry.now place before }
{
    let Entry::Cpu(_, entry) = *entry else {
        return before;
    };
    match entry {
        CpuEntry::Take {
            answer: TakeAnswer::Handle,
            ..
        } => Some(place),
        CpuEntry::End { again, .. } if !again || flow == FlowKind::Eoi => None,
        CpuEntry::Take { .. }
        | CpuEntry::End { .. }
        | CpuEntry::Begin { .. }
        | CpuEntry::Return { .. } => before,
    }
}
