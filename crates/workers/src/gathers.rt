//! The lines come back out of the threads' hands.
ghost use Rattle.std.specs.Prelude.{◌≡◌, ℕ, None, Some, [], IfOk, IsSomeAnd, length, map};
ghost use Rattle.std.specs.Prelude.{slice_get};
ghost use Rattle.irq_line.specs.Seen.{LineSeen};
ghost use Rattle.board_def.specs.Seen.{BoardSeen};
ghost use Rattle.board_play.specs.Kept.{AreKept};
ghost use Rattle.line_lock.specs.Passes.{LockSeen, PassSeen};
ghost use Rattle.workers.specs.Fit.{ArePosted, Fit};
ghost use Rattle.workers.specs.Gathers.{AreBack, AreFinal, AreGathered, AreHome, AreKnown};
ghost use Rattle.workers.specs.Gathers.{AreSound, Gathers, IsHome, IsMet, board_lines, seen_lines};
ghost use Rattle.workers.specs.Seen.{JobSeen};

use crate::job::Job;
use crate::jobs::Jobs;
use crate::lines::SharedLines;
use irq_base::NoMemory;
use irq_line::IrqLine;
use line_shared::{Pass, SharedLine};
use std::alloc::Global;

/// Takes all passes back, and the lines out of their locks. They come in the same order, with the
/// same definitions. Each history is the longest that a pass of the line has seen, and begins with
/// what each other pass has seen; its entries are of actors whose jobs have a pass of the line. It
/// is legal, and the histories have the drivers' calls in the order of their scripts, each driver's
/// up to its job's place. The only error is `NoMemory`; then the lines are gone.
pub fn gather<L: IrqLine>(
    alloc: Global,
    lines: SharedLines<L>,
    jobs: Jobs<'_, L>,
) -> Result<Vec<L>, NoMemory>
    requires { Fit lines jobs }
    ensures kept { IfOk result
        (λ all. AreKept jobs.entry.board (board_lines (map L.seen all.items))) }
    ensures gathered { IfOk result (λ all. AreGathered jobs.entry (map L.seen all.items)) }
{
    jobs.board.is_board();
    let Jobs {
        jobs,
        mut firsts,
        ..
    } = jobs;
    let SharedLines { lines, .. } = lines;
    meet_all(&lines, &mut firsts, jobs);
    finish_all(alloc, lines, firsts)
}

/// The first passes meet the passes of all jobs, the last job's first.
fn meet_all<L: IrqLine>(lines: &[SharedLine<L>], firsts: &mut Vec<Pass<L>>, mut jobs: Vec<Job<L>>)
    requires home { AreHome lines.now firsts.old.items }
    requires posted { (i : ℕ) (j : JobSeen) → slice_get jobs.items i ≡ Some j
        → ArePosted lines.now j }
    ensures home { AreHome lines.now firsts.new.items }
    ensures gathers { (board : BoardSeen) → Gathers board lines.now jobs.items firsts.old.items
        → Gathers board lines.now [] firsts.new.items }
    ensures back { (board : BoardSeen) → Gathers board lines.now jobs.items firsts.old.items
        → AreBack board jobs.items firsts.old.items firsts.new.items }
{
    while let Some(job) = jobs.pop() {
        meet_job(lines, firsts, job);
    }
}

/// The first passes meet the passes of a job.
fn meet_job<L: IrqLine>(lines: &[SharedLine<L>], firsts: &mut Vec<Pass<L>>, job: Job<L>)
    requires home { AreHome lines.now firsts.old.items }
    requires posted { ArePosted lines.now job }
    ensures { IsMet lines.now job firsts.old.items firsts.new.items }
{
    let Job {
        first,
        mut posts,
        ..
    } = job;
    while let Some(post) = posts.pop() {
        let place = first + posts.len();
        let home = &mut firsts[place];
        lines[place].meet(home, post.pass);
    }
}

/// The lines, out of their locks.
fn finish_all<L: IrqLine>(
    alloc: Global,
    lines: Vec<SharedLine<L>>,
    mut firsts: Vec<Pass<L>>,
) -> Result<Vec<L>, NoMemory>
    requires { AreFinal lines.items firsts.items }
    ensures lines { IfOk result
        (λ all. board_lines (map L.seen all.items) ≡ seen_lines firsts.items) }
    ensures sound { IfOk result (λ all. AreSound (map L.seen all.items)) }
    ensures known { IfOk result (λ all. AreKnown firsts.items) }
{
    let mut all = Vec::new(alloc);
    firsts.reverse();
    for shared in lines {
        let Some(first) = firsts.pop() else {
            unreachable!()
        };
        first.is_known();
        let line = shared.finish(first);
        line.is_sound();
        all.push(line)?;
    }
    Ok(all)
}
