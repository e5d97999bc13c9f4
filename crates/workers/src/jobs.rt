//! The jobs of all workers.
ghost use Rattle.std.specs.Prelude.{◌≡◌, ℕ, false, ◌++◌, ◌∷◌, [], Some, None, IfOk, OnOk, length};
ghost use Rattle.std.specs.Prelude.{map, slice_get};
ghost use Rattle.irq_base.specs.declared.entries.Actor.{Actor};
ghost use Rattle.irq_line.specs.Seen.{LineSeen};
ghost use Rattle.board_play.specs.Lines.{defs_of};
ghost use Rattle.line_lock.specs.Knows.{is_among};
ghost use Rattle.line_lock.specs.Passes.{LockSeen};
ghost use Rattle.workers.specs.Fit.{AreFirsts, Fit, IsJob, workers_of, actors_on};
ghost use Rattle.workers.specs.Forks.{Hires, AreBoards, IsThere};
ghost use Rattle.workers.specs.Grown.{AreNew, HaveSeenNothing};

use crate::crew::make_crew;
use crate::dealing::{deal, jobs_a_thread};
use crate::forks::fork_all;
use crate::job::{Job, Work};
use crate::lines::SharedLines;
use board_def::Board;
use irq_base::{Actor, NoMemory};
use irq_line::IrqLine;
use line_shared::{Pass, SharedLine};
use std::alloc::Global;
use std::marker::Model;
use std::thread::Threads;

/// The jobs of all workers of a board, and the first pass of each line, with which the line is
/// taken out of its lock at the end.
#[derive(Drop)]
pub struct Jobs<'b, L: IrqLine> {
    pub(crate) board: &'b Board,
    /// How many of them share a thread, at least.
    pub(crate) size: usize,
    pub(crate) jobs: Vec<Job<L>>,
    pub(crate) firsts: Vec<Pass<L>>,
}

impl<'b, L: IrqLine> Model for Jobs<'b, L> {
    ghost use Rattle.workers.specs.Seen.{JobsSeen};

    ghost Value = { JobsSeen };

    ghost view = { λ s. record {
      board = s.board.now;
      jobs = s.jobs.items;
      firsts = s.firsts.items;
    } };
}

/// Shares each line, and gives a pass of it to each of its devices' threads, to each processor and
/// to each driver. The lines are the board's lines that take part, in its order, and nothing has
/// happened to them. The only error is `NoMemory`; then the lines are gone.
pub fn share<'b, R: Threads, L: IrqLine>(
    rt: &R,
    alloc: Global,
    board: &'b Board,
    lines: Vec<L>,
) -> Result<(SharedLines<L>, Jobs<'b, L>), NoMemory>
    requires defs { map (λ (x : LineSeen). x.def) (map L.seen lines.items) ≡ defs_of board.now }
    requires empty { (i : ℕ) (x : LineSeen) → slice_get (map L.seen lines.items) i ≡ Some x
        → x.entries ≡ [] }
    ensures board { IfOk result (λ r. r.1.board ≡ board.now) }
    ensures fit { IfOk result (λ r. Fit r.0 r.1) }
    ensures new { IfOk result (λ r. AreNew r.1) }
{
    board.is_board();
    let (lines, firsts) = share_lines(alloc, lines)?;
    let crew = make_crew(alloc, board, &lines)?;
    let size = jobs_a_thread(rt, crew.len());
    let dealt = deal(alloc, board, &lines, &crew)?;
    let mut jobs = Jobs {
        board,
        size,
        jobs: Vec::new(alloc),
        firsts,
    };
    for i in 0..dealt.len() {
        jobs.hire(alloc, &lines, dealt[i])?;
    }
    Ok((lines, jobs))
}

/// Shares each line, with its first pass.
fn share_lines<L: IrqLine>(
    alloc: Global,
    all: Vec<L>,
) -> Result<(SharedLines<L>, Vec<Pass<L>>), NoMemory>
    requires empty { (i : ℕ) (x : LineSeen) → slice_get (map L.seen all.items) i ≡ Some x
        → x.entries ≡ [] }
    ensures defs { IfOk result
        (λ r. map (λ (l : LockSeen). l.def) r.0
        ≡ map (λ (x : LineSeen). x.def) (map L.seen all.items)) }
    ensures firsts { IfOk result (λ r. AreFirsts r.0 [] r.1.items) }
    ensures new { IfOk result (λ r. HaveSeenNothing r.1.items) }
{
    let mut lines = Vec::new(alloc);
    let mut numbers = Vec::new(alloc);
    let mut flows = Vec::new(alloc);
    let mut firsts = Vec::new(alloc);
    for line in all {
        let (number, flow) = (line.definition().line, line.definition().flow);
        let Ok((line, first)) = SharedLine::new(alloc, line) else {
            return Err(NoMemory);
        };
        numbers.push(number)?;
        flows.push(flow)?;
        lines.push(line)?;
        firsts.push(first)?;
    }
    Ok((
        SharedLines {
            lines,
            numbers,
            flows,
        },
        firsts,
    ))
}

impl<'b, L: IrqLine> Jobs<'b, L> {
    /// Adds the job of an actor that has no job, with new passes of its lines.
    fn hire(&mut self, alloc: Global, lines: &SharedLines<L>, actor: Actor) -> Result<(), NoMemory>
        requires defs { AreBoards self.old.board lines.now }
        requires firsts { AreFirsts lines.now self.old.jobs self.old.firsts }
        requires fresh { (k : ℕ) → is_among actor (actors_on k self.old.jobs) ≡ false }
        requires there { IsThere self.old.board lines.now actor }
        ensures board { OnOk result (self.new.board ≡ self.old.board) }
        ensures hires { OnOk result (Hires lines.now actor self.old self.new) }
        ensures new { OnOk result (AreNew self.old → AreNew self.new) }
    {
        let (first, end) = lines.span_of(self.board, actor);
        let posts = fork_all(alloc, &lines.lines, &mut self.firsts, first, end, actor)?;
        self.jobs.push(Job {
            actor,
            first,
            posts,
            flow: None,
            last: 0,
            at: 0,
            attempts: 0,
            left: 0,
            end: Ok(Work::Idle),
        })?;
        Ok(())
    }
}
