//! The passes that an actor gets.
ghost use Rattle.std.specs.Prelude.{◌≡◌, ℕ, ◌≤◌, Some, IfOk, IsSomeAnd, length, slice_get};
ghost use Rattle.line_lock.specs.Passes.{PassSeen};
ghost use Rattle.workers.specs.Forks.{CanFork, Forks};

use crate::post::Post;
use irq_base::{Actor, NoMemory};
use irq_line::IrqLine;
use line_shared::{Pass, SharedLine};
use std::alloc::Global;

/// Gives the actor a pass of each line from index `first` up to, not including, `end`.
pub(crate) fn fork_all<L: IrqLine>(
    alloc: Global,
    lines: &[SharedLine<L>],
    firsts: &mut Vec<Pass<L>>,
    first: usize,
    end: usize,
    actor: Actor,
) -> Result<Vec<Post<L>>, NoMemory>
    requires range { (first ≤ end) × (end ≤ length lines.now)
        × (length firsts.old.items ≡ length lines.now) }
    requires can { (k : ℕ) (p : PassSeen) → slice_get firsts.old.items k ≡ Some p
        → IsSomeAnd (slice_get lines.now k) (λ l. CanFork l actor p) }
    ensures { IfOk result
        (λ posts. Forks lines.now first end actor firsts.old.items firsts.new.items posts.items) }
{
    let mut posts = Vec::new(alloc);
    for place in first..end {
        let first_pass = &mut firsts[place];
        let pass = lines[place].fork(first_pass, actor);
        posts.push(Post {
            pass,
            rests: false,
            near: false,
        })?;
    }
    Ok(posts)
}
