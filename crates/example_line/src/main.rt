//! A line, a handler of one's own, and ten steps: the crates as a library. `docs/LIBRARY.md` walks
//! through it.
#![tactic(auto)]

mod counting;
mod describing;
mod lines;
mod stepping;

use irq_base::NoMemory;
use irq_line::MakesLine;
use line_core::MakesCellLine;
use line_valid::is_valid;
use lines::one_line;
use std::alloc::Global;
use std::io;
use stepping::count_ten_steps;

fn main(rt: HostRuntime) -> io::Result<()> {
    let mut rows = [""; 10];
    let Ok(calls) = play(rt.alloc(), &mut rows) else {
        return println!(rt; "out of memory");
    };
    for row in rows {
        println!(rt; "{row}")?;
    }
    println!(rt; "calls of the handler: {calls}")
}

/// Makes the line and has it step; the rows say what each step came to. Answers how often the
/// handler was called. The only error is `NoMemory`.
fn play(alloc: Global, rows: &mut [&'static str; 10]) -> Result<u64, NoMemory> {
    let def = one_line(alloc)?;
    if !is_valid(&def) {
        return Ok(0);
    }
    let mut line = MakesCellLine.make(alloc, 1, &def)?;
    Ok(count_ten_steps(&mut line, rows))
}
