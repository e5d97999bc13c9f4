//! The program `genirq-explore`: it hands its arguments, standard streams, the maker of its lines,
//! those over the chips of their whole paths, and handlers that answer by their devices' kinds to
//! the body, and ends with the body's status.
#![tactic(auto)]

use board_lines::MakesChainLine;
use callbacks::ByKind;
use explore_top::run;
use std::env;
use std::process::ExitCode;

fn main(rt: HostRuntime) -> ExitCode {
    ExitCode::from(
        run(
            rt.alloc(),
            env::args(&rt),
            rt.reader(),
            rt.stdout(),
            rt.stderr(),
            &MakesChainLine,
            &mut ByKind,
        )
        .status,
    )
}
