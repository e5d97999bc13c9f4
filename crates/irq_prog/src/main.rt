//! The program `genirq`: it hands its arguments, standard streams and the maker of its lines, those
//! over the chips of their whole paths, to the body, and ends with the body's status. Handlers
//! answer by the kinds of their devices, and the notifier by the processor.
#![tactic(auto)]

use board_lines::MakesChainLine;
use callbacks::ByKind;
use irq_top::run;
use notifiers::ByProcessor;
use std::env;
use std::process::ExitCode;

fn main(rt: HostRuntime) -> ExitCode {
    ExitCode::from(
        run(
            &rt,
            rt.alloc(),
            env::args(&rt),
            rt.reader(),
            rt.stdout(),
            rt.stderr(),
            &mut ByKind,
            &ByKind,
            &MakesChainLine,
            &mut ByProcessor,
        )
        .status,
    )
}
