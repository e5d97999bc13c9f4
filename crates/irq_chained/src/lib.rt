//! Lines behind one demultiplexer, and no signal of theirs is lost.
//!
//! All lines of a board that take part are the children of one input of a parent chip, as the lines
//! of a GPIO bank or of a second interrupt controller are. Processor 0 takes the parent's interrupt
//! by a chained handler (`irq_set_chained_handler_and_data`, `kernel/irq/chip.c`): it enters a
//! chain (`chained_irq_enter`, `include/linux/irqchip/chained_irq.h`), which masks and acknowledges
//! the parent and reads the status register, calls the flow of each child of the status, lowest bit
//! first, and leaves the chain (`chained_irq_exit`), which unmasks the parent.
//!
//! A `Demux` has a `System` inside, by which the lines are kept and stepped; it decides what
//! processor 0 does, and where enters and exits stand in the log. A step takes the same time
//! however many children wait.
#![tactic(auto)]

pub mod chain;
pub mod demux;
pub mod fits;
pub mod laws;
pub mod marks;
pub mod parent;
pub mod status;
pub mod walking;

pub use chain::{ChainEntry, ChainTurn};
pub use demux::Demux;
pub use fits::fits_chain;
pub use walking::ChainWalk;
