//! The actions of a line in the order in which they were linked (`struct irqaction` of
//! `include/linux/interrupt.h`, `__setup_irq` and `__free_irq` of `kernel/irq/manage.c`), and the
//! walk over them (`__handle_irq_event_percpu`, `kernel/irq/handle.c`).
//!
//! `ActList` links and unlinks, gives each one-shot action its thread bit, and knows whose handler
//! was called in the round. So the first action that is left is found without going over the
//! actions before it again. It takes its memory when it is made; later only `reserve` and `link`
//! take any, and `link` none if there is room to spare.
#![tactic(auto)]

pub mod actions;
pub mod list;

pub use actions::Action;
pub use list::ActList;
