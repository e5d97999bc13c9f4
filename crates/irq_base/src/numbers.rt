//! The numbers by which a board names its parts. Each is a type of its own, so that none is taken
//! for another.

/// The number of an interrupt line, 1 to 65,535, by which a driver's call names it (`irq` of
/// `request_irq`, `include/linux/interrupt.h`).
#[derive(Clone, Copy, PartialEq, Eq, PartialOrd, Ord, Hash)]
pub struct LineNo(pub u32);

/// The number of a processor, 0 to 31.
#[derive(Clone, Copy, PartialEq, Eq, PartialOrd, Ord, Hash)]
pub struct CpuNo(pub u32);

/// The number of a driver, 1 to 65,535: the code that calls `request_irq` and `free_irq`.
#[derive(Clone, Copy, PartialEq, Eq, PartialOrd, Ord, Hash)]
pub struct DriverNo(pub u32);

/// The number of a device, 1 to 65,535 (`dev_id` of `struct irqaction`,
/// `include/linux/interrupt.h`).
#[derive(Clone, Copy, PartialEq, Eq, PartialOrd, Ord, Hash)]
pub struct DevNo(pub u32);
