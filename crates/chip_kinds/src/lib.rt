//! The controllers that a line's signal can come from: each is a `Cell` with fixed properties.
//!
//! | | presents | stores while masked | recalls | sends again | in service |
//! |---|---|---|---|---|---|
//! | `LatchChip` | edges | yes | yes | yes | no |
//! | `PinChip` | edges | yes | yes | no | no |
//! | `PlainChip` | edges | no | no | no | no |
//! | `LevelChip` | a level | no | no | no | no |
//! | `EoiChip` | a level | no | no | no | yes |
//! | `LpiChip` | edges | yes | yes | yes | no |
//! | `VectorChip`, which can't mask | edges | no | no | yes | no |
//!
//! No call takes memory or refuses.
#![tactic(auto)]

pub mod controller;
pub mod kinds;
pub mod vector;

pub use controller::{ChipKind, Controller};
pub use kinds::{
    Eoi, EoiChip, Latch, LatchChip, Level, LevelChip, Lpi, LpiChip, Pin, PinChip, Plain, PlainChip,
};
pub use vector::VectorChip;
