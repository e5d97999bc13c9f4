//! The whole definition.
ghost use Rattle.std.specs.Prelude.{◌≡◌, ◌&&◌, IsTrue};
ghost use Rattle.irq_model.specs.Valid.{IsValid};
ghost use Rattle.irq_model.specs.ValidRuns.{HasValidRuns};
ghost use Rattle.line_valid.specs.Deciding.{fits, fits_numbers, fits_flow, fits_lists};
ghost use Rattle.line_valid.specs.DecidingRuns.{fits_runs};

use crate::calls::{all_named, has_one_owner, is_freed_between};
use crate::devices::{all_on_line, has_distinct};
use crate::runs::{all_answers_fit, all_devices_fit, all_own_devices, all_runs_fit};
use affinity::has_processor;
use irq_base::{FlowKind, LineDef, Trigger};

/// Whether the definition is valid, and its runs are. Another definition is never answered `true`.
#[tactic(auto, using(crate::proofs::FitsIsValid::fits_is_valid, crate::proofs::FitsRuns::fits_has_valid_runs))]
pub fn is_valid(def: &LineDef) -> bool
    ensures fits { result ≡ (fits def.now && fits_runs def.now) }
    ensures sound { IsTrue result → IsValid def.now }
    ensures runs { IsTrue result → HasValidRuns def.now }
{
    fits(def) && fits_runs(def)
}

fn fits(def: &LineDef) -> bool
    ensures { result ≡ fits def.now }
{
    fits_numbers(def) && fits_flow(def) && fits_lists(def)
}

fn fits_runs(def: &LineDef) -> bool
    ensures { result ≡ fits_runs def.now }
{
    def.runs.len() < 257
        && def.told.len() < 65_537
        && all_runs_fit(def)
        && all_answers_fit(def)
        && all_own_devices(def)
        && all_devices_fit(def)
}

fn fits_numbers(def: &LineDef) -> bool
    ensures { result ≡ fits_numbers def.now }
{
    0 < def.cpus
        && def.cpus < 33
        && 0 < def.window
        && def.window < 1_000_001
        && def.limit < def.window
        && 0 < def.log
        && def.log < 100_000_001
        && def.devices.len() < 257
        && def.calls.len() < 16_385
        && has_processor(def.cpus, def.mask)
}

fn fits_flow(def: &LineDef) -> bool
    ensures { result ≡ fits_flow def.now }
{
    let edge = def.trigger == Trigger::Edge;
    let level = def.trigger == Trigger::Level;
    let eoi = def.flow == FlowKind::Eoi;
    (def.flow != FlowKind::Edge || edge)
        && (def.flow != FlowKind::Level || level)
        && (!edge || !def.unlazy || def.keeps)
        && (!edge || !eoi || def.keeps)
        && (!edge || !eoi || def.retriggers)
}

fn fits_lists(def: &LineDef) -> bool
    ensures { result ≡ fits_lists def.now }
{
    all_on_line(def)
        && has_distinct(&def.devices)
        && all_named(def)
        && has_one_owner(&def.calls)
        && is_freed_between(&def.calls)
}
