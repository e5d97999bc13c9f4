//! When the line's chip is masked.
ghost use Rattle.std.specs.Prelude.{◌≡◌};
ghost use Rattle.irq_model.specs.Masks.{take_masks, masks, unmasks, is_masked};

use crate::kinds::{
    is_busy, is_disable, is_handle, is_kill, is_last_unlink, is_off, is_reopening, is_start,
    is_take,
};
use crate::lines::is_level_line;
use crate::links::is_oneshot;
use irq_base::{Entry, FlowKind, LineDef};

/// No unmasking entry stands after the last masking one; the beginning counts as masking.
pub fn is_masked(def: &LineDef, past: &[Entry]) -> bool
    ensures { result ≡ is_masked def.now past.now }
{
    let mut rest = past;
    while let Some((e, older)) = rest.split_first() {
        if masks(def, rest) {
            return true;
        }
        if unmasks(*e) {
            return false;
        }
        rest = older;
    }
    true
}

/// A take that masks, which depends on the flow.
fn take_masks(def: &LineDef, entry: Entry, past: &[Entry]) -> bool
    ensures { result ≡ take_masks def.now def.now.flow entry past.now }
{
    match def.flow {
        FlowKind::Level => is_take(entry),
        FlowKind::Edge => is_busy(entry) || is_off(entry),
        FlowKind::Eoi => is_off(entry)
            || (is_handle(entry) && is_level_line(def) && is_oneshot(past)),
    }
}

/// The newest entry masks: a take that masks, a disable or a kill on an unlazy line, a last unlink.
fn masks(def: &LineDef, past: &[Entry]) -> bool
    ensures { result ≡ masks def.now past.now }
{
    match past.split_first() {
        Some((e, older)) => {
            take_masks(def, *e, older)
                || (def.unlazy && (is_disable(*e) || is_kill(*e)))
                || is_last_unlink(*e)
        }
        None => true,
    }
}

/// A start, or an end or a finish that says `unmask`.
fn unmasks(entry: Entry) -> bool
    ensures { result ≡ unmasks entry }
{
    is_start(entry) || is_reopening(entry)
}
