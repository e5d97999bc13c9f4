//! The calls that runs make, and what told devices answer.
ghost use Rattle.std.specs.Prelude.{◌≡◌, ◌≤◌, ◌+◌, ◌<◌, ◌∷◌, drop, length};
ghost use Rattle.std.specs.List.{list_all, list_any};
ghost use Rattle.irq_model.specs.Lines.{has_device, kind_in, kind_of, same_part};
ghost use Rattle.irq_model.specs.Lines.{script_in, told_in, run_script};
ghost use Rattle.irq_model.specs.RunBounds.{arms_this, wakes_by_handler, is_wake_word};
ghost use Rattle.irq_model.specs.ValidRuns.{names_own_device, has_script, may_stand};
ghost use Rattle.irq_model.specs.ValidRuns.{may_answer, is_told};
ghost use Rattle.line_valid.specs.DecidingRuns.{fits_run, fits_answer, has_short_scripts};
ghost use Rattle.line_valid.specs.DecidingRuns.{arms_unless_told, wakes_what_it_has, fits_device};
ghost use Rattle.line_valid.specs.DecidingRuns.{may_arm};

use crate::calls::call_at;
use crate::devices::{device_at, is_there};
use irq_base::{Call, DevNo, DeviceList, Kind, LineDef, Part, RunCallList, ToldAnswer, ToldList};

/// The call at index `place`.
#[tactic(auto, using(irq_model::proofs::Lists::next_item))]
fn run_call_at(runs: &RunCallList, place: usize) -> (DevNo, Part, Call)
    requires { place < length runs.now }
    ensures { drop place runs.now ≡ result ∷ drop (place + 1) runs.now }
{
    match runs.get(place) {
        Some(call) => call,
        None => unreachable!(),
    }
}

/// The answer at index `place`.
#[tactic(auto, using(irq_model::proofs::Lists::next_item))]
fn answer_at(told: &ToldList, place: usize) -> (DevNo, Part, ToldAnswer)
    requires { place < length told.now }
    ensures { drop place told.now ≡ result ∷ drop (place + 1) told.now }
{
    match told.get(place) {
        Some(answer) => answer,
        None => unreachable!(),
    }
}

// ---- one call, one answer

/// The kind of the device; a device that isn't in the list counts as stuck.
fn kind_in(devices: &DeviceList, dev: DevNo) -> Kind
    ensures { result ≡ kind_in devices.now dev }
{
    for i in 0..devices.len() {
        let device = device_at(devices, i);
        if dev == device.dev {
            return device.kind;
        }
    }
    Kind::Stuck
}

fn kind_of(def: &LineDef, dev: DevNo) -> Kind
    ensures { result ≡ kind_of def.now dev }
{
    kind_in(&def.devices, dev)
}

fn has_device(def: &LineDef, dev: DevNo) -> bool
    ensures { result ≡ has_device def.now dev }
{
    is_there(&def.devices, dev, 0)
}

fn is_same_part(part: Part, other: Part) -> bool
    ensures { result ≡ same_part part other }
{
    part == other
}

/// Whether a call that names a device names one of the line.
fn names_own_device(def: &LineDef, call: Call) -> bool
    ensures { result ≡ names_own_device def.now call }
{
    match call {
        Call::Wake { dev }
        | Call::Quiet { dev }
        | Call::Arm { dev }
        | Call::Serve { dev }
        | Call::Free { dev } => has_device(def, dev),
        _ => true,
    }
}

/// Whether a driver wrote that part of a device of the kind.
fn has_script(kind: Kind, part: Part) -> bool
    ensures { result ≡ has_script kind part }
{
    match part {
        Part::Thread => kind.has_thread(),
        Part::Primary => matches!(kind, Kind::Direct | Kind::Check | Kind::Told { .. }),
    }
}

/// Whether the call may stand in the script of that part of the device.
fn may_stand(kind: Kind, part: Part, dev: DevNo, call: Call) -> bool
    ensures { result ≡ may_stand kind part dev call }
{
    match call {
        Call::DisableNosync
        | Call::Enable
        | Call::Disable
        | Call::Sync
        | Call::Quiet { .. }
        | Call::Serve { .. } => true,
        Call::Wake { .. } => part == Part::Primary,
        Call::Free { .. } => part == Part::Thread,
        Call::Arm { dev: other } => dev == other && may_arm(kind, part),
        _ => false,
    }
}

/// Whether that part of a device of the kind may turn the device's own interrupt on.
fn may_arm(kind: Kind, part: Part) -> bool
    ensures { result ≡ may_arm kind part }
{
    match part {
        Part::Thread => true,
        Part::Primary => kind == Kind::Direct,
    }
}

/// Whether the call may be one of those that runs make.
fn fits_run(def: &LineDef, dev: DevNo, part: Part, call: Call) -> bool
    ensures { result ≡ fits_run def.now (dev, part, call) }
{
    let kind = kind_of(def, dev);
    has_device(def, dev)
        && has_script(kind, part)
        && may_stand(kind, part, dev, call)
        && names_own_device(def, call)
}

fn is_told(kind: Kind) -> bool
    ensures { result ≡ is_told kind }
{
    matches!(kind, Kind::Told { .. })
}

/// Whether that part of a device of the kind may give the answer.
fn may_answer(kind: Kind, part: Part, answer: ToldAnswer) -> bool
    ensures { result ≡ may_answer kind part answer }
{
    match part {
        Part::Thread => answer != ToldAnswer::Wake && is_told(kind) && kind.has_thread(),
        Part::Primary => is_told(kind),
    }
}

/// Whether each call of runs is one that they may make.
pub(crate) fn all_runs_fit(def: &LineDef) -> bool
    ensures { result ≡ list_all (fits_run def.now) def.now.runs }
{
    for i in 0..def.runs.len() {
        let (dev, part, call) = run_call_at(&def.runs, i);
        if !fits_run(def, dev, part, call) {
            return false;
        }
    }
    true
}

/// Whether each answer is one that its device may give.
pub(crate) fn all_answers_fit(def: &LineDef) -> bool
    ensures { result ≡ list_all (fits_answer def.now) def.now.told }
{
    for i in 0..def.told.len() {
        let (dev, part, answer) = answer_at(&def.told, i);
        if !may_answer(kind_of(def, dev), part, answer) {
            return false;
        }
    }
    true
}

/// Whether each call of drivers that names a device names one of the line.
pub(crate) fn all_own_devices(def: &LineDef) -> bool
    ensures { result ≡ list_all (λ c. names_own_device def.now c.1) def.now.calls }
{
    for i in 0..def.calls.len() {
        if !names_own_device(def, call_at(&def.calls, i).1) {
            return false;
        }
    }
    true
}

// ---- one device

/// How many calls a run of that part of the device makes.
fn script_length(runs: &RunCallList, dev: DevNo, part: Part) -> usize
    ensures value { result ≡ length (script_in runs.now dev part) }
    ensures within { result ≤ length runs.now }
{
    let mut count: usize = 0;
    for i in 0..runs.len() {
        let (other, its_part, _) = run_call_at(runs, i);
        if dev == other && is_same_part(part, its_part) {
            count += 1;
        }
    }
    count
}

/// How many answers that part of the device has.
fn told_length(told: &ToldList, dev: DevNo, part: Part) -> usize
    ensures value { result ≡ length (told_in told.now dev part) }
    ensures within { result ≤ length told.now }
{
    let mut count: usize = 0;
    for i in 0..told.len() {
        let (other, its_part, _) = answer_at(told, i);
        if dev == other && is_same_part(part, its_part) {
            count += 1;
        }
    }
    count
}

/// Whether the device's scripts and answers aren't too long.
fn has_short_scripts(def: &LineDef, dev: DevNo) -> bool
    requires runs { length def.now.runs ≤ 256 }
    requires told { length def.now.told ≤ 65536 }
    ensures { result ≡ has_short_scripts def.now dev }
{
    script_length(&def.runs, dev, Part::Primary) < 17
        && script_length(&def.runs, dev, Part::Thread) < 17
        && told_length(&def.told, dev, Part::Primary) + told_length(&def.told, dev, Part::Thread)
            < 4097
}

fn wakes_by_handler(dev: DevNo, part: Part, call: Call, woken: DevNo) -> bool
    ensures { result ≡ wakes_by_handler woken (dev, part, call) }
{
    part == Part::Primary && matches!(call, Call::Wake { dev: other } if woken == other)
}

/// Whether some handler wakes the device's thread by a call.
fn is_woken_by_handlers(runs: &RunCallList, dev: DevNo) -> bool
    ensures { result ≡ list_any (wakes_by_handler dev) runs.now }
{
    for i in 0..runs.len() {
        let (its_dev, part, call) = run_call_at(runs, i);
        if wakes_by_handler(its_dev, part, call, dev) {
            return true;
        }
    }
    false
}

fn arms_this(dev: DevNo, call: Call) -> bool
    ensures { result ≡ arms_this dev call }
{
    matches!(call, Call::Arm { dev: other } if dev == other)
}

/// Whether that part of the device turns its own interrupt on.
fn does_arm(runs: &RunCallList, dev: DevNo, part: Part) -> bool
    ensures { result ≡ list_any (arms_this dev) (script_in runs.now dev part) }
{
    for i in 0..runs.len() {
        let (other, its_part, call) = run_call_at(runs, i);
        if dev == other && is_same_part(part, its_part) && arms_this(dev, call) {
            return true;
        }
    }
    false
}

/// Whether the thread of a told device that handlers wake by a call leaves its own interrupt alone.
fn arms_unless_told(def: &LineDef, dev: DevNo) -> bool
    ensures { result ≡ arms_unless_told def.now dev }
{
    !(is_told(kind_of(def, dev))
        && is_woken_by_handlers(&def.runs, dev)
        && does_arm(&def.runs, dev, Part::Thread))
}

/// Whether some answer of that part of the device wakes its thread.
fn answers_wake(told: &ToldList, dev: DevNo, part: Part) -> bool
    ensures { result ≡ list_any is_wake_word (told_in told.now dev part) }
{
    for i in 0..told.len() {
        let (other, its_part, answer) = answer_at(told, i);
        if dev == other && is_same_part(part, its_part) && answer == ToldAnswer::Wake {
            return true;
        }
    }
    false
}

/// Whether a told device has a thread exactly if some answer of its handler wakes it.
fn wakes_what_it_has(def: &LineDef, dev: DevNo) -> bool
    ensures { result ≡ wakes_what_it_has def.now (kind_of def.now dev) dev }
{
    match kind_of(def, dev) {
        Kind::Told { threaded } => answers_wake(&def.told, dev, Part::Primary) == threaded,
        _ => true,
    }
}

/// Whether the scripts and answers of each device fit together.
pub(crate) fn all_devices_fit(def: &LineDef) -> bool
    requires runs { length def.now.runs ≤ 256 }
    requires told { length def.now.told ≤ 65536 }
    ensures { result ≡ list_all (λ x. fits_device def.now x.dev) def.now.devices }
{
    for i in 0..def.devices.len() {
        if !fits_device(def, device_at(&def.devices, i).dev) {
            return false;
        }
    }
    true
}

fn fits_device(def: &LineDef, dev: DevNo) -> bool
    requires runs { length def.now.runs ≤ 256 }
    requires told { length def.now.told ≤ 65536 }
    ensures { result ≡ fits_device def.now dev }
{
    has_short_scripts(def, dev) && arms_unless_told(def, dev) && wakes_what_it_has(def, dev)
}
