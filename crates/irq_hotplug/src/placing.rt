//! Lines are placed anew, all or those of a processor: first each finds a vector, and then, if all
//! found one, they are settled there.
ghost use Rattle.std.specs.Prelude.{◌≡◌, ℕ, ◌+◌, ◌≤◌, [], ◌++◌, true, length, All, count_by};
ghost use Rattle.std.specs.Prelude.{if◌then◌else◌, option_to_list};
ghost use Rattle.vector_matrix.specs.Vectors.{count_of, is_in};
ghost use Rattle.vector_matrix.specs.declared.view.Vector.{Vector};
ghost use Rattle.notifiers.specs.Told.{Told};
ghost use Rattle.irq_hotplug.specs.Berths.{IfThere, all_found, all_settled, finds, is_at};
ghost use Rattle.irq_hotplug.specs.Berths.{settled, stands_at};
ghost use Rattle.irq_hotplug.specs.Held.{held_in, IsSized};
ghost use Rattle.irq_hotplug.specs.Kept.{HasQueue};
ghost use Rattle.irq_hotplug.specs.Notices.{TellsMore};
ghost use Rattle.irq_hotplug.specs.Rows.{all_rows, is_move, rows_for};

use crate::berths::{Berth, Moving, settled};
use crate::rooms::{RoomList, at};
use crate::rows::FleetRow;
use crate::vectors::Vectors;
use irq_base::CpuNo;
use notifiers::Notifier;
use vector_matrix::Vector;

/// Takes a vector for the line if it is placed anew; none if all are held.
fn find_one(held: &mut Vectors, berth: &Berth, online: &[bool], moving: Moving) -> Option<Vector>
    requires { IsSized held.old online.now }
    ensures found { result ≡ finds moving held.old.vectors online.now (held_in held.old) berth.now }
    ensures held { held.new ≡ record held.old { held = held.old.held ++ option_to_list result } }
{
    if moving.is_moved(berth) {
        held.take_for(online, berth.mask)
    } else {
        None
    }
}

/// Each line that is placed anew finds a vector, in order; what it had before stays held.
pub fn find_all(
    held: &mut Vectors,
    berths: &[Berth],
    online: &[bool],
    moving: Moving,
    found: &mut RoomList<Option<Vector>>,
)
    requires sized { IsSized held.old online.now }
    requires room { length berths.now ≤ found.old.spare }
    requires empty { found.old.items ≡ [] }
    requires held { (v : Vector) → count_of v held.old.held ≡ count_by (stands_at v) berths.now }
    ensures found { found.new.items
        ≡ all_found moving held.old.vectors online.now berths.now [] berths.now }
    ensures held { (v : Vector) → count_of v held.new.held
        ≡ count_by (stands_at v) berths.now + count_by (is_at v) found.new.items }
    ensures sized { (held.new.cpus ≡ held.old.cpus) × (held.new.vectors ≡ held.old.vectors) }
{
    for i in 0..berths.len() {
        let berth = at(berths, i);
        let vector = find_one(held, &berth, online, moving);
        found.put(vector);
    }
}

/// Gives the vector back, if there is one.
fn give_one(held: &mut Vectors, vector: Option<Vector>)
    requires { IfThere (λ v. is_in v held.old.held ≡ true) vector }
    ensures held { (v : Vector) → count_of v held.new.held + (if is_at v vector then 1 else 0)
        ≡ count_of v held.old.held }
    ensures sized { (held.new.cpus ≡ held.old.cpus) × (held.new.vectors ≡ held.old.vectors) }
{
    held.is_each_once();
    if let Some(vector) = vector {
        held.give_back(vector);
    }
}

/// Gives all vectors back that were found.
pub fn give_all(held: &mut Vectors, found: &[Option<Vector>])
    requires { (v : Vector) → count_by (is_at v) found.now ≤ count_of v held.old.held }
    ensures held { (v : Vector) → count_of v held.new.held + count_by (is_at v) found.now
        ≡ count_of v held.old.held }
    ensures sized { (held.new.cpus ≡ held.old.cpus) × (held.new.vectors ≡ held.old.vectors) }
{
    for i in 0..found.len() {
        let vector = at(found, i);
        give_one(held, vector);
    }
}

/// Whether another processor than this one takes the line's interrupts.
fn is_move(target: Option<CpuNo>, cpu: CpuNo) -> bool
    ensures { result ≡ is_move target cpu }
{
    match target {
        Some(now) => now != cpu,
        None => true,
    }
}

/// Says where the line is placed, and tells its notifier; or at first that it isn't placed.
fn say<N: Notifier>(
    said: &mut RoomList<FleetRow>,
    berth: &Berth,
    found: Option<Vector>,
    moving: Moving,
    notify: &mut N,
)
    requires room { 1 ≤ said.old.spare }
    requires queues { 1 ≤ berth.now.queues }
    ensures said { said.new.items ≡ said.old.items ++ rows_for moving berth.now found }
    ensures spare { said.old.spare ≤ said.new.spare + 1 }
    ensures told { TellsMore (λ placings. Told N.tells placings notify.old notify.new)
        said.old.items said.new.items }
{
    let line = berth.line;
    match (found, moving) {
        (Some(vector), _) => {
            let queue = notify.queue(line, vector.cpu, berth.queues);
            let moved = is_move(berth.target, vector.cpu);
            said.put(FleetRow::Placed {
                line,
                vector,
                queues: berth.queues,
                queue,
                moved,
            });
        }
        (None, Moving::All) => said.put(FleetRow::Unplaced { line }),
        (None, Moving::From(_)) => {}
    }
}

/// Gives the line's old vector back if it found a new one.
fn leave(held: &mut Vectors, berth: &Berth, found: Option<Vector>) -> Berth
    requires { IfThere (λ v. is_in v held.old.held ≡ true) berth.now.place }
    ensures berth { result ≡ settled found berth.now }
    ensures held { (v : Vector) → count_of v held.new.held
        + ((if is_at v berth.now.place then 1 else 0) + (if is_at v found then 1 else 0))
        ≡ count_of v held.old.held + (if is_at v result.place then 1 else 0) }
    ensures sized { (held.new.cpus ≡ held.old.cpus) × (held.new.vectors ≡ held.old.vectors) }
{
    if found.is_some() {
        give_one(held, berth.place);
    }
    settled(found, *berth)
}

/// Settles the lines where they found a vector, in order, and tells their notifiers: `next` are the
/// lines from then on.
pub fn settle_all<N: Notifier>(
    held: &mut Vectors,
    berths: &[Berth],
    found: &[Option<Vector>],
    moving: Moving,
    notify: &mut N,
    next: &mut RoomList<Berth>,
    said: &mut RoomList<FleetRow>,
)
    requires same { length found.now ≡ length berths.now }
    requires room { (length berths.now ≤ next.old.spare) × (length berths.now ≤ said.old.spare) }
    requires empty { next.old.items ≡ [] }
    requires queues { All HasQueue berths.now }
    requires held { (v : Vector) → count_of v held.old.held
        ≡ count_by (stands_at v) berths.now + count_by (is_at v) found.now }
    ensures next { next.new.items ≡ all_settled berths.now found.now }
    ensures said { said.new.items ≡ said.old.items ++ all_rows moving berths.now found.now }
    ensures told { TellsMore (λ placings. Told N.tells placings notify.old notify.new)
        said.old.items said.new.items }
    ensures held { (v : Vector) → count_of v held.new.held ≡ count_by (stands_at v) next.new.items }
    ensures sized { (held.new.cpus ≡ held.old.cpus) × (held.new.vectors ≡ held.old.vectors) }
{
    for i in 0..berths.len() {
        let berth = at(berths, i);
        let vector = at(found, i);
        say(said, &berth, vector, moving, notify);
        let settled = leave(held, &berth, vector);
        next.put(settled);
    }
}
