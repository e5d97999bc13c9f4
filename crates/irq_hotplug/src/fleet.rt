//! All lines, each with its vector, on the processors that are online.
ghost use Rattle.std.specs.Prelude.{◌≡◌, ℕ, ◌≤◌, ◌<◌, [], true, None, All, IfOk, OnErr, OnOk};
ghost use Rattle.std.specs.Prelude.{length, count_by, slice_index, slice_set};
ghost use Rattle.board_def.specs.Layout.{layout_of};
ghost use Rattle.irq_base.specs.declared.numbers.CpuNo.{CpuNo};
ghost use Rattle.notifiers.specs.Told.{Told};
ghost use Rattle.vector_matrix.specs.Steps.{has};
ghost use Rattle.vector_matrix.specs.Vectors.{vector_of};
ghost use Rattle.vector_matrix.specs.declared.view.Vector.{Vector};
ghost use Rattle.irq_hotplug.specs.Berths.{IsPlaced, place_of, stands_at};
ghost use Rattle.irq_hotplug.specs.Fleet.{after_off, after_on, first_fleet, off_answer};
ghost use Rattle.irq_hotplug.specs.Fleet.{off_refusal, on_answer, placed_fleet, says};
ghost use Rattle.irq_hotplug.specs.Kept.{IsBare, IsSaidOf};
ghost use Rattle.irq_hotplug.specs.Held.{IsSized};
ghost use Rattle.irq_hotplug.specs.Notices.{TellsMore, notices_of};
ghost use Rattle.std.specs.List.{list_any};

use crate::berths::{Berth, Moving, Place, left_out, place_of};
use crate::lines::berths_of;
use crate::placing::{find_all, give_all, settle_all};
use crate::rooms::RoomList;
use crate::rows::{FleetRow, OffAnswer, OnAnswer};
use crate::vectors::Vectors;
use board_def::{Board, Layout};
use irq_base::{CpuNo, LineNo, NoMemory};
use notifiers::Notifier;
use std::alloc::Global;
use std::marker::Model;

/// All lines that take part, each with its vector if it has one, and the processors that are
/// online. Each call adds rows that say what it did.
#[derive(Drop)]
pub struct Fleet {
    held: Vectors,
    vectors: u32,
    online: Vec<bool>,
    berths: RoomList<Berth>,
    said: RoomList<FleetRow>,
}

impl Model for Fleet {
    ghost use Rattle.irq_hotplug.specs.Fleet.{FleetSeen};
    ghost use Rattle.irq_hotplug.specs.Kept.{IsFleet};

    ghost Value = { FleetSeen };

    ghost view = { λ f. record {
      vectors = f.vectors;
      online = f.online.items;
      berths = f.berths.items;
      said = f.said.items;
    } };

    ghost invariant = { λ f. IsFleet f.held f.vectors f.online.items f.berths.items f.said.items };
}

impl Fleet {
    /// Gives each processor 1 to 64 vectors, all processors being online, and places each line of
    /// the board that isn't refused, in the board's order: on the lowest processor of its mask
    /// that has a vector left, or else on the lowest other one. Each placing is told to the
    /// notifier. The only error is `NoMemory`, and then none was.
    pub fn new<N: Notifier>(
        alloc: Global,
        board: &Board,
        layout: &Layout,
        vectors: u32,
        notify: &mut N,
    ) -> Result<Fleet, NoMemory>
        requires vectors { (1 ≤ vectors) × (vectors ≤ 64) }
        requires layout { layout.now ≡ layout_of board.now }
        ensures first { IfOk result (λ f. f ≡ first_fleet board.now vectors) }
        ensures told { IfOk result (λ f.
            Told N.tells (notices_of f.said) notify.old notify.new) }
        ensures untold { OnErr result (Told N.tells [] notify.old notify.new) }
    {
        board.is_board();
        let bare = berths_of(alloc, board, layout)?;
        let held = Vectors::new(alloc, board.cpus(), vectors)?;
        let online = vec![in alloc; true; board.cpus() as usize]?;
        place_first(alloc, held, vectors, online, bare.as_slice(), notify)
    }

    /// No two lines have the same vector, and each is one of an online processor's. What was said
    /// of a placing was said of one of the lines.
    pub fn is_fleet(&self)
        ensures differ { (v : Vector) → count_by (stands_at v) self.now.berths ≤ 1 }
        ensures online { All (IsPlaced self.now.vectors self.now.online) self.now.berths }
        ensures said { All (IsSaidOf self.now.berths) self.now.said }
    {
        self.held.is_each_once();
    }

    /// Takes the processor offline: each line that is placed there is placed anew, in the board's
    /// order, on the processors that stay (`irq_migrate_all_off_this_cpu` of
    /// `kernel/irq/cpuhotplug.c`), which is told to the notifier. If it is refused, only a row is
    /// added that says so. The only error is `NoMemory`, and then nothing has changed.
    pub fn offline<N: Notifier>(
        &mut self,
        alloc: Global,
        cpu: CpuNo,
        notify: &mut N,
    ) -> Result<OffAnswer, NoMemory>
        ensures answer { IfOk result (λ answer. answer ≡ off_answer self.old cpu) }
        ensures after { OnOk result (self.new ≡ after_off self.old cpu) }
        ensures refused { OnErr result (self.new ≡ self.old) }
        ensures told { TellsMore (λ placings. Told N.tells placings notify.old notify.new)
            self.old.said self.new.said }
    {
        if let Some(refusal) = off_refusal(self.online.as_slice(), cpu) {
            self.say(FleetRow::Off {
                cpu,
                answer: refusal,
            })?;
            return Ok(refusal);
        }
        self.leave(alloc, cpu, notify)
    }

    /// Takes the processor online; no line moves.
    pub fn online(&mut self, cpu: CpuNo) -> Result<OnAnswer, NoMemory>
        ensures answer { IfOk result (λ answer. answer ≡ on_answer self.old.online cpu) }
        ensures after { OnOk result (self.new ≡ after_on self.old cpu) }
        ensures refused { OnErr result (self.new ≡ self.old) }
    {
        let answer = on_answer(self.online.as_slice(), cpu);
        self.say(FleetRow::On { cpu, answer })?;
        if answer == OnAnswer::Ok {
            self.set_online(cpu);
        }
        Ok(answer)
    }

    /// What was said so far: of each placing and of each event, in order.
    pub fn said(&self) -> &[FleetRow]
        ensures { result.now ≡ self.now.said }
    {
        self.said.as_slice()
    }

    /// Where the line is: none if it is unplaced, refused, or not of the board.
    pub fn place(&self, line: LineNo) -> Option<Place>
        ensures { result ≡ place_of self.now.berths line }
    {
        place_of(self.berths.as_slice(), line)
    }

    /// Takes the vectors apart: a word for each of 32 processors, in which bit v is set exactly if
    /// a line has the processor's vector v.
    pub fn finish(self) -> [u64; 32]
        ensures { (cpu : CpuNo) (v : ℕ) → cpu.0 < 32 → v < 64
            → has (slice_index result cpu.0) v
            ≡ list_any (stands_at (vector_of cpu v)) self.berths }
    {
        self.held.finish()
    }

    /// Says so; nothing else changes.
    fn say(&mut self, row: FleetRow) -> Result<(), NoMemory>
        requires { IsSaidOf self.old.berths row }
        ensures said { OnOk result (self.new ≡ says self.old row) }
        ensures refused { OnErr result (self.new ≡ self.old) }
    {
        self.said.push(row)
    }

    /// The processor is online; no line moves.
    fn set_online(&mut self, cpu: CpuNo)
        requires { cpu.0 < length self.old.online }
        ensures { self.new ≡ record self.old { online = slice_set self.old.online cpu.0 true } }
    {
        self.online[cpu.0 as usize] = true;
    }

    /// Takes a processor offline beside which another is online, if each line that is placed
    /// there finds a vector on the others.
    fn leave<N: Notifier>(
        &mut self,
        alloc: Global,
        cpu: CpuNo,
        notify: &mut N,
    ) -> Result<OffAnswer, NoMemory>
        requires { off_refusal self.old.online cpu ≡ None }
        ensures answer { IfOk result (λ answer. answer ≡ off_answer self.old cpu) }
        ensures after { OnOk result (self.new ≡ after_off self.old cpu) }
        ensures refused { OnErr result (self.new ≡ self.old) }
        ensures told { TellsMore (λ placings. Told N.tells placings notify.old notify.new)
            self.old.said self.new.said }
    {
        let moving = Moving::From(cpu);
        let count = self.berths.as_slice().len();
        let mut found = RoomList::with_room(alloc, count)?;
        let mut next = RoomList::with_room(alloc, count)?;
        self.said.reserve(count + 1)?;
        self.online[cpu.0 as usize] = false;
        find_all(
            &mut self.held,
            self.berths.as_slice(),
            self.online.as_slice(),
            moving,
            &mut found,
        );
        match left_out(moving, self.berths.as_slice(), found.as_slice()) {
            Some(line) => {
                give_all(&mut self.held, found.as_slice());
                self.online[cpu.0 as usize] = true;
                let answer = OffAnswer::NoVector { line };
                self.said.put(FleetRow::Off { cpu, answer });
                Ok(answer)
            }
            None => {
                let answer = OffAnswer::Ok;
                self.said.put(FleetRow::Off { cpu, answer });
                settle_all(
                    &mut self.held,
                    self.berths.as_slice(),
                    found.as_slice(),
                    moving,
                    notify,
                    &mut next,
                    &mut self.said,
                );
                self.berths = next;
                Ok(answer)
            }
        }
    }
}

/// Places the lines, which have no vector yet.
fn place_first<N: Notifier>(
    alloc: Global,
    mut held: Vectors,
    vectors: u32,
    online: Vec<bool>,
    bare: &[Berth],
    notify: &mut N,
) -> Result<Fleet, NoMemory>
    requires sized { IsSized held online.items }
    requires number { held.vectors ≡ vectors }
    requires none { held.held ≡ [] }
    requires few { length bare.now ≤ 64 }
    requires bare { All IsBare bare.now }
    ensures placed { IfOk result (λ f. f ≡ placed_fleet vectors online.items bare.now) }
    ensures told { IfOk result (λ f. Told N.tells (notices_of f.said) notify.old notify.new) }
    ensures untold { OnErr result (Told N.tells [] notify.old notify.new) }
{
    let moving = Moving::All;
    let mut found = RoomList::with_room(alloc, bare.len())?;
    let mut berths = RoomList::with_room(alloc, bare.len())?;
    let mut said = RoomList::with_room(alloc, bare.len())?;
    find_all(&mut held, bare, online.as_slice(), moving, &mut found);
    settle_all(
        &mut held,
        bare,
        found.as_slice(),
        moving,
        notify,
        &mut berths,
        &mut said,
    );
    Ok(Fleet {
        held,
        vectors,
        online,
        berths,
        said,
    })
}

/// How many processors are online.
fn count_online(online: &[bool]) -> usize
    ensures { result ≡ count_by (λ on. on) online.now }
{
    online.iter().filter(|on| **on).count()
}

/// Why the processor may not go offline, if one looks at processors alone.
fn off_refusal(online: &[bool], cpu: CpuNo) -> Option<OffAnswer>
    ensures { result ≡ off_refusal online.now cpu }
{
    let place = cpu.0 as usize;
    if place >= online.len() {
        return Some(OffAnswer::NotThere);
    }
    if !online[place] {
        return Some(OffAnswer::NotOnline);
    }
    if count_online(online) <= 1 {
        return Some(OffAnswer::LastOne);
    }
    None
}

/// How the processor's coming online is answered.
fn on_answer(online: &[bool], cpu: CpuNo) -> OnAnswer
    ensures { result ≡ on_answer online.now cpu }
{
    let place = cpu.0 as usize;
    if place >= online.len() {
        return OnAnswer::NotThere;
    }
    if online[place] {
        OnAnswer::IsOnline
    } else {
        OnAnswer::Ok
    }
}
