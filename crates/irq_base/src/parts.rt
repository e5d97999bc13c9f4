//! The parts of a packed word, and the entries that they stand for.
ghost use Rattle.std.specs.Prelude.{◌≡◌, ◌+◌, ◌*◌, ◌/◌, ◌%◌, ◌<◌, ◌≤◌, ◌&&◌, true, false, is_some};
ghost use Rattle.std.specs.Prelude.{if◌then◌else◌, IfSome, Some, None, option_map};
ghost use Rattle.irq_base.specs.Codes.{way_at, take_at, answer_at, note_at, link_at, opened_at};
ghost use Rattle.irq_base.specs.Codes.{flag_at};
ghost use Rattle.irq_base.specs.EntryKinds.{kind_of_call, kind_of_cpu, kind_of_driver};
ghost use Rattle.irq_base.specs.EntryKinds.{kind_of_entry, kind_of_thread};
ghost use Rattle.irq_base.specs.Packed.{call_entry, cpu_entry, dev_part, driver_entry, entry_of};
ghost use Rattle.irq_base.specs.Packed.{flags_at, is_call_kind, is_narrow, is_narrow_call};
ghost use Rattle.irq_base.specs.Packed.{is_narrow_cpu, is_narrow_driver, is_narrow_number};
ghost use Rattle.irq_base.specs.Packed.{served_part, thread_entry};

use crate::calls::Flags;
use crate::codes::{
    affinity_at, affinity_number, answer_at, answer_number, enable_at, enable_number, flag_at,
    flag_number, link_at, link_number, note_at, note_number, opened_at, opened_number, take_at,
    take_number, unlink_at, unlink_number, way_at, way_number,
};
use crate::entries::{
    CallEntry, CpuEntry, DriverEntry, Entry, LinkAnswer, Note, Opened, TakeAnswer, ThreadEntry, Way,
};
use crate::kinds::{EntryKind, kind_of_end};
use crate::numbers::{CpuNo, DevNo, DriverNo};

/// What a word says of an entry beside its maker: the kind, a code of its small answers, and a
/// number.
#[derive(Clone, Copy)]
pub struct Content {
    pub kind: u32,
    pub code: u32,
    pub second: u32,
}

/// The parts of a word: who made the entry, the maker's number, and what the entry says.
#[derive(Clone, Copy)]
pub struct Parts {
    pub who: u32,
    pub first: u32,
    pub content: Content,
}

// Who makes an entry. What is neither of the first two is a driver.
const CPU: u32 = 0;

const THREAD: u32 = 1;

const DRIVER: u32 = 2;

// The kinds of a processor's own entries.
const TAKE: u32 = 0;

const BEGIN: u32 = 1;

const RETURN: u32 = 2;

const END: u32 = 3;

// The kinds of a thread's own entries.
const THREAD_BEGIN: u32 = 0;

const THREAD_RETURN: u32 = 1;

const FINISH: u32 = 2;

const DONE: u32 = 3;

// The kinds of a driver's own entries.
const ASK: u32 = 0;

const REQUEST: u32 = 1;

const AFFINITY: u32 = 2;

const MOMENT: u32 = 3;

// The kinds of calls.
const DISABLE: u32 = 4;

const HARD_CLEAR: u32 = 5;

const SYNCED: u32 = 6;

const ENABLE: u32 = 7;

const UNLINK: u32 = 8;

const FREED: u32 = 9;

const WAKE: u32 = 10;

const QUIET: u32 = 11;

const ARM: u32 = 12;

const SERVE: u32 = 13;

impl Parts {
    // These parts, if the maker's number and the numbers of the entry fit.
    fn if_narrow(who: u32, first: u32, content: Option<Content>) -> Option<Parts>
        ensures { result ≡ (if is_narrow_number first then option_map
            (λ c. record { who = who; first = first; content = c }) content else None) }
    {
        if !is_narrow_number(first) {
            return None;
        }
        let content = content?;
        Some(Parts {
            who,
            first,
            content,
        })
    }

    /// The parts that stand for the entry; none if one of its numbers doesn't fit.
    #[tactic(auto, unfolding(crate::specs::Packed::entry_of))]
    #[inline(always)]
    pub fn of_entry(entry: Entry) -> Option<Parts>
        ensures narrow { is_some result ≡ is_narrow entry }
        ensures who { IfSome result (λ p. p.who < 3) }
        ensures kind { IfSome result (λ p. p.content.kind < 16) }
        ensures code { IfSome result (λ p. p.content.code < 256) }
        ensures first { IfSome result (λ p. p.first < 65536) }
        ensures entry { IfSome result (λ p. entry_of p ≡ entry) }
    {
        match entry {
            Entry::Cpu(cpu, entry) => Parts::if_narrow(CPU, cpu.0, of_cpu(entry)),
            Entry::Thread(dev, entry) => Parts::if_narrow(THREAD, dev.0, Some(of_thread(entry))),
            Entry::Driver(driver, entry) => Parts::if_narrow(DRIVER, driver.0, of_driver(entry)),
            Entry::CpuCall(cpu, call) => Parts::if_narrow(CPU, cpu.0, of_call(call)),
            Entry::ThreadCall(dev, call) => Parts::if_narrow(THREAD, dev.0, of_call(call)),
            Entry::DriverCall(driver, call) => Parts::if_narrow(DRIVER, driver.0, of_call(call)),
        }
    }

    /// The entry that the parts stand for.
    #[tactic(auto, unfolding(crate::specs::Packed::entry_of))]
    pub fn entry(self) -> Entry
        ensures { result ≡ entry_of self }
    {
        let content = self.content;
        match (self.who, content.is_call()) {
            (CPU, false) => Entry::Cpu(CpuNo(self.first), content.cpu_entry()),
            (CPU, true) => Entry::CpuCall(CpuNo(self.first), content.call_entry()),
            (THREAD, false) => Entry::Thread(DevNo(self.first), content.thread_entry()),
            (THREAD, true) => Entry::ThreadCall(DevNo(self.first), content.call_entry()),
            (_, false) => Entry::Driver(DriverNo(self.first), content.driver_entry()),
            (_, true) => Entry::DriverCall(DriverNo(self.first), content.call_entry()),
        }
    }

    /// The kind of the entry that the parts stand for. The entry isn't made.
    #[tactic(auto, unfolding(crate::specs::Packed::entry_of))]
    pub fn kind(self) -> EntryKind
        ensures { result ≡ kind_of_entry (entry_of self) }
    {
        let content = self.content;
        if content.is_call() {
            return content.kind_of_call();
        }
        match self.who {
            CPU => content.kind_of_cpu(),
            THREAD => content.kind_of_thread(),
            _ => content.kind_of_driver(),
        }
    }
}

impl Content {
    fn new(kind: u32, code: u32, second: u32) -> Content
        ensures { result ≡ record { kind = kind; code = code; second = second } }
    {
        Content { kind, code, second }
    }

    // Whether it is a call's.
    fn is_call(self) -> bool
        ensures { result ≡ is_call_kind self }
    {
        self.kind > 3
    }

    // The device and the number that share the second number.
    fn dev_part(self) -> DevNo
        ensures { result ≡ dev_part self.second }
    {
        DevNo(self.second % 65_536)
    }

    fn served_part(self) -> u32
        ensures { result ≡ served_part self.second }
    {
        self.second / 65_536
    }

    #[tactic(auto, unfolding(crate::specs::Packed::cpu_entry))]
    fn cpu_entry(self) -> CpuEntry
        ensures { result ≡ cpu_entry self }
    {
        let code = self.code;
        match self.kind {
            TAKE => CpuEntry::Take {
                way: way_at(code % 2),
                answer: take_at(code / 2),
            },
            BEGIN => CpuEntry::Begin {
                dev: DevNo(self.second),
            },
            RETURN => CpuEntry::Return {
                answer: answer_at(code),
                dev: self.dev_part(),
                served: self.served_part(),
            },
            _ => CpuEntry::End {
                again: flag_at(code % 2),
                unmask: flag_at(code / 2 % 2),
                note: note_at(code / 4),
            },
        }
    }

    #[tactic(auto, unfolding(crate::specs::Packed::thread_entry))]
    fn thread_entry(self) -> ThreadEntry
        ensures { result ≡ thread_entry self }
    {
        match self.kind {
            THREAD_BEGIN => ThreadEntry::Begin,
            THREAD_RETURN => ThreadEntry::Return {
                handled: flag_at(self.code),
                served: self.second,
            },
            FINISH => ThreadEntry::Finish {
                kept: flag_at(self.code % 2),
                unmask: flag_at(self.code / 2),
            },
            _ => ThreadEntry::Done,
        }
    }

    #[tactic(auto, unfolding(crate::specs::Packed::driver_entry))]
    fn driver_entry(self) -> DriverEntry
        ensures { result ≡ driver_entry self }
    {
        let dev = DevNo(self.second);
        match self.kind {
            ASK => DriverEntry::Ask {
                edge: flag_at(self.code),
                dev,
            },
            REQUEST => DriverEntry::Request {
                flags: flags_at(self.code % 8),
                answer: link_at(self.code / 8 % 4),
                opened: opened_at(self.code / 32),
                dev,
            },
            AFFINITY => DriverEntry::Affinity {
                answer: affinity_at(self.code),
                mask: self.second,
            },
            _ => DriverEntry::Moment { at: self.second },
        }
    }

    #[tactic(auto, unfolding(crate::specs::Packed::call_entry))]
    fn call_entry(self) -> CallEntry
        ensures { result ≡ call_entry self }
    {
        let code = self.code;
        let dev = DevNo(self.second);
        match self.kind {
            DISABLE => CallEntry::Disable,
            HARD_CLEAR => CallEntry::HardClear,
            SYNCED => CallEntry::Synced,
            ENABLE => CallEntry::Enable {
                answer: enable_at(code),
            },
            UNLINK => CallEntry::Unlink {
                answer: unlink_at(code),
                dev,
            },
            FREED => CallEntry::Freed { dev },
            WAKE => CallEntry::Wake {
                woken: flag_at(code),
                dev,
            },
            QUIET => CallEntry::Quiet { dev },
            ARM => CallEntry::Arm {
                edge: flag_at(code),
                dev,
            },
            _ => CallEntry::Serve {
                dev: self.dev_part(),
                served: self.served_part(),
            },
        }
    }

    #[tactic(auto, unfolding(crate::specs::Packed::cpu_entry))]
    fn kind_of_cpu(self) -> EntryKind
        ensures { result ≡ kind_of_cpu (cpu_entry self) }
    {
        match self.kind {
            TAKE => EntryKind::Take,
            BEGIN => EntryKind::Begin,
            RETURN => EntryKind::Return {
                served: self.served_part(),
            },
            _ => kind_of_end(note_at(self.code / 4)),
        }
    }

    #[tactic(auto, unfolding(crate::specs::Packed::thread_entry))]
    fn kind_of_thread(self) -> EntryKind
        ensures { result ≡ kind_of_thread (thread_entry self) }
    {
        match self.kind {
            THREAD_BEGIN => EntryKind::ThreadBegin,
            THREAD_RETURN => EntryKind::ThreadReturn {
                served: self.second,
            },
            _ => EntryKind::Other,
        }
    }

    #[tactic(auto, unfolding(crate::specs::Packed::driver_entry))]
    fn kind_of_driver(self) -> EntryKind
        ensures { result ≡ kind_of_driver (driver_entry self) }
    {
        match self.kind {
            ASK => EntryKind::Ask,
            REQUEST => EntryKind::Standing,
            _ => EntryKind::Other,
        }
    }

    #[tactic(auto, unfolding(crate::specs::Packed::call_entry))]
    fn kind_of_call(self) -> EntryKind
        ensures { result ≡ kind_of_call (call_entry self) }
    {
        match self.kind {
            DISABLE | ENABLE | UNLINK => EntryKind::Standing,
            HARD_CLEAR | SYNCED | FREED | WAKE | QUIET | ARM => EntryKind::Other,
            _ => EntryKind::Serve {
                served: self.served_part(),
            },
        }
    }
}

// What a word says of a processor's entry, if its numbers fit.
#[tactic(auto, unfolding(crate::specs::Packed::cpu_entry))]
#[inline(always)]
fn of_cpu(entry: CpuEntry) -> Option<Content>
    ensures narrow { is_some result ≡ is_narrow_cpu entry }
    ensures kind { IfSome result (λ c. c.kind < 4) }
    ensures code { IfSome result (λ c. c.code < 256) }
    ensures entry { IfSome result (λ c. cpu_entry c ≡ entry) }
{
    match entry {
        CpuEntry::Take { way, answer } => Some(Content::new(TAKE, take_code(way, answer), 0)),
        CpuEntry::Begin { dev } => with_dev(BEGIN, 0, dev),
        CpuEntry::Return {
            answer,
            dev,
            served,
        } => with_served(RETURN, answer_number(answer), dev, served),
        CpuEntry::End {
            again,
            unmask,
            note,
        } => Some(Content::new(END, end_code(again, unmask, note), 0)),
    }
}

// What a word says of a thread's entry.
#[tactic(auto, unfolding(crate::specs::Packed::thread_entry))]
#[inline(always)]
fn of_thread(entry: ThreadEntry) -> Content
    ensures kind { result.kind < 4 }
    ensures code { result.code < 256 }
    ensures entry { thread_entry result ≡ entry }
{
    match entry {
        ThreadEntry::Begin => Content::new(THREAD_BEGIN, 0, 0),
        ThreadEntry::Return { handled, served } => {
            Content::new(THREAD_RETURN, flag_number(handled), served)
        }
        ThreadEntry::Finish { kept, unmask } => Content::new(FINISH, finish_code(kept, unmask), 0),
        ThreadEntry::Done => Content::new(DONE, 0, 0),
    }
}

// What a word says of an entry that drivers alone make, if its numbers fit.
#[tactic(auto, unfolding(crate::specs::Packed::driver_entry))]
#[inline(always)]
fn of_driver(entry: DriverEntry) -> Option<Content>
    ensures narrow { is_some result ≡ is_narrow_driver entry }
    ensures kind { IfSome result (λ c. c.kind < 4) }
    ensures code { IfSome result (λ c. c.code < 256) }
    ensures entry { IfSome result (λ c. driver_entry c ≡ entry) }
{
    match entry {
        DriverEntry::Ask { edge, dev } => with_dev(ASK, flag_number(edge), dev),
        DriverEntry::Request {
            flags,
            answer,
            opened,
            dev,
        } => with_dev(REQUEST, request_code(flags, answer, opened), dev),
        DriverEntry::Affinity { answer, mask } => {
            Some(Content::new(AFFINITY, affinity_number(answer), mask))
        }
        DriverEntry::Moment { at } => Some(Content::new(MOMENT, 0, at)),
    }
}

// What a word says of a call's entry, if its numbers fit.
#[tactic(auto, unfolding(crate::specs::Packed::call_entry))]
fn of_call(call: CallEntry) -> Option<Content>
    ensures narrow { is_some result ≡ is_narrow_call call }
    ensures kind { IfSome result (λ c. 3 < c.kind) }
    ensures below { IfSome result (λ c. c.kind < 16) }
    ensures code { IfSome result (λ c. c.code < 256) }
    ensures entry { IfSome result (λ c. call_entry c ≡ call) }
{
    match call {
        CallEntry::Disable => Some(Content::new(DISABLE, 0, 0)),
        CallEntry::HardClear => Some(Content::new(HARD_CLEAR, 0, 0)),
        CallEntry::Synced => Some(Content::new(SYNCED, 0, 0)),
        CallEntry::Enable { answer } => Some(Content::new(ENABLE, enable_number(answer), 0)),
        CallEntry::Unlink { answer, dev } => with_dev(UNLINK, unlink_number(answer), dev),
        CallEntry::Freed { dev } => with_dev(FREED, 0, dev),
        CallEntry::Wake { woken, dev } => with_dev(WAKE, flag_number(woken), dev),
        CallEntry::Quiet { dev } => with_dev(QUIET, 0, dev),
        CallEntry::Arm { edge, dev } => with_dev(ARM, flag_number(edge), dev),
        CallEntry::Serve { dev, served } => with_served(SERVE, 0, dev, served),
    }
}

// With a device as the second number, if it fits.
fn with_dev(kind: u32, code: u32, dev: DevNo) -> Option<Content>
    ensures { result ≡ (if is_narrow_number dev.0 then Some
        (record { kind = kind; code = code; second = dev.0 }) else None) }
{
    if !is_narrow_number(dev.0) {
        return None;
    }
    Some(Content::new(kind, code, dev.0))
}

// With a device and how many of its asks were served in the second number, if both fit.
fn with_served(kind: u32, code: u32, dev: DevNo, served: u32) -> Option<Content>
    ensures narrow { is_some result ≡ (is_narrow_number dev.0 && is_narrow_number served) }
    ensures kind { IfSome result (λ c. c.kind ≡ kind) }
    ensures code { IfSome result (λ c. c.code ≡ code) }
    ensures dev { IfSome result (λ c. dev_part c.second ≡ dev) }
    ensures served { IfSome result (λ c. served_part c.second ≡ served) }
{
    if !is_narrow_number(dev.0) || !is_narrow_number(served) {
        return None;
    }
    Some(Content::new(kind, code, dev.0 + 65_536 * served))
}

fn is_narrow_number(n: u32) -> bool
    ensures { result ≡ is_narrow_number n }
{
    n < 65_536
}

#[tactic(auto, unfolding(crate::specs::Packed::flags_at))]
fn flags_at(n: u32) -> Flags
    ensures { result ≡ flags_at n }
{
    Flags {
        shared: flag_at(n % 2),
        oneshot: flag_at(n / 2 % 2),
        noauto: flag_at(n / 4),
    }
}

fn take_code(way: Way, answer: TakeAnswer) -> u32
    ensures below { result < 256 }
    ensures way { way_at (result % 2) ≡ way }
    ensures answer { take_at (result / 2) ≡ answer }
{
    way_number(way) + 2 * take_number(answer)
}

fn end_code(again: bool, unmask: bool, note: Note) -> u32
    ensures below { result < 256 }
    ensures again { flag_at (result % 2) ≡ again }
    ensures unmask { flag_at (result / 2 % 2) ≡ unmask }
    ensures note { note_at (result / 4) ≡ note }
{
    flag_number(again) + 2 * flag_number(unmask) + 4 * note_number(note)
}

fn finish_code(kept: bool, unmask: bool) -> u32
    ensures below { result < 256 }
    ensures kept { flag_at (result % 2) ≡ kept }
    ensures unmask { flag_at (result / 2) ≡ unmask }
{
    flag_number(kept) + 2 * flag_number(unmask)
}

fn request_code(flags: Flags, answer: LinkAnswer, opened: Opened) -> u32
    ensures below { result < 256 }
    ensures flags { flags_at (result % 8) ≡ flags }
    ensures answer { link_at (result / 8 % 4) ≡ answer }
    ensures opened { opened_at (result / 32) ≡ opened }
{
    flags_number(flags) + 8 * link_number(answer) + 32 * opened_number(opened)
}

#[tactic(auto, unfolding(crate::specs::Packed::flags_at))]
fn flags_number(flags: Flags) -> u32
    ensures below { result < 8 }
    ensures back { flags_at result ≡ flags }
{
    flag_number(flags.shared) + 2 * flag_number(flags.oneshot) + 4 * flag_number(flags.noauto)
}
