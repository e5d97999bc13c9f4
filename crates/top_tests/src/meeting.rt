//! A gate and handlers that make threads wait for one another: in one thread alone nobody would
//! come.
use callbacks::{ByKind, SharedHandler};
use irq_base::{Actor, Answer, CpuNo, DevNo, DriverNo, Run};
use std::hint::spin_loop;
use std::sync::atomic::{AtomicBool, AtomicU64, Ordering};
use std::thread::yield_now;
use workers::Gate;

/// How often a hold looks at most whether the other has come.
const LOOKS: u64 = 500_000_000;

/// After this many looks other threads are let run.
const SPINS: u64 = 64;

/// Two counts, of the first and of the second.
#[derive(Drop)]
struct Pair(AtomicU64, AtomicU64);

/// Who has come so far, on a board with drivers 1 and 2, processors 0 and 1, and devices 1 and 2.
#[derive(Drop)]
pub struct Meeting {
    /// The drivers' attempts.
    drivers: Pair,
    /// The processors' attempts.
    cpus: Pair,
    /// The calls of the devices' handlers.
    calls: Pair,
    /// A hold has used up its looks, and none waits any more.
    is_given_up: AtomicBool,
    /// An attempt came with another number than the next.
    is_miscounted: AtomicBool,
}

impl Meeting {
    /// Nobody has come.
    pub fn new() -> Meeting {
        Meeting {
            drivers: Pair(AtomicU64::new(0), AtomicU64::new(0)),
            cpus: Pair(AtomicU64::new(0), AtomicU64::new(0)),
            calls: Pair(AtomicU64::new(0), AtomicU64::new(0)),
            is_given_up: AtomicBool::new(false),
            is_miscounted: AtomicBool::new(false),
        }
    }

    /// How many attempts of the actor have come; 0 if the board lacks it.
    pub fn attempts_of(&self, actor: Actor) -> u64 {
        match self.attempts(actor) {
            Some(attempts) => attempts.load(Ordering::SeqCst),
            None => 0,
        }
    }

    /// How often the device's handler was called.
    pub fn calls_of(&self, dev: DevNo) -> u64 {
        self.calls(dev).0.load(Ordering::SeqCst)
    }

    /// Whether a hold has used up its looks.
    pub fn is_given_up(&self) -> bool {
        self.is_given_up.load(Ordering::SeqCst)
    }

    /// Whether an attempt came with another number than the next of its actor.
    pub fn is_miscounted(&self) -> bool {
        self.is_miscounted.load(Ordering::SeqCst)
    }

    /// The count of the actor's attempts.
    fn attempts(&self, actor: Actor) -> Option<&AtomicU64> {
        match actor {
            Actor::Driver(DriverNo(1)) => Some(&self.drivers.0),
            Actor::Driver(DriverNo(2)) => Some(&self.drivers.1),
            Actor::Cpu(CpuNo(0)) => Some(&self.cpus.0),
            Actor::Cpu(CpuNo(1)) => Some(&self.cpus.1),
            _ => None,
        }
    }

    /// The count of the device's calls, and the count of the other device's.
    fn calls(&self, dev: DevNo) -> (&AtomicU64, &AtomicU64) {
        match dev {
            DevNo(1) => (&self.calls.0, &self.calls.1),
            _ => (&self.calls.1, &self.calls.0),
        }
    }

    /// Waits until the count has reached `wanted`, or a hold has used up its looks.
    fn hold(&self, count: &AtomicU64, wanted: u64) {
        for look in 1..=LOOKS {
            if count.load(Ordering::SeqCst) >= wanted || self.is_given_up() {
                return;
            }
            if look % SPINS == 0 {
                yield_now();
            } else {
                spin_loop();
            }
        }
        self.is_given_up.store(true, Ordering::SeqCst);
    }
}

/// Driver 1's second attempt waits for driver 2's first, and that for driver 1's second; each
/// processor's first attempt waits for the third attempts of both drivers.
impl Gate for Meeting {
    fn pass(&self, actor: Actor, attempt: u64) {
        let Some(attempts) = self.attempts(actor) else {
            return;
        };
        let before = attempts.fetch_add(1, Ordering::SeqCst);
        if before.wrapping_add(1) != attempt {
            self.is_miscounted.store(true, Ordering::SeqCst);
        }
        match (actor, attempt) {
            (Actor::Driver(DriverNo(1)), 2) => self.hold(&self.drivers.1, 1),
            (Actor::Driver(DriverNo(2)), 1) => self.hold(&self.drivers.0, 2),
            (Actor::Cpu(_), 1) => {
                self.hold(&self.drivers.0, 3);
                self.hold(&self.drivers.1, 3);
            }
            _ => {}
        }
    }
}

/// Handlers that wait until the other device's has been called, and then answer by the kind.
#[derive(Clone, Copy)]
pub struct Meets<'m> {
    pub meeting: &'m Meeting,
}

impl SharedHandler for Meets<'_> {
    ghost gave = { λ handlers run answer. Unit {0} };

    fn answer(&self, run: Run) -> Answer {
        let (calls, others) = self.meeting.calls(run.def.dev);
        calls.fetch_add(1, Ordering::SeqCst);
        self.meeting.hold(others, 1);
        ByKind.answer(run)
    }
}
