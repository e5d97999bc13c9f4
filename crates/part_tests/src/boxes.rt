//! A function in a box is called once for each answer, at hand and shared.
ghost use Rattle.std.specs.Prelude.{◌≡◌};
ghost use Rattle.callbacks.specs.Seen.{answer_to};

use callbacks::{Boxed, ByKind, Handler, Said, SharedHandler};
use irq_base::{Answer, DevNo, DeviceDef, Kind, LineNo, Part, Run};
use std::alloc::{AllocError, Global};
use std::sync::Arc;
use std::sync::atomic::{AtomicU64, Ordering};
use std::test::Fail;

/// A run of a handler that wakes its device's thread, since something was asked.
const RUN: Run = Run {
    def: DeviceDef {
        dev: DevNo(3),
        line: LineNo(1),
        kind: Kind::Check,
        held: false,
        forgets: false,
    },
    part: Part::Primary,
    unserved: 1,
    told: None,
};

/// Handlers that count how often they are called.
fn counting(alloc: Global, calls: Arc<AtomicU64>) -> Result<Boxed, AllocError> {
    let handling = Box::new(
        alloc,
        move |run: Run| -> Answer
            ensures { result ≡ answer_to run }
        {
            calls.fetch_add(1, Ordering::SeqCst);
            SharedHandler::answer(&ByKind, run)
        },
    )?;
    Ok(Boxed::new(handling))
}

#[test]
fn each_answer_calls_the_kept_function_once(rt: HostRuntime) -> Result<(), Fail> {
    let calls = Arc::new(rt.alloc(), AtomicU64::new(0))?;
    let mut handlers = counting(rt.alloc(), Arc::try_clone(&calls)?)?;
    for made in 0..5 {
        assert_eq!(rt; calls.load(Ordering::SeqCst), 2 * made);
        assert!(rt; Handler::answer(&mut handlers, RUN) == Answer::Wake);
        assert!(rt; Said::of(&handlers, RUN).answer() == Answer::Wake);
    }
    Ok(())
}
