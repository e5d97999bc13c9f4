//! Claims in one thread.
ghost use Rattle.std.specs.Prelude.{◌≡◌};

use irq_base::CpuNo;
use std::test::Fail;
use vector_matrix::{ClaimAnswer, Matrix};

const FIRST: CpuNo = CpuNo(0);

const LAST: CpuNo = CpuNo(31);

/// The greatest and the smallest sizes: a claim past the last vector is full, and a processor's
/// vectors are its own.
#[test]
fn each_processor_has_its_vectors(rt: HostRuntime) -> Result<(), Fail> {
    let (matrix, mut claim) = Matrix::new(rt.alloc(), 32, 1)?;
    assert!(rt; matrix.claim(&mut claim, LAST) == ClaimAnswer::Got(0));
    assert!(rt; matrix.claim(&mut claim, LAST) == ClaimAnswer::Full);
    assert!(rt; matrix.claim(&mut claim, FIRST) == ClaimAnswer::Got(0));
    let words = matrix.finish(claim);
    assert!(rt; words[0] == 1 && words[1] == 0 && words[30] == 0 && words[31] == 1);
    let (matrix, mut claim) = Matrix::new(rt.alloc(), 1, 64)?;
    for number in 0..64 {
        assert!(rt; matrix.claim(&mut claim, FIRST) == ClaimAnswer::Got(number));
    }
    assert!(rt; matrix.claim(&mut claim, FIRST) == ClaimAnswer::Full);
    Ok(())
}

/// A fork goes past the vectors that another claim holds, and after the meeting the first claim has
/// all.
#[test]
fn a_fork_gets_what_nobody_holds(rt: HostRuntime) -> Result<(), Fail> {
    let (matrix, mut first) = Matrix::new(rt.alloc(), 2, 3)?;
    assert!(rt; matrix.claim(&mut first, FIRST) == ClaimAnswer::Got(0));
    let mut fork = matrix.fork(&mut first);
    assert!(rt; matrix.claim(&mut fork, FIRST) == ClaimAnswer::Got(1));
    assert!(rt; matrix.claim(&mut fork, CpuNo(1)) == ClaimAnswer::Got(0));
    assert!(rt; matrix.claim(&mut first, FIRST) == ClaimAnswer::Got(2));
    assert!(rt; matrix.claim(&mut fork, FIRST) == ClaimAnswer::Full);
    matrix.meet(&mut first, fork);
    first.is_known();
    let words = matrix.finish(first);
    assert!(rt; words[0] == 7 && words[1] == 1 && words[2] == 0);
    Ok(())
}
