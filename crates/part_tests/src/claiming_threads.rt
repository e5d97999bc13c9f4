//! Threads that claim side by side.
ghost use Rattle.std.specs.Prelude.{◌≡◌, ◌<◌, ◌≤◌, false};
ghost use Rattle.vector_matrix.specs.Claims.{IsClaimOf};

use irq_base::CpuNo;
use std::test::Fail;
use std::thread::{self, Threads};
use vector_matrix::{Claim, ClaimAnswer, Matrix};

const FIRST: CpuNo = CpuNo(0);

/// Claims vectors of the first processor `times` times. Bit v of the number is set if vector v was
/// got.
fn claim_often(matrix: &Matrix, mut claim: Claim, times: u32) -> (Claim, u64)
    requires claim { IsClaimOf matrix.now claim × (claim.first ≡ false) }
    requires size { (0 < matrix.now.cpus) × (matrix.now.vectors ≤ 64) }
    ensures { IsClaimOf matrix.now result.0 × (result.0.first ≡ false) }
{
    let mut got = 0;
    for _ in 0..times {
        if let ClaimAnswer::Got(number) = matrix.claim(&mut claim, FIRST) {
            got |= 1u64 << number;
        }
    }
    (claim, got)
}

/// Two claims in a thread each.
fn claim_by_two<R: Threads + Sync>(
    rt: &R,
    matrix: &Matrix,
    one: Claim,
    two: Claim,
    times: u32,
) -> ((Claim, u64), (Claim, u64))
    requires one { IsClaimOf matrix.now one × (one.first ≡ false) }
    requires two { IsClaimOf matrix.now two × (two.first ≡ false) }
    requires size { (0 < matrix.now.cpus) × (matrix.now.vectors ≤ 64) }
    ensures one { IsClaimOf matrix.now result.0.0 × (result.0.0.first ≡ false) }
    ensures two { IsClaimOf matrix.now result.1.0 × (result.1.0.first ≡ false) }
{
    thread::join(
        rt,
        move || claim_often(matrix, one, times),
        move || claim_often(matrix, two, times),
    )
}

/// Two threads make 32 claims each on a processor of 64 vectors: each gets 32, since at most 63
/// bits are set before its last claim. Together they are all 64, each once.
#[test]
fn two_threads_share_a_processor(rt: HostRuntime) -> Result<(), Fail> {
    let (matrix, mut first) = Matrix::new(rt.alloc(), 1, 64)?;
    let one = matrix.fork(&mut first);
    let two = matrix.fork(&mut first);
    let ((one, a), (two, b)) = claim_by_two(&rt, &matrix, one, two, 32);
    assert!(rt; a.count_ones() == 32 && b.count_ones() == 32 && a | b == u64::MAX);
    matrix.meet(&mut first, one);
    matrix.meet(&mut first, two);
    let ClaimAnswer::Full = matrix.claim(&mut first, FIRST) else {
        panic!(rt; "a vector was got twice")
    };
    matrix.release(&mut first, FIRST, 5);
    assert!(rt; matrix.claim(&mut first, FIRST) == ClaimAnswer::Got(5));
    let words = matrix.finish(first);
    assert!(rt; words[0] == u64::MAX && words[1] == 0);
    Ok(())
}

/// Four threads make 16 claims each.
#[test]
fn four_threads_share_a_processor(rt: HostRuntime) -> Result<(), Fail> {
    let (matrix, mut first) = Matrix::new(rt.alloc(), 1, 64)?;
    let one = matrix.fork(&mut first);
    let two = matrix.fork(&mut first);
    let three = matrix.fork(&mut first);
    let four = matrix.fork(&mut first);
    let (at, to) = (&rt, &matrix);
    let (((one, a), (two, b)), ((three, c), (four, d))) = thread::join(
        at,
        move || claim_by_two(at, to, one, two, 16),
        move || claim_by_two(at, to, three, four, 16),
    );
    for got in [a, b, c, d] {
        assert!(rt; got.count_ones() == 16);
    }
    assert!(rt; a | b | c | d == u64::MAX);
    matrix.meet(&mut first, one);
    matrix.meet(&mut first, two);
    matrix.meet(&mut first, three);
    matrix.meet(&mut first, four);
    assert!(rt; matrix.claim(&mut first, FIRST) == ClaimAnswer::Full);
    assert!(rt; matrix.finish(first)[0] == u64::MAX);
    Ok(())
}
