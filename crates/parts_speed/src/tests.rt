//! Both kinds of work, by hand.
use crate::{Work, answer, checksum};
use parts::Ring;
use residue::Modulus;
use std::test::Fail;

// (x + 4 y)^20 has 21 terms, whose coefficients add to 5^20, which leaves 84; thrice that leaves 50.
#[test]
fn products_and_sums_are_made(rt: HostRuntime) -> Result<(), Fail> {
    let ring = Ring::new(Modulus::new(101)?, 2);
    for (is_sum, times, total) in [(false, 3, 84), (true, 1, 84), (true, 3, 50)] {
        let work = Work {
            is_sum,
            ring,
            degree: 1,
            first: 10,
            second: 10,
            times,
        };
        let part = answer(rt.alloc(), &work)?;
        assert_eq!(rt; part.terms().len(), 21);
        assert_eq!(rt;
            checksum(ring.modulus(), part.terms()),
            total,
            "{times} times"
        );
    }
    Ok(())
}
