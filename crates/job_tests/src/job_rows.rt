//! Jobs: their refusals in their order, and the rows of their inputs.
use crate::jobs::{names_of, roots_of};
use expr_reader::read;
use intake::{Job, JobError};
use parts::{Part, RowSource, permitted};
use residue::Modulus;
use std::alloc::Global;
use std::sync::Arc;
use std::test::Fail;

/// The job of a text over x modulo m, with roots of these values and multiplicities.
fn job(
    alloc: Global,
    m: u64,
    text: &[u8],
    roots: &[(u64, u32)],
) -> Result<Result<Job, JobError>, Fail> {
    if text.len() > 65536 {
        return Err("too long")?;
    }
    let modulus = Modulus::new(m)?;
    let names = names_of(alloc, &["x"])?;
    let roots = roots_of(alloc, modulus, roots)?;
    if names.len() == 0 || roots.is_empty() {
        return Err("no job")?;
    }
    let tree = read(alloc, text, &names)?;
    Ok(Job::make(alloc, modulus, names, [1; 8], tree, roots))
}

#[test]
fn the_first_fault_is_told(rt: HostRuntime) -> Result<(), Fail> {
    let alloc = rt.alloc();
    let cases: [(u64, &[u8], &[(u64, u32)], JobError); 8] = [
        (7, b"x/Y", &[(0, 1)], JobError::DividesByY { division: 1 }),
        (
            7,
            b"Y^33/x",
            &[(0, 1)],
            JobError::DegreeTooLarge { degree: 33 },
        ),
        (
            7,
            b"2*Y/(1-1)/x",
            &[(0, 1)],
            JobError::NotAUnit {
                division: 1,
                value: 0,
                gcd: 7,
            },
        ),
        (
            6,
            b"3*Y + x",
            &[(0, 2)],
            JobError::LeadNotAUnit { value: 3, gcd: 3 },
        ),
        (
            7,
            b"Y^3 - Y^3 + Y",
            &[(0, 1)],
            JobError::LeadNotAUnit { value: 0, gcd: 7 },
        ),
        (
            7,
            b"Y^2 - 1",
            &[(1, 1), (1, 2)],
            JobError::DegreeMismatch { degree: 2, sum: 3 },
        ),
        (
            6,
            b"Y^2 - 1",
            &[(1, 1), (5, 1)],
            JobError::NotApart {
                first: 1,
                second: 2,
                difference: 2,
                gcd: 2,
            },
        ),
        (
            7,
            b"2*Y + 1",
            &[(0, 1)],
            JobError::RootsMismatch {
                power: 0,
                input: 1,
                roots: 0,
            },
        ),
    ];
    for (m, text, roots, error) in cases {
        match job(alloc, m, text, roots)? {
            Ok(_) => assert!(rt; false, "{error:?} isn't told"),
            Err(found) => assert_eq!(rt; found, error),
        }
    }
    Ok(())
}

/// The terms of a part, each as its power of x and its coefficient.
fn terms(alloc: Global, part: &Part) -> Result<Vec<(u32, u64)>, Fail> {
    let mut terms = Vec::new(alloc);
    for term in part.terms() {
        terms.push((term.monomial.power(0), term.coefficient))?;
    }
    Ok(terms)
}

/// The part of degree r of the lead.
#[tactic(auto, using(crate::proofs::Permitted::permitted_for))]
fn lead_part(job: &mut Job, r: u32) -> Result<Arc<Part>, Fail> {
    if !permitted(job.ring(), r) {
        return Err("not permitted")?;
    }
    Ok(job.input().lead_part(r)?)
}

/// The row of degree r of the input.
#[tactic(auto, using(crate::proofs::Permitted::permitted_for))]
fn input_row(job: &mut Job, r: u32) -> Result<Vec<Arc<Part>>, Fail> {
    if !permitted(job.ring(), r) {
        return Err("not permitted")?;
    }
    Ok(job.input().input_row(r)?)
}

/// The row of degree r of the monic input.
#[tactic(auto, using(crate::proofs::Permitted::permitted_for))]
fn monic_row(job: &mut Job, r: u32) -> Result<Vec<Arc<Part>>, Fail> {
    if !permitted(job.ring(), r) {
        return Err("not permitted")?;
    }
    Ok(job.input().row(r)?)
}

// (2 + x) * Y^2 + x modulo 7, over its lead: Y^2 + x / (2 + x), where
// x / (2 + x) = 4*x + 5*x^2 + ..
#[test]
fn rows_of_a_job_with_a_lead(rt: HostRuntime) -> Result<(), Fail> {
    let alloc = rt.alloc();
    let mut job = job(alloc, 7, b"(2+x)*Y^2 + x", &[(0, 2)])??;
    assert!(rt; job.has_lead());
    assert_eq!(rt; job.degree(), 2);
    let lead: [&[(u32, u64)]; 3] = [&[(0, 2)], &[(1, 1)], &[]];
    let last: [&[(u32, u64)]; 3] = [&[], &[(1, 4)], &[(2, 5)]];
    for r in 0..3_u32 {
        let part = lead_part(&mut job, r)?;
        assert!(rt; terms(alloc, &part)?.as_slice() == lead[r as usize]);
        let row = monic_row(&mut job, r)?;
        assert_eq!(rt; row.len(), 3);
        assert!(rt; terms(alloc, &row[0])?.as_slice() == last[r as usize]);
        assert!(rt; row[1].is_zero());
        assert_eq!(rt; row[2].is_zero(), r > 0);
        let input = input_row(&mut job, r)?;
        assert_eq!(rt; input.len(), 3);
        assert!(rt; terms(alloc, &input[2])?.as_slice() == lead[r as usize]);
    }
    Ok(())
}

// Y / (1 - x) modulo 7: the lead is 1 + x + x^2 + .., and the monic input is Y
#[test]
fn a_lead_by_a_division(rt: HostRuntime) -> Result<(), Fail> {
    let alloc = rt.alloc();
    let mut job = job(alloc, 7, b"Y/(1-x)", &[(0, 1)])??;
    assert!(rt; job.has_lead());
    for r in 0..4_u32 {
        let lead = lead_part(&mut job, r)?;
        assert!(rt; terms(alloc, &lead)?.as_slice() == [(r, 1)].as_slice());
        let row = monic_row(&mut job, r)?;
        assert_eq!(rt; row.len(), 2);
        assert!(rt; row[0].is_zero());
        assert_eq!(rt; row[1].is_zero(), r > 0);
    }
    Ok(())
}
