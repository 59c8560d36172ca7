//! The plain functions on a few small polynomials.
ghost use Rattle.std.specs.Prelude.{◌≤◌, IfOk};
ghost use Rattle.ps_model.specs.PlainPolynomial.{HasKeysWithin, HasValuesBelow, small_key};

use ps_model::{
    Expr, JobData, OutOfMemory, PlainPoly, PlainTerm, Root, plain_cut, plain_is_factors,
    plain_product, plain_sum,
};
use sqlite_items::{Boxed, Items};
use std::alloc::Global;

/// A polynomial of small terms, each a power of x, one of z, one of Y and a coefficient: powers from
/// 4 on count as 3, and coefficients are taken modulo 101.
fn poly(alloc: Global, terms: &[(u16, u16, u32, u64)]) -> Result<PlainPoly, OutOfMemory>
    ensures within { IfOk result (λ p. HasKeysWithin small_key p) }
    ensures residues { IfOk result (λ p. HasValuesBelow 101 p) }
{
    let mut p = PlainPoly::new(alloc);
    for &(x, z, y, coefficient) in terms {
        let x = x.min(3);
        let z = z.min(3);
        p.put(PlainTerm {
            powers: [x, z, 0, 0, 0, 0, 0, 0],
            y: y.min(3),
            coefficient: coefficient % 101,
        })?;
    }
    Ok(p)
}

/// The terms of a polynomial in the form that `poly` takes.
fn listed(alloc: Global, p: &PlainPoly) -> Result<Vec<(u16, u16, u32, u64)>, OutOfMemory> {
    let mut terms = Vec::new(alloc);
    for t in p.terms() {
        terms.push((t.powers[0], t.powers[1], t.y, t.coefficient))?;
    }
    Ok(terms)
}

#[test]
fn plain_arithmetic(rt: HostRuntime) -> Result<(), OutOfMemory> {
    let alloc = rt.alloc();
    let x = poly(alloc, &[(1, 0, 0, 1)])?;
    let twice = poly(alloc, &[(1, 0, 0, 2)])?;
    let thrice = poly(alloc, &[(1, 0, 0, 3)])?;
    let both = poly(alloc, &[(2, 0, 0, 1), (1, 0, 0, 1)])?;
    let none = plain_product(alloc, 6, &twice, &thrice)?;
    assert_eq!(rt; none.terms().len(), 0);
    let sum = plain_sum(alloc, 6, &none, &x)?;
    assert_eq!(rt; listed(alloc, &sum)?.as_slice(), [(1, 0, 0, 1)].as_slice());
    let cut = plain_cut(alloc, &[1; 8], &both, 1)?;
    assert_eq!(rt; listed(alloc, &cut)?.as_slice(), [(1, 0, 0, 1)].as_slice());
    Ok(())
}

#[test]
fn plain_cut_by_weights(rt: HostRuntime) -> Result<(), OutOfMemory> {
    let alloc = rt.alloc();
    let terms = [(2, 0, 0, 1), (1, 0, 0, 1), (0, 1, 1, 1)];
    let p = poly(alloc, &terms)?;
    let all = plain_cut(alloc, &[1; 8], &p, 2)?;
    assert_eq!(rt; all.terms().len(), 3);
    let without_z = plain_cut(alloc, &[1, 3, 1, 1, 1, 1, 1, 1], &p, 2)?;
    assert_eq!(rt;
        listed(alloc, &without_z)?.as_slice(),
        [(2, 0, 0, 1), (1, 0, 0, 1)].as_slice()
    );
    // A weight 0 counts as 1.
    let low = plain_cut(alloc, &[0; 8], &p, 1)?;
    assert_eq!(rt;
        listed(alloc, &low)?.as_slice(),
        [(0, 1, 1, 1), (1, 0, 0, 1)].as_slice()
    );
    Ok(())
}

/// Whether Y + first and Y + second are the factors of Y^2 + x * Y + 1 modulo 101 at the origin,
/// where the roots are 10 and 91.
fn are_factors(alloc: Global, first: u64, second: u64) -> Result<bool, OutOfMemory> {
    let roots = [
        Root {
            value: 10,
            times: 1,
        },
        Root {
            value: 91,
            times: 1,
        },
    ];
    let job = JobData {
        modulus: 101,
        n: 1,
        weights: [1; 8],
        expr: Expr::Power(Boxed::new(alloc, Expr::MainVariable)?, 2),
        roots: Items::from_slice(alloc, &roots)?,
    };
    let input = poly(alloc, &[(0, 0, 2, 1), (1, 0, 1, 1), (0, 0, 0, 1)])?;
    let f = poly(alloc, &[(0, 0, 1, 1), (0, 0, 0, first)])?;
    let g = poly(alloc, &[(0, 0, 1, 1), (0, 0, 0, second)])?;
    let fs = [f, g];
    plain_is_factors(alloc, &job, &input, 0, &fs)
}

#[test]
fn plain_factors(rt: HostRuntime) -> Result<(), OutOfMemory> {
    let alloc = rt.alloc();
    assert!(rt; are_factors(alloc, 91, 10)?);
    assert!(rt; !are_factors(alloc, 10, 91)?);
    Ok(())
}

/// Whether Y + 51*x, Y + 100 + 100*x + second*z and Y + 99 + 51*x + third*z are the factors of
/// Y * (Y - 1) * (Y - 2) + x + z*Y modulo 101 up to degree 1, where z has this weight.
fn are_three_factors(
    alloc: Global,
    weight: u16,
    second: u64,
    third: u64,
) -> Result<bool, OutOfMemory> {
    let roots = [
        Root { value: 0, times: 1 },
        Root { value: 1, times: 1 },
        Root { value: 2, times: 1 },
    ];
    let job = JobData {
        modulus: 101,
        n: 2,
        weights: [1, weight, 1, 1, 1, 1, 1, 1],
        expr: Expr::Power(Boxed::new(alloc, Expr::MainVariable)?, 3),
        roots: Items::from_slice(alloc, &roots)?,
    };
    let cubic = [
        (0, 0, 3, 1),
        (0, 0, 2, 98),
        (0, 0, 1, 2),
        (1, 0, 0, 1),
        (0, 1, 1, 1),
    ];
    let input = poly(alloc, &cubic)?;
    let f = poly(alloc, &[(0, 0, 1, 1), (1, 0, 0, 51)])?;
    let g = [
        (0, 0, 1, 1),
        (0, 0, 0, 100),
        (1, 0, 0, 100),
        (0, 1, 0, second),
    ];
    let g = poly(alloc, &g)?;
    let h = [(0, 0, 1, 1), (0, 0, 0, 99), (1, 0, 0, 51), (0, 1, 0, third)];
    let h = poly(alloc, &h)?;
    let fs = [f, g, h];
    plain_is_factors(alloc, &job, &input, 1, &fs)
}

#[test]
fn plain_factors_by_weights(rt: HostRuntime) -> Result<(), OutOfMemory> {
    let alloc = rt.alloc();
    assert!(rt; are_three_factors(alloc, 2, 0, 0)?);
    assert!(rt; !are_three_factors(alloc, 2, 100, 1)?);
    assert!(rt; are_three_factors(alloc, 1, 100, 1)?);
    assert!(rt; !are_three_factors(alloc, 1, 0, 0)?);
    Ok(())
}

/// Whether Y^2 + first*x + second*x^2 is the factor of (2 + x) * Y^2 + x modulo 101 up to degree 2.
fn is_square_factor(alloc: Global, first: u64, second: u64) -> Result<bool, OutOfMemory> {
    let roots = [Root { value: 0, times: 2 }];
    let job = JobData {
        modulus: 101,
        n: 1,
        weights: [1; 8],
        expr: Expr::Power(Boxed::new(alloc, Expr::MainVariable)?, 2),
        roots: Items::from_slice(alloc, &roots)?,
    };
    let input = poly(alloc, &[(0, 0, 2, 2), (1, 0, 2, 1), (1, 0, 0, 1)])?;
    let f = poly(alloc, &[(0, 0, 2, 1), (1, 0, 0, first), (2, 0, 0, second)])?;
    let fs = [f];
    plain_is_factors(alloc, &job, &input, 2, &fs)
}

#[test]
fn plain_factors_with_lead(rt: HostRuntime) -> Result<(), OutOfMemory> {
    let alloc = rt.alloc();
    assert!(rt; is_square_factor(alloc, 51, 25)?);
    assert!(rt; !is_square_factor(alloc, 51, 0)?);
    Ok(())
}
