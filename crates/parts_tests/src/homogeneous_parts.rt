//! Values by hand, and each call that takes memory once on its happy path.
use parts::{Accumulator, Monomial, Part, Ring, Term, monomials, permitted, product, scaled, sum};
use residue::Modulus;
use std::test::Fail;

#[test]
fn a_term_takes_32_bytes(rt: HostRuntime) {
    assert_eq!(rt; size_of::<Monomial>(), 16);
    assert_eq!(rt; size_of::<Term>(), 32);
}

#[test]
fn a_monomial_is_one_number(rt: HostRuntime) -> Result<(), Fail> {
    let modulus = Modulus::new(7)?;
    for (name, n, powers, number) in [
        // 3 * 2^84 + 4 * 2^72
        (
            "x^3 y^4",
            2,
            [3, 4, 0, 0, 0, 0, 0, 0],
            58047328807433678966751232,
        ),
        ("1", 1, [0; 8], 0),
        ("the last variable", 8, [0, 0, 0, 0, 0, 0, 0, 1], 1),
        // 2^96 - 1
        (
            "the greatest powers",
            8,
            [4095; 8],
            79228162514264337593543950335,
        ),
    ] {
        let at = Monomial::of(Ring::new(modulus, n), powers);
        assert_eq!(rt; at.packed(), number, "the number of {name}");
        assert_eq!(rt; at.power(1), u32::from(powers[1]), "power 1 of {name}");
    }
    Ok(())
}

#[test]
fn monomials_are_counted(rt: HostRuntime) -> Result<(), Fail> {
    let modulus = Modulus::new(7)?;
    // C(256, 2) = 256 * 255 / 2, C(17, 8) = 24310, C(4103, 8) by another program
    for (n, d, count) in [
        (1, 4095, 4096),
        (2, 254, 32640),
        (8, 9, 24310),
        (8, 4095, 1978454467884214565470720),
    ] {
        assert_eq!(rt;
            monomials(Ring::new(modulus, n), d),
            count,
            "of {n} variables up to degree {d}"
        );
    }
    for (n, d, is_permitted) in [
        (2, 254, true),
        (2, 255, false),
        (8, 9, true),
        (8, 10, false),
        (1, 4095, true),
        (1, 4096, false),
        (1, 4294967295, false),
    ] {
        assert_eq!(rt;
            permitted(Ring::new(modulus, n), d),
            is_permitted,
            "{n} variables, degree {d}"
        );
    }
    Ok(())
}

#[test]
fn monomials_are_counted_by_weights(rt: HostRuntime) -> Result<(), Fail> {
    let modulus = Modulus::new(7)?;
    // of x with weight 1 and y with weight 3: the sum of d - 3 j + 1 over j from 0 to d / 3
    let ring = Ring::weighted(modulus, 2, [1, 3, 1, 1, 1, 1, 1, 1]);
    for (d, count, is_permitted) in [
        (0, 1, true),
        (2, 3, true),
        (3, 5, true),
        (440, 32634, true),
        (441, 32782, false),
    ] {
        assert_eq!(rt; monomials(ring, d), count, "up to degree {d}");
        assert_eq!(rt; permitted(ring, d), is_permitted, "degree {d}");
    }
    // of weight 64 alone: the powers 0 to 63 up to degree 4095
    let heavy = Ring::weighted(modulus, 1, [64, 1, 1, 1, 1, 1, 1, 1]);
    assert_eq!(rt; monomials(heavy, 63), 1);
    assert_eq!(rt; monomials(heavy, 4095), 64);
    assert_eq!(rt; heavy.weight(0), 64);
    Ok(())
}

#[test]
fn divisors_of_zero_leave_no_terms(rt: HostRuntime) -> Result<(), Fail> {
    let alloc = rt.alloc();
    let ring = Ring::new(Modulus::new(6)?, 1);
    let x = Part::variable(alloc, ring, 0)?;
    let two = scaled(alloc, ring, &x, 2)?;
    let three = scaled(alloc, ring, &x, 3)?;
    let four = scaled(alloc, ring, &x, 4)?;
    for (name, part, degree) in [
        ("2x * 3x", product(alloc, ring, &two, &three)?, 2),
        ("4x + 2x", sum(alloc, ring, &four, &two)?, 1),
        ("3 * 2x", scaled(alloc, ring, &two, 3)?, 1),
        ("6", Part::constant(alloc, ring, 6)?, 0),
    ] {
        assert!(rt; part.is_zero(), "{name} is not 0");
        assert_eq!(rt; part.degree(), degree, "the degree of {name}");
    }
    assert!(rt; !four.is_zero());
    Ok(())
}

#[test]
fn a_sum_of_products_is_one_part(rt: HostRuntime) -> Result<(), Fail> {
    let alloc = rt.alloc();
    // 2 * 3x + 2 * x = 8x, which is x modulo 7
    let ring = Ring::new(Modulus::new(7)?, 2);
    let x = Part::variable(alloc, ring, 0)?;
    let two = Part::constant(alloc, ring, 2)?;
    let three = scaled(alloc, ring, &x, 3)?;
    let mut total = Accumulator::new(alloc, ring, 1);
    total.add_product(&two, &three, false)?;
    total.add_scaled(&x, 2)?;
    let part = total.finish()?;
    let at = Monomial::of(ring, [1, 0, 0, 0, 0, 0, 0, 0]);
    assert_eq!(rt; part.terms().len(), 1);
    assert_eq!(rt; part.coefficient(&at), 1);
    assert_eq!(rt;
        part.coefficient(&Monomial::of(ring, [0, 1, 0, 0, 0, 0, 0, 0])),
        0
    );
    Ok(())
}

#[test]
fn terms_stand_by_falling_powers(rt: HostRuntime) -> Result<(), Fail> {
    let alloc = rt.alloc();
    // (x + 2y)(x - y) = xx + xy - 2yy, with 99 for -2 modulo 101
    let ring = Ring::new(Modulus::new(101)?, 2);
    let x = Part::variable(alloc, ring, 0)?;
    let y = Part::variable(alloc, ring, 1)?;
    let left = sum(alloc, ring, &scaled(alloc, ring, &y, 2)?, &x)?;
    let right = sum(alloc, ring, &x, &scaled(alloc, ring, &y, 100)?)?;
    let part = product(alloc, ring, &left, &right)?;
    for (i, (a, b, coefficient)) in [(2, 0, 1), (1, 1, 1), (0, 2, 99)].into_iter().enumerate() {
        let term = part.terms().get(i).ok_or("too few terms")?;
        assert_eq!(rt; term.monomial.power(0), a, "the power of x in term {i}");
        assert_eq!(rt; term.monomial.power(1), b, "the power of y in term {i}");
        assert_eq!(rt;
            term.coefficient,
            coefficient,
            "the coefficient of term {i}"
        );
    }
    assert_eq!(rt; part.terms().len(), 3);
    Ok(())
}

#[test]
fn eight_variables_are_summed_as_terms(rt: HostRuntime) -> Result<(), Fail> {
    let alloc = rt.alloc();
    // (x + y)^9 - (x + y)^4 * (x + y)^5 = 0, and C(9, 4) = 126
    let ring = Ring::new(Modulus::new(9223372036854775783)?, 8);
    let x = Part::variable(alloc, ring, 0)?;
    let y = Part::variable(alloc, ring, 7)?;
    let one = sum(alloc, ring, &x, &y)?;
    let two = product(alloc, ring, &one, &one)?;
    let four = product(alloc, ring, &two, &two)?;
    let five = product(alloc, ring, &four, &one)?;
    let nine = product(alloc, ring, &five, &four)?;
    let at = Monomial::of(ring, [4, 0, 0, 0, 0, 0, 0, 5]);
    assert_eq!(rt; nine.coefficient(&at), 126);
    assert_eq!(rt; nine.terms().len(), 10);
    let mut total = Accumulator::new(alloc, ring, 9);
    total.add_scaled(&nine, 1)?;
    total.add_product(&four, &five, true)?;
    assert!(rt; total.finish()?.is_zero());
    Ok(())
}

#[test]
fn degrees_are_by_weights(rt: HostRuntime) -> Result<(), Fail> {
    let alloc = rt.alloc();
    // x of weight 2 and y of weight 3: (xxx + y y)(2 y) = 2 xxxy + 2 yyy, of degree 9
    let ring = Ring::weighted(Modulus::new(101)?, 2, [2, 3, 1, 1, 1, 1, 1, 1]);
    let x = Part::variable(alloc, ring, 0)?;
    let y = Part::variable(alloc, ring, 1)?;
    assert_eq!(rt; x.degree(), 2);
    assert_eq!(rt; y.degree(), 3);
    let square = product(alloc, ring, &x, &x)?;
    let cube = product(alloc, ring, &square, &x)?;
    let left = sum(alloc, ring, &cube, &product(alloc, ring, &y, &y)?)?;
    assert_eq!(rt; left.degree(), 6);
    let part = product(alloc, ring, &left, &scaled(alloc, ring, &y, 2)?)?;
    assert_eq!(rt; part.degree(), 9);
    assert_eq!(rt; part.terms().len(), 2);
    for powers in [[3, 1, 0, 0, 0, 0, 0, 0], [0, 3, 0, 0, 0, 0, 0, 0]] {
        let at = Monomial::of(ring, powers);
        assert_eq!(rt;
            part.coefficient(&at),
            2,
            "at the powers {}, {}",
            powers[0],
            powers[1]
        );
    }
    Ok(())
}
