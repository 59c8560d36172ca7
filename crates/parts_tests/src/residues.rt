//! Values by hand, and what no clause says: printed text.
use residue::{BadModulus, Modulus, NoInverse};
use std::test::Fail;

#[test]
fn a_modulus_has_a_range(rt: HostRuntime) -> Result<(), Fail> {
    for (m, valid) in [
        (0, false),
        (1, false),
        (2, true),
        (9223372036854775807, true),
        (9223372036854775808, false),
    ] {
        assert_eq!(rt; Modulus::new(m).is_ok(), valid, "at {m}");
    }
    assert_eq!(rt; Modulus::new(1), Err(BadModulus));
    Ok(())
}

#[test]
fn a_composite_modulus_has_units_and_divisors_of_zero(rt: HostRuntime) -> Result<(), Fail> {
    for (m, a, inverse) in [
        (15, 4, Ok(4)),
        (15, 2, Ok(8)),
        (15, 14, Ok(14)),
        (15, 6, Err(NoInverse { gcd: 3 })),
        (15, 0, Err(NoInverse { gcd: 15 })),
        (2, 1, Ok(1)),
        // 2^63 - 1 = 2 * (2^62 - 1) + 1 = 7 * 7 * 73 * 127 * 337 * 92737 * 649657
        (9223372036854775807, 2, Ok(4611686018427387904)),
        (9223372036854775807, 7, Err(NoInverse { gcd: 7 })),
    ] {
        let modulus = Modulus::new(m)?;
        let a = modulus.reduce(a);
        assert_eq!(rt;
            modulus.inverse(a),
            inverse,
            "the inverse of {a} modulo {m}"
        );
    }
    Ok(())
}

#[test]
fn the_largest_modulus_does_not_overflow(rt: HostRuntime) -> Result<(), Fail> {
    let modulus = Modulus::new(9223372036854775807)?;
    let minus_one = modulus.reduce(9223372036854775806);
    let minus_two = modulus.reduce(9223372036854775805);
    assert_eq!(rt; modulus.value(), 9223372036854775807);
    assert_eq!(rt; modulus.mul(minus_one, minus_one), 1);
    assert_eq!(rt; modulus.mul(minus_one, minus_two), 2);
    assert_eq!(rt; modulus.add(minus_one, minus_two), 9223372036854775804);
    assert_eq!(rt; modulus.sub(minus_two, minus_one), 9223372036854775806);
    assert_eq!(rt; modulus.neg(minus_two), 2);
    assert_eq!(rt; modulus.neg(modulus.reduce(0)), 0);
    // 2^63 leaves 1
    assert_eq!(rt; modulus.pow(modulus.reduce(2), 64), 2);
    assert_eq!(rt; modulus.pow(minus_one, 4294967295), 9223372036854775806);
    assert_eq!(rt; modulus.pow(minus_one, 0), 1);
    Ok(())
}

#[test]
fn errors_have_a_text(rt: HostRuntime) -> Result<(), Fail> {
    let bad = format!(in rt.alloc(); "{BadModulus}")?;
    assert_eq!(rt; bad.as_str(), "a modulus is from 2 to 2^63 - 1");
    let none = format!(in rt.alloc(); "{}", NoInverse { gcd: 3 })?;
    assert_eq!(rt; none.as_str(), "no inverse: common divisor 3");
    Ok(())
}
