//! Numbers by another program, and each call once.
use super::PackedPowers;
use std::cmp::Ordering;

#[test]
fn powers_are_digits_of_12_bits(rt: HostRuntime) {
    for (name, packed, powers, number) in [
        // 3 * 2^84 + 4 * 2^72
        (
            "x^3 y^4",
            PackedPowers::of([3, 4, 0, 0, 0, 0, 0, 0]),
            [3, 4, 0, 0, 0, 0, 0, 0],
            58047328807433678966751232,
        ),
        ("1", PackedPowers::of([0; 8]), [0; 8], 0),
        (
            "the last variable",
            PackedPowers::of([0, 0, 0, 0, 0, 0, 0, 1]),
            [0, 0, 0, 0, 0, 0, 0, 1],
            1,
        ),
        // 2^96 - 1
        (
            "the greatest powers",
            PackedPowers::of([4095; 8]),
            [4095; 8],
            79228162514264337593543950335,
        ),
    ] {
        assert_eq!(rt; packed.packed(), number, "the number of {name}");
        assert_eq!(rt; packed.powers(), powers, "the powers of {name}");
        for i in 0..8_u32 {
            assert_eq!(rt;
                packed.power(i),
                u32::from(powers[i as usize]),
                "power {i} of {name}"
            );
        }
    }
}

#[test]
fn products_add_the_powers_and_stand_by_falling_powers(rt: HostRuntime) {
    let x = PackedPowers::of([1, 0, 0, 0, 0, 0, 0, 0]);
    let high = PackedPowers::of([2, 4, 0, 0, 0, 0, 0, 4000]);
    let product = PackedPowers::of([3, 4, 0, 0, 0, 0, 0, 4000]);
    assert!(rt; x.times(&high) == product);
    assert!(rt; x != high);
    assert_eq!(rt;
        product.order(&high),
        Ordering::Less,
        "the greater first power comes first"
    );
    assert_eq!(rt; x.order(&high), Ordering::Greater);
    assert_eq!(rt; high.order(&high), Ordering::Equal);
}

#[test]
fn they_take_16_bytes(rt: HostRuntime) {
    assert_eq!(rt; size_of::<PackedPowers>(), 16);
}
