//! Values by hand, each call once on its happy path, and what no clause says of sharing.
ghost use Rattle.std.specs.Prelude.{◌≡◌, ◌-◌, ◌<◌, ◌≤◌, length, IfOk};
ghost use Rattle.residue.specs.Residues.{number_of};
ghost use Rattle.parts.specs.RowsOfParts.{parts_of, IsRowOfParts};

use parts::{Part, Ring};
use ps_model::OutOfMemory;
use residue::Modulus;
use std::alloc::Global;
use std::sync::Arc;
use std::test::Fail;
use std::thread::join;
use taylor::{Binomials, SharedBinomials, Table, shift};

/// A row of constants.
fn constants(alloc: Global, ring: Ring, numbers: &[u64]) -> Result<Vec<Arc<Part>>, OutOfMemory>
    requires { 0 < length numbers.now }
    ensures length { IfOk result (λ row. length row.items ≡ length numbers.now) }
    ensures parts { IfOk result (λ row.
        IsRowOfParts ring (length numbers.now - 1) 0 (parts_of row.items)) }
{
    let mut row = Vec::new(alloc);
    for c in numbers {
        let part = Part::constant(alloc, ring, *c)?;
        row.push(Arc::new(alloc, part)?)?;
    }
    Ok(row)
}

#[test]
fn a_square_is_shifted(rt: HostRuntime) -> Result<(), Fail> {
    let alloc = rt.alloc();
    let ring = Ring::new(Modulus::new(7)?, 1);
    let table = Binomials::new(alloc, ring.modulus(), 2)?;
    // Y^2 with Y + 3 in place of Y: 9 + 6 Y + Y^2, and 9 leaves 2
    let row = constants(alloc, ring, &[0, 0, 1])?;
    let shifted = shift(alloc, ring, &table, 3, &row)?;
    // and with Y + 0 in place of Y the same again
    let same = shift(alloc, ring, &table, 0, &shifted)?;
    for row in [&shifted, &same] {
        assert_eq!(rt; row.len(), 3);
        for (part, c) in row.iter().zip([2, 6, 1]) {
            let terms = part.terms();
            assert_eq!(rt; terms.len(), 1);
            assert_eq!(rt; terms[0].coefficient, c);
        }
    }
    for part in &shifted {
        assert_eq!(rt; Arc::strong_count(part), 2, "a part that isn't shared");
    }
    Ok(())
}

// Y^32 with Y + 1 in place of Y, by the row 32 of Pascal's triangle
#[test]
fn the_greatest_power_is_shifted(rt: HostRuntime) -> Result<(), Fail> {
    let alloc = rt.alloc();
    let ring = Ring::new(Modulus::new(9223372036854775783)?, 1);
    let table = Binomials::new(alloc, ring.modulus(), 32)?;
    let mut numbers = [0; 33];
    numbers[32] = 1;
    let row = constants(alloc, ring, &numbers)?;
    let shifted = shift(alloc, ring, &table, 1, &row)?;
    assert_eq!(rt; shifted.len(), 33);
    for (i, binomial) in [(0, 1), (1, 32), (2, 496), (16, 601080390), (32, 1)] {
        assert_eq!(rt; table.number(32, i), binomial);
        assert!(rt; i < shifted.len());
        let terms = shifted[i].terms();
        assert_eq!(rt; terms.len(), 1);
        assert_eq!(rt; terms[0].coefficient, binomial);
    }
    Ok(())
}

#[test]
fn a_table_is_made_once(rt: HostRuntime) -> Result<(), Fail> {
    let shared = SharedBinomials::new(rt.alloc());
    let seven = Modulus::new(7)?;
    let nine = Modulus::new(9)?;
    for size in [4, 4, 3] {
        let table = shared.table(seven, size)?;
        assert!(rt;
            matches!(&table, Table::Shared(_)),
            "a table of its own at {size}"
        );
        assert_eq!(rt; table.binomials().size(), 4);
    }
    for (modulus, size) in [(nine, 4), (seven, 5)] {
        match shared.table(modulus, size)? {
            Table::Shared(_) => panic!(rt; "a shared table at {size}"),
            Table::Own { own, found } => {
                assert_eq!(rt; own.modulus().value(), modulus.value());
                assert_eq!(rt; own.size(), size);
                assert_eq!(rt; found.modulus().value(), 7);
                assert_eq!(rt; found.size(), 4);
            }
        }
    }
    Ok(())
}

/// The modulus and the size of the table that is found.
fn found(shared: &SharedBinomials, modulus: Modulus, size: u32) -> Result<(u64, u32), OutOfMemory>
    requires { size ≤ 32 }
    ensures { IfOk result (λ table. (table.0 ≡ number_of modulus) × (size ≤ table.1)) }
{
    let table = shared.table(modulus, size)?;
    let table = table.binomials();
    Ok((table.modulus().value(), table.size()))
}

#[test]
fn two_threads_ask_at_once(rt: HostRuntime) -> Result<(), Fail> {
    let seven = Modulus::new(7)?;
    let nine = Modulus::new(9)?;
    for (other, size) in [(seven, 4), (nine, 5)] {
        let shared = SharedBinomials::new(rt.alloc());
        let (left, right) = join(
            &rt,
            || found(&shared, seven, 4),
            || found(&shared, other, size),
        );
        assert_eq!(rt; left?, (7, 4));
        assert_eq!(rt; right?, (other.value(), size));
    }
    Ok(())
}
