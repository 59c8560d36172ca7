//! Weights of stages, and how they are cut into blocks.
ghost use Rattle.std.specs.Prelude.{◌≡◌, IfSome, sum};

use pipe::{cut_blocks, weight};
use std::alloc::Global;
use std::test::Fail;

/// The sum of numbers, unless it is too great.
fn checked_sum(numbers: &[u64]) -> Option<u64>
    ensures { IfSome result (λ total. total ≡ sum numbers.now) }
{
    let mut total: u64 = 0;
    for number in numbers {
        total = total.checked_add(*number)?;
    }
    Some(total)
}

/// The weight of the heaviest block. It is none where the ends aren't those of blocks.
fn heaviest(weights: &[u64], ends: &[u32]) -> Option<u64> {
    let mut start = 0;
    let mut most = 0;
    for end in ends {
        let end = *end as usize;
        most = most.max(checked_sum(weights.get(start..end)?)?);
        start = end;
    }
    Some(most)
}

/// The ends of the blocks.
fn cut(alloc: Global, weights: &[u64], workers: u32) -> Result<Vec<u32>, Fail> {
    if weights.is_empty() || weights.len() > 4294967295 || workers == 0 {
        return Err("no cut")?;
    }
    let Some(_total) = checked_sum(weights) else {
        return Err("too heavy")?;
    };
    Ok(cut_blocks(alloc, weights, workers)?)
}

#[test]
fn the_worked_weights_are_cut_after_the_first(rt: HostRuntime) -> Result<(), Fail> {
    let weights = [4, 3, 2, 1];
    let ends = cut(rt.alloc(), &weights, 2)?;
    assert_eq!(rt; ends.as_slice(), [1, 4].as_slice());
    assert_eq!(rt; heaviest(&weights, &ends), Some(6));
    let ends = cut(rt.alloc(), &weights, 9)?;
    assert_eq!(rt; heaviest(&weights, &ends), Some(4));
    Ok(())
}

// By a program that tries every cut. Of several that are as light it is the one that has the longest
// first block, then the longest second one.
#[test]
fn the_heaviest_block_is_as_light_as_can_be(rt: HostRuntime) -> Result<(), Fail> {
    let cases: [(&[u64], u32, &[u32], u64); 13] = [
        (&[5], 4, &[1], 5),
        (&[0, 0], 2, &[2], 0),
        (&[1, 1, 1, 1], 2, &[2, 4], 2),
        (&[1, 1, 1, 1], 3, &[2, 4], 2),
        (&[0, 0, 7], 2, &[3], 7),
        (&[10, 1, 10], 2, &[2, 3], 11),
        (&[9, 1, 1, 1, 9], 3, &[1, 4, 5], 9),
        (&[6, 5, 4, 3, 2, 1], 2, &[2, 6], 11),
        (&[7, 10, 6, 2], 3, &[1, 2, 4], 10),
        (&[1, 2, 3, 4, 5, 6, 7, 8, 9], 3, &[5, 7, 9], 17),
        (&[3, 1, 4, 1, 5, 9, 2, 6, 5, 3, 5], 4, &[5, 7, 10, 11], 14),
        (
            &[9223372036854775808, 9223372036854775807],
            1,
            &[2],
            18446744073709551615,
        ),
        (
            &[9223372036854775808, 9223372036854775807],
            2,
            &[1, 2],
            9223372036854775808,
        ),
    ];
    for (weights, workers, ends, most) in cases {
        let found = cut(rt.alloc(), weights, workers)?;
        assert_eq!(rt; found.as_slice(), ends);
        assert_eq!(rt; heaviest(weights, &found), Some(most));
    }
    Ok(())
}

#[test]
fn a_weight_counts_what_a_stage_leaves(rt: HostRuntime) -> Result<(), Fail> {
    for (k, left, product) in [
        (1, 0, 1),
        (0, 31, 0),
        (2, 4, 10),
        (32, 0, 32),
        (4294967295, 4294967295, 18446744069414584320),
    ] {
        assert_eq!(rt; weight(k, left), product);
    }
    Ok(())
}

// The multiplicities of `demo 7` with their weights, by hand.
#[test]
fn the_stages_of_a_job_are_cut_by_their_work(rt: HostRuntime) -> Result<(), Fail> {
    let weights = [weight(1, 6), weight(2, 4), weight(2, 2), weight(2, 0)];
    assert_eq!(rt; weights, [7, 10, 6, 2]);
    let ends = cut(rt.alloc(), &weights, 2)?;
    assert_eq!(rt; ends.as_slice(), [2, 4].as_slice());
    Ok(())
}
