//! The greatest precision that may be asked for.
ghost use Rattle.parts.specs.Rings.{weights_of};
ghost use Rattle.session.specs.Precisions.{IsGreatestPermitted};

use parts::{Ring, permitted};

/// The greatest degree for which the ring has few enough monomials, by bisection: 12 times it is
/// tested whether a degree may be asked for.
pub fn greatest_permitted(ring: Ring) -> u32
    ensures { IsGreatestPermitted (weights_of ring) result }
{
    let mut least = 0;
    let mut past = 4096;
    while least + 1 < past {
        let middle = (least + past) / 2;
        if permitted(ring, middle) {
            least = middle;
        } else {
            past = middle;
        }
    }
    least
}
