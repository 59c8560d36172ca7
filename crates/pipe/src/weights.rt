//! How much work a stage is.
ghost use Rattle.std.specs.Prelude.{◌≡◌, ℕ, ◌+◌, ◌*◌};

/// The weight of a stage: `k` is the degree in Y of its factor, `left` that of what it leaves to the
/// later ones.
pub fn weight(k: u32, left: u32) -> u64
    ensures { result ≡ k * (left + 1) }
{
    u64::from(k) * (u64::from(left) + 1)
}
