ghost use Rattle.std.specs.Prelude.{◌≡◌, ◌≤◌, drop, length, take};
ghost use Rattle.ports.specs.Bytes.{least_of};

/// Copies as many bytes of `from` as fit to the front of `into`, and answers how many.
pub fn copy_front(from: &[u8], into: &mut [u8]) -> u32
    ensures count { result ≡ least_of (length from.now) (length into.new) }
    ensures copied { take result into.new ≡ take result from.now }
{
    let count = from.len().min(into.len()).min(u32::MAX as usize);
    into[..count].copy_from_slice(&from[..count]);
    count as u32
}

/// The bytes from `place` on.
pub fn behind(bytes: &[u8], place: usize) -> &[u8]
    requires { place ≤ length bytes.now }
    ensures { result.now ≡ drop place bytes.now }
{
    &bytes[place..]
}
