//! The place before and the place after one, on a circle.

ghost use Rattle.std.specs.Prelude.{◌≡◌, ◌+◌, ◌-◌, ◌%◌, ◌<◌};

/// The place before place k, on a circle of n places.
#[inline]
pub fn before(k: u32, n: u32) -> u32
    requires { k < n }
    ensures place { result ≡ (k + n - 1) % n }
    ensures within { result < n }
{
    if k == 0 { n - 1 } else { k - 1 }
}

/// The place after place k.
#[inline]
pub fn after(k: u32, n: u32) -> u32
    requires { k < n }
    ensures place { result ≡ (k + 1) % n }
    ensures within { result < n }
{
    if k + 1 == n { 0 } else { k + 1 }
}
