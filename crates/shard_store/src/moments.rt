//! Sums of times and durations.
ghost use Rattle.std.specs.Prelude.{◌≡◌, ◌+◌, nat_le};

// Whether so long after the end of what begins here and is so long it isn't later than now.
pub(crate) fn is_past(start: u64, size: u64, wait: u64, now: u64) -> bool
    ensures { result ≡ nat_le (start + size + wait) now }
{
    u128::from(start) + u128::from(size) + u128::from(wait) <= u128::from(now)
}
