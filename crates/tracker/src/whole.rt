// Products and quotients of whole numbers.
ghost use Rattle.std.specs.Prelude.{◌≡◌, ◌<◌, ◌≤◌, pos, ◌*ℤ◌, unsigned_abs};
ghost use Rattle.tracker.specs.Tracking.{part};

pub(crate) fn times(z: i32, n: u16) -> i64
    ensures value { result ≡ z *ℤ pos n }
    ensures within { unsigned_abs result ≤ 140735340871680 }
{
    i64::from(z) * i64::from(n)
}

// ⌊z × gain / n⌋, for a gain of at most n.
pub(crate) fn share(z: i32, gain: u16, n: u32) -> i64
    requires { (gain ≤ n) × (0 < n) }
    ensures value { result ≡ part z gain n }
    ensures within { unsigned_abs result ≤ unsigned_abs z }
{
    times(z, gain).div_euclid(i64::from(n))
}
