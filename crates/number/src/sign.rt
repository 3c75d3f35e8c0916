// Signed values as numbers: 2v, or -2v - 1 where v is negative.
ghost use Rattle.std.specs.Prelude.{◌≡◌};
ghost use Rattle.number.specs.Signs.{folded, unfolded, SignLaw};

// The number of a signed value.
pub fn fold(value: i64) -> u64
    ensures value { result ≡ folded value }
    ensures law { SignLaw }
{
    if value >= 0 {
        2 * (value as u64)
    } else {
        2 * ((-1 - value) as u64) + 1
    }
}

// The signed value of a number.
pub fn unfold(number: u64) -> i64
    ensures value { result ≡ unfolded number }
    ensures law { SignLaw }
{
    let half = (number / 2) as i64;
    if number % 2 == 0 { half } else { -1 - half }
}
