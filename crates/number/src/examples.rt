// Examples that were worked by hand, for tests and for other implementations.
ghost use Rattle.std.specs.Prelude.{◌≡◌};
ghost use Rattle.number.specs.Examples.{worked};

use crate::leb128::Number;
use reading::plain::Refusal;

// The bytes of 300, what reading 80 00 answers, and the number of the signed value -1,000,000.
#[tactic(auto, unfolding(crate::specs::Numbers::decoded, crate::specs::Numbers::encoded))]
pub fn worked_examples() -> ([u8; 2], Result<Number, Refusal>, u64)
    ensures { result ≡ worked }
{
    ([0xac, 0x02], Err(Refusal::LongNumber), 1_999_999)
}
