// Lines of text: whole numbers in decimal, parted by single spaces.
#![tactic(auto)]

pub mod plain;
pub mod readings;

ghost use Rattle.std.specs.Prelude.{◌≡◌};
ghost use Rattle.std.specs.Option.{option_map};
ghost use Rattle.lines.specs.Numbers.{numeral, split, taken};

// The number that a text writes in decimal, with `+` or `-` in front if it likes; none where it writes none of 64 bits.
#[tactic(auto, using(crate::proofs::Parsing::numeral_parsed))]
pub fn number(text: &str) -> Option<i64>
    ensures { result ≡ numeral text.now }
{
    text.parse::<i64>().ok()
}

// The number before the first space, and the text behind that space.
pub fn take_number(text: &str) -> Option<(i64, &str)>
    ensures { option_map (λ p. (p.0, p.1.now)) result ≡ taken text.now }
{
    let (first, rest) = text.split_once(' ')?;
    Some((number(first)?, rest))
}
