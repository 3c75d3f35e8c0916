// Readings in lines of text.
ghost use Rattle.std.specs.Prelude.{◌≡◌};
ghost use Rattle.lines.specs.Readings.{figures, unsigned, line_read, key_figures, key_read, mapped_ok};

use crate::plain::{Figures, LineFault};
use crate::{number, take_number};
use reading::{Key, Reading};

// The five numbers of a reading's line.
#[tactic(auto, unfolding(crate::specs::Readings::figures))]
fn figures(line: &str) -> Option<Figures>
    ensures { result ≡ figures line.now }
{
    let (stamp, rest) = take_number(line)?;
    let (sensor, rest) = take_number(rest)?;
    let (count, rest) = take_number(rest)?;
    let (value, rest) = take_number(rest)?;
    let spread = number(rest)?;
    Some(Figures {
        stamp,
        sensor,
        number: count,
        value,
        spread,
    })
}

// The three numbers of a key's line: stamp, sensor and number. Not the first of a reading's five, since the last number of a line ends it.
fn key_figures(line: &str) -> Option<(i64, i64, i64)>
    ensures { result ≡ key_figures line.now }
{
    let (stamp, rest) = take_number(line)?;
    let (sensor, rest) = take_number(rest)?;
    Some((stamp, sensor, number(rest)?))
}

// An unsigned figure of a line: a negative number is in no unsigned range, so it counts as the greatest number.
pub fn unsigned(n: i64) -> u64
    ensures { result ≡ unsigned n }
{
    u64::try_from(n).unwrap_or(u64::MAX)
}

// The reading that a line writes: stamp, sensor, number, value and spread.
pub fn reading_of(line: &str) -> Result<Reading, LineFault>
    ensures { mapped_ok (λ x. x.entry) result ≡ line_read line.now }
{
    let f = figures(line).ok_or(LineFault::Malformed)?;
    Ok(Reading::new(
        unsigned(f.stamp),
        unsigned(f.sensor),
        unsigned(f.number),
        f.value,
        unsigned(f.spread),
    )?)
}

// The key that a line writes: stamp, sensor and number.
pub fn key_of(line: &str) -> Result<Key, LineFault>
    ensures { mapped_ok (λ x. x.key) result ≡ key_read line.now }
{
    let (stamp, sensor, count) = key_figures(line).ok_or(LineFault::Malformed)?;
    Ok(Key::new(unsigned(stamp), unsigned(sensor), unsigned(count))?)
}
