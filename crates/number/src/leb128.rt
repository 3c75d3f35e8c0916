// Unsigned LEB128: groups of seven bits, lowest first, the top bit set where another follows, in shortest form.
ghost use Rattle.std.specs.Prelude.{◌≡◌, ◌+◌, ◌≤◌, length, IfOk};
ghost use Rattle.number.specs.Numbers.{largest, decoded, encoded, encoding, Exact, ReadBack};
ghost use Rattle.number.specs.Spaces.{written, afterwards};

use reading::plain::Refusal;

// The largest number that is written: 48 bits.
pub const LARGEST: u64 = 281_474_976_710_655;

// A number that was read, and how many bytes it took.
#[derive(Clone, Copy, PartialEq, Eq, Debug)]
pub struct Number {
    pub value: u64,
    pub width: usize,
}

// Reads the number that the bytes begin with.
pub fn decode(bytes: &[u8]) -> Result<Number, Refusal>
    ensures answer { result ≡ decoded bytes.now }
    ensures law { IfOk result (λ n. Exact bytes.now n) }
{
    let mut value = 0;
    // By number: bytes that end early are refused otherwise than a seventh group that goes on.
    for i in 0..7usize {
        let Some(&b) = bytes.get(i) else {
            return Err(Refusal::CutNumber);
        };
        if b < 128 {
            if b == 0 && i > 0 {
                return Err(Refusal::LongNumber);
            }
            if b >= 64 && i == 6 {
                return Err(Refusal::LargeNumber);
            }
            value += u64::from(b) << (7 * i);
            return Ok(Number {
                value,
                width: i + 1,
            });
        }
        value += u64::from(b - 128) << (7 * i);
    }
    Err(Refusal::LargeNumber)
}

// How many bytes a number takes.
#[tactic(auto, using(crate::proofs::Groups::count_none, crate::proofs::Groups::count_more, crate::proofs::Groups::count_all))]
pub fn width(value: u64) -> usize
    ensures { result ≡ length (encoded value) }
{
    let mut rest = value;
    // No list to go over: the groups are counted as they are taken off.
    for i in 0..6usize {
        if rest < 128 {
            return i + 1;
        }
        rest /= 128;
    }
    7
}

// Fills a space that is as wide as the number.
fn put(value: u64, space: &mut [u8])
    requires { (value ≤ largest) × (length space.old ≡ length (encoded value)) }
    ensures { space.new ≡ encoded value }
{
    let mut rest = value;
    let last = space.len() - 1;
    for group in &mut space[..last] {
        *group = (128 + rest % 128) as u8;
        rest /= 128;
    }
    space[last] = rest as u8;
}

// Writes a number into a buffer from a place on, and answers the place behind it. The place is passed beside the buffer, so that formats can write number after number.
#[tactic(auto, using(crate::proofs::Groups::read_back))]
pub fn encode(value: u64, buffer: &mut [u8], at: usize) -> Result<usize, Refusal>
    ensures answer { result ≡ encoding buffer.old at value }
    ensures after { buffer.new ≡ afterwards result buffer.old at (encoded value) }
    ensures law { ReadBack }
{
    if value > LARGEST {
        return Err(Refusal::LargeNumber);
    }
    let width = width(value);
    if buffer.len().saturating_sub(at) < width {
        return Err(Refusal::Space);
    }
    put(value, &mut buffer[at..at + width]);
    Ok(at + width)
}
