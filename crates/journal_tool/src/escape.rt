// The text of a note in one line: printable ASCII as it is, any other byte and the backslash as \ and two hexadecimal digits.
use std::alloc::{AllocError, Global};
use std::fmt;

fn is_plain(b: u8) -> bool {
    (b == b' ' || b.is_ascii_graphic()) && b != b'\\'
}

// By a table, since a call of the formatter for each byte takes three times as long.
const HEX: [u8; 16] = *b"0123456789abcdef";

// How many bytes are written at once.
const GROUP: usize = 64;

// The most that a group is written as.
const ROOM: usize = 3 * GROUP;

// The bytes that a group is written as.
#[derive(Clone, Copy)]
struct Written {
    space: [u8; ROOM],
    size: usize,
}

impl Written {
    fn push(&mut self, b: u8) {
        if let Some(slot) = self.space.get_mut(self.size) {
            *slot = b;
            self.size += 1;
        }
    }

    // The plain bytes as they are, and of the rest each as it is, or as a backslash and two digits.
    fn fill(&mut self, plain: &[u8], rest: &[u8]) {
        self.size = 0;
        if let Some(slots) = self.space.get_mut(..plain.len()) {
            slots.copy_from_slice(plain);
            self.size = plain.len();
        }
        for b in rest {
            if is_plain(*b) {
                self.push(*b);
            } else {
                self.push(b'\\');
                self.push(HEX[usize::from(*b / 16)]);
                self.push(HEX[usize::from(*b % 16)]);
            }
        }
    }

    fn bytes(&self) -> &[u8] {
        &self.space[..self.size.min(ROOM)]
    }
}

fn write_ascii<W: fmt::Write>(f: &mut fmt::Formatter<W>, bytes: &[u8]) -> fmt::Result {
    f.write_str(str::from_utf8(bytes).map_err(|_| fmt::Error)?)
}

// A text, printed so that it stays in its line.
#[derive(Clone, Copy)]
pub(crate) struct Escaped<'a>(pub(crate) &'a [u8]);

impl fmt::Display for Escaped<'_> {
    // In groups, since a call for each byte takes three times as long.
    fn fmt<W: fmt::Write>(&self, f: &mut fmt::Formatter<W>) -> fmt::Result {
        let mut written = Written {
            space: [0; ROOM],
            size: 0,
        };
        for group in self.0.chunks(GROUP) {
            let plain = group.iter().take_while(|b| is_plain(**b)).count();
            match group.split_at_checked(plain) {
                Some((plain, rest)) if !rest.is_empty() => {
                    written.fill(plain, rest);
                    write_ascii(f, written.bytes())?;
                }
                _ => write_ascii(f, group)?,
            }
        }
        Ok(())
    }
}

// The value of a digit; `char::to_digit` would take capital letters too, which no line has.
fn digit(b: u8) -> Option<u8> {
    match b {
        b'0'..=b'9' => Some(b - b'0'),
        b'a'..=b'f' => Some(b - b'a' + 10),
        _ => None,
    }
}

// The byte of an escape's two digits.
fn byte(high: Option<&u8>, low: Option<&u8>) -> Option<u8> {
    Some(digit(*high?)? << 4 | digit(*low?)?)
}

// The bytes that a line writes; none where an escape is broken.
pub(crate) fn unescape(heap: Global, line: &[u8]) -> Result<Option<Vec<u8>>, AllocError> {
    let mut bytes = Vec::new(heap);
    let mut rest = line.iter();
    while let Some(b) = rest.next() {
        let written = match b {
            b'\\' => byte(rest.next(), rest.next()),
            b => is_plain(*b).then_some(*b),
        };
        let Some(b) = written else {
            return Ok(None);
        };
        bytes.push(b)?;
    }
    Ok(Some(bytes))
}
