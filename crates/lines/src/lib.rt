//! A line gathered byte by byte, for reading and for printing: 01, "Worked numbers", "Session program".

#![tactic(auto)]

ghost use Rattle.std.specs.Prelude.{◌≡◌, fold};
ghost use Rattle.text.specs.Lines.{at_most, longest, line_of, blank, pushed};

use text::{LONGEST, Line};

#[tactic(auto, unfolding(text::specs::Lines::line_of))]
pub fn empty() -> Line
    ensures { result ≡ blank }
{
    Line {
        bytes: [0u8; LONGEST],
        len: 0,
        long: false,
    }
}

// The number of bytes in use.
pub fn kept(line: Line) -> usize
    ensures { result ≡ at_most longest line.len }
{
    at_most(LONGEST, line.len)
}

pub fn at_most(most: usize, n: usize) -> usize
    ensures { result ≡ at_most most n }
{
    n.min(most)
}

// The line with one byte more.
#[tactic(auto, unfolding(text::specs::Lines::pushed))]
pub fn push(line: Line, byte: u8) -> Line
    ensures { result ≡ pushed line byte }
{
    let mut next = line;
    if line.len < LONGEST {
        next.bytes[line.len] = byte;
        next.len += 1;
    } else {
        next.long = true;
    }
    next
}

// The line with these bytes more.
pub fn extend(line: Line, bytes: &[u8]) -> Line
    ensures { result ≡ fold pushed line bytes.now }
{
    bytes.iter().fold(line, |text, byte| push(text, *byte))
}

// The line of these bytes.
#[tactic(auto, using(text::proofs::Growing::line_grown))]
pub fn of(bytes: &[u8]) -> Line
    ensures { result ≡ line_of bytes.now }
{
    extend(empty(), bytes)
}
