//! The forms of a line: what comes after `F `, `T ` and `S `.
ghost use Rattle.std.specs.Prelude.{◌≡◌, ◌≤◌};
ghost use Rattle.text.specs.Grammar.{fields, pairs_for, framed, frame_of, ticks_of, sample_of};
ghost use Rattle.parsing.specs.Steps.{behind, next_at, lone};

use numbers::Number;
use text::Command;

const HEX: u64 = 16;

const DECIMAL: u64 = 10;

const IDENTIFIER_DIGITS: usize = 8;

const LENGTH_DIGITS: usize = 1;

const PAIR_DIGITS: usize = 2;

const TICKS_DIGITS: usize = 4;

const SAMPLE_DIGITS: usize = 10;

const FEWEST_TICKS: u64 = 1;

const MOST_TICKS: u64 = 1_000;

const MOST_BYTES: usize = 8;

pub fn frame(line: &[u8]) -> Option<Command>
    ensures { result ≡ frame_of (fields line.now) }
{
    let identifier = numbers::read(line, 0, HEX, IDENTIFIER_DIGITS)?;
    let length = next(line, identifier.end, DECIMAL, LENGTH_DIGITS)?;
    pairs(
        line,
        length.end,
        identifier.value as u32,
        length.value as u8,
    )
}

// The frame whose bytes come after a length that ends at `before`.
fn pairs(line: &[u8], before: usize, identifier: u32, length: u8) -> Option<Command>
    ensures { result ≡ framed identifier length (behind line.now before) }
{
    let mut bytes = [0u8; MOST_BYTES];
    let mut at = before;
    for byte in &mut bytes[..pairs_for(length)] {
        let pair = next(line, at, HEX, PAIR_DIGITS)?;
        if pair.end != at + 1 + PAIR_DIGITS {
            return None;
        }
        *byte = pair.value as u8;
        at = pair.end;
    }
    if at < line.len() {
        return None;
    }
    Some(Command::Frame {
        identifier,
        length,
        bytes,
    })
}

// As many as the length says, but 8 if it is 9.
pub fn pairs_for(length: u8) -> usize
    ensures { result ≡ pairs_for length }
{
    lines::at_most(MOST_BYTES, length as usize)
}

pub fn ticks(line: &[u8]) -> Option<Command>
    ensures { result ≡ ticks_of (fields line.now) }
{
    let count = lone(line, TICKS_DIGITS)?;
    if count < FEWEST_TICKS || MOST_TICKS < count {
        return None;
    }
    Some(Command::Ticks(count as u16))
}

pub fn sample(line: &[u8]) -> Option<Command>
    ensures { result ≡ sample_of (fields line.now) }
{
    if line == b"-".as_slice() {
        return Some(Command::Missing);
    }
    Some(Command::Sample(lone(line, SAMPLE_DIGITS)?))
}

// The number in the field behind one that ends at `end`.
fn next(line: &[u8], end: usize, base: u64, most: usize) -> Option<Number>
    requires { (base ≤ 16) × (most ≤ 10) }
    ensures { result ≡ next_at base most line.now end }
{
    if line.len() <= end {
        return None;
    }
    numbers::read(line, end + 1, base, most)
}

// The number in the only field.
fn lone(line: &[u8], most: usize) -> Option<u64>
    requires { most ≤ 10 }
    ensures { result ≡ lone most (fields line.now) }
{
    let number = numbers::read(line, 0, DECIMAL, most)?;
    if number.end < line.len() {
        return None;
    }
    Some(number.value)
}
