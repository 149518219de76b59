//! What is printed: a frame, `-`, or a refusal, each as a line with its end, 0Ah. 01, "Worked numbers", "Session program".
//! No Display: the theorems are about the bytes of a line, and a line stands in an array, without a heap.

#![tactic(auto)]

ghost use Rattle.std.specs.Prelude.{◌≡◌, ◌<◌};
ghost use Rattle.text.specs.Lines.{line_of};
ghost use Rattle.text.specs.Printed.{hex_of, digit_at, begun, frame_text, none_text, refusal_text};
ghost use Rattle.printing.specs.Steps.{paired};

use can::Frame;
use text::Line;

const MOST_BYTES: usize = 8;

// The frame that a slot sends.
pub fn frame(frame: Frame) -> Line
    ensures { result ≡ line_of (frame_text frame) }
{
    let bytes = frame.bytes;
    let count = lines::at_most(MOST_BYTES, frame.length as usize);
    let mut text = begin(frame.identifier, frame.length);
    for byte in &bytes[..count] {
        text = pair(text, *byte);
    }
    lines::push(text, b'\n')
}

// Identifier and length.
fn begin(identifier: u32, length: u8) -> Line
    ensures { result ≡ line_of (begun identifier length) }
{
    let begun = [
        digit(identifier, 256),
        digit(identifier, 16),
        digit(identifier, 1),
        b' ',
        digit(length as u32, 1),
    ];
    lines::of(&begun)
}

// A space and a byte.
fn pair(text: Line, byte: u8) -> Line
    ensures { result ≡ paired text byte }
{
    let n = byte as u32;
    lines::extend(text, &[b' ', digit(n, 16), digit(n, 1)])
}

// The hex digit of a number at a weight.
fn digit(n: u32, weight: u32) -> u8
    requires { 0 < weight }
    ensures { result ≡ digit_at weight n }
{
    hex((n / weight % 16) as u8)
}

// Capitals, and std's `char::from_digit` gives small letters.
fn hex(n: u8) -> u8
    requires { n < 16 }
    ensures { result ≡ hex_of n }
{
    match n {
        0..=9 => b'0' + n,
        _ => b'A' - 10 + n,
    }
}

// What a slot prints if no frame waits.
pub fn none() -> Line
    ensures { result ≡ line_of none_text }
{
    lines::of(b"-\n")
}

#[tactic(auto, unfolding(text::specs::Printed::refusal_text))]
// Any number: 9, a line not of its form, is none of `can::Refusal`.
pub fn refusal(number: u8) -> Line
    ensures { result ≡ line_of (refusal_text number) }
{
    let text = [b'E', b' ', digit(number as u32, 1), b'\n'];
    lines::of(&text)
}
