//! The names of a head, and the segments in which an SDO client reads one: CiA 301, "SDO upload segment".
#![tactic(auto)]

ghost use Rattle.std.specs.Prelude.{◌≡◌, [], ◌∷◌, length};
ghost use Rattle.names.specs.Name.{is_name, named as name_of, text, unknown as unknownName};
ghost use Rattle.names.specs.Segment.{left_of, command_of, byte_at, segment_of, toggle_of};
ghost use Rattle.names.specs.Laws.{Laws};
ghost use Rattle.names.specs.Transfer.{runs as isRunning, number_of, starting, following, low_byte, naming};

use can::Bytes;

const LONGEST: u8 = 32;

// A string of 1 to 32 bytes: the first `length` of `bytes`. An array and a length, as C has it.
#[repr(C)]
#[derive(Clone, Copy)]
pub struct Name {
    pub bytes: [u8; 32],
    pub length: u8,
}

// The upload of a name: its number is 1 for 1008h, 2 for 1009h, 3 for 100Ah, and 0 if none runs; and the segments answered so far.
// A number and no Option of an enum: a head holds it, and what C lends may hold no enum.
#[repr(C)]
#[derive(Clone, Copy)]
pub struct Transfer {
    pub name: u8,
    pub segments: u8,
}

impl Transfer {
    pub const NONE: Transfer = Transfer {
        name: 0,
        segments: 0,
    };
}

const DEVICE_NAME: u16 = 0x1008;

const HARDWARE_VERSION: u16 = 0x1009;

const SOFTWARE_VERSION: u16 = 0x100A;

const SEGMENT: usize = 7;

pub fn is_name(name: Name) -> bool
    ensures value { result ≡ is_name name }
    ensures bytes_len { length name.bytes ≡ 32 }
{
    (1..=LONGEST).contains(&name.length)
}

// "?", the name of a head whose power-up was refused.
pub fn unknown() -> Name
    ensures { result ≡ unknownName }
{
    short(b'?', 0, 0, 0, 1)
}

// A name of at most four bytes. They are stored one by one, as those of a segment are.
pub fn short(a: u8, b: u8, c: u8, d: u8, length: u8) -> Name
    ensures { result ≡ name_of (a ∷ b ∷ c ∷ d ∷ []) length }
{
    let mut bytes = [0u8; 32];
    bytes[0] = a;
    bytes[1] = b;
    bytes[2] = c;
    bytes[3] = d;
    Name { bytes, length }
}

pub fn runs(transfer: Transfer) -> bool
    ensures { result ≡ isRunning transfer }
{
    transfer.name != 0
}

// The transfer that a read of this index starts; none if the index is not a name's.
pub fn started(index: u16) -> Transfer
    ensures { result ≡ starting index }
{
    Transfer {
        name: number(index),
        segments: 0,
    }
}

fn number(index: u16) -> u8
    ensures { result ≡ number_of index }
{
    match index {
        DEVICE_NAME => 1,
        HARDWARE_VERSION => 2,
        SOFTWARE_VERSION => 3,
        _ => 0,
    }
}

// The toggle of the segment that is due.
pub fn toggle(transfer: Transfer) -> u8
    ensures { result ≡ toggle_of transfer.segments }
{
    transfer.segments % 2
}

// The bytes of a request that names the entry of the transfer.
pub fn named(transfer: Transfer) -> Bytes
    ensures { result ≡ naming transfer.name }
{
    [0, low_byte(transfer.name), 0x10, 0, 0, 0, 0, 0]
}

fn low_byte(name: u8) -> u8
    ensures { result ≡ low_byte name }
{
    match name {
        1 => 0x08,
        2 => 0x09,
        _ => 0x0A,
    }
}

// The reply to the segment request that is due. Byte by byte: the kit compiles `copy_from_slice` for processors of 64 bits only, and heads run on others.
pub fn segment(name: Name, segments: u8) -> Bytes
    ensures { result ≡ segment_of name segments }
{
    let at = segments as usize * SEGMENT;
    [
        command(name.length, segments),
        byte_at(name, at),
        byte_at(name, at + 1),
        byte_at(name, at + 2),
        byte_at(name, at + 3),
        byte_at(name, at + 4),
        byte_at(name, at + 5),
        byte_at(name, at + 6),
    ]
}

// The transfer after that reply: the last segment ends it.
pub fn next(transfer: Transfer, length: u8) -> Transfer
    ensures { result ≡ following transfer length }
{
    if left(length, transfer.segments) <= SEGMENT {
        return Transfer::NONE;
    }
    Transfer {
        name: transfer.name,
        segments: transfer.segments + 1,
    }
}

// How many bytes of the name these segments left.
fn left(length: u8, segments: u8) -> usize
    ensures { result ≡ left_of length segments }
{
    (length as usize).saturating_sub(segments as usize * SEGMENT)
}

// Bit 4 is the toggle, bits 3..1 count the unused bytes, bit 0 is set in the last segment.
fn command(length: u8, segments: u8) -> u8
    ensures { result ≡ command_of length segments }
{
    let left = left(length, segments);
    let toggle = segments % 2 * 16;
    if left <= SEGMENT {
        return toggle + (SEGMENT - left) as u8 * 2 + 1;
    }
    toggle
}

// 0 past the end of the name. By index: `get` gives an Option of a reference, which the kit lays out for pointers of 64 bits only.
fn byte_at(name: Name, place: usize) -> u8
    ensures { result ≡ byte_at name place }
{
    let text = text(&name);
    if place < text.len() { text[place] } else { 0 }
}

// The bytes of the name.
fn text(name: &Name) -> &[u8]
    ensures { result.now ≡ text name.now }
{
    name.bytes
        .get(..name.length as usize)
        .unwrap_or(&name.bytes)
}

// This function does nothing. It ensures the statements of the crate, so the crate is proved only if they are.
fn statements()
    ensures { Laws }
{}
