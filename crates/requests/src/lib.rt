//! Takes a request's eight bytes apart: a read, a write, or an unknown command. 01, "Service requests".

#![tactic(auto)]

ghost use Rattle.std.specs.Prelude.{◌≡◌};
ghost use Rattle.sdo.specs.Request.{is_abort, is_segment, toggle_in, index_of, data_of, said_length, access_in, taken_apart};

use can::Bytes;
use sdo::request::{Access, Ask};

// Byte 0: the command in the top three bits, by its number in CiA 301 (`Access` is the enum); in a write bit 1 says expedited, bit 0 that
// bits 3..2 tell the length.
const READ: u8 = 2;

const WRITE: u8 = 1;

const ABORT: u8 = 4;

const SEGMENT: u8 = 3;

pub fn is_abort(command: u8) -> bool
    ensures { result ≡ is_abort command }
{
    command / 32 == ABORT
}

pub fn is_segment(command: u8) -> bool
    ensures { result ≡ is_segment command }
{
    command / 32 == SEGMENT
}

// The toggle of a segment request.
pub fn toggle(command: u8) -> u8
    ensures { result ≡ toggle_in command }
{
    command / 16 % 2
}

// What the request asks; `None` is an unknown command.
pub fn taken_apart(bytes: Bytes) -> Option<Ask>
    ensures { result ≡ taken_apart bytes }
{
    let access = access_in(bytes)?;
    Some(Ask {
        index: index_of(bytes),
        sub: bytes[3],
        access,
    })
}

fn access_in(bytes: Bytes) -> Option<Access>
    ensures { result ≡ access_in bytes }
{
    let command = bytes[0];
    if command / 32 == READ {
        return Some(Access::Read);
    }
    if command / 32 == WRITE && command / 2 % 2 == 1 {
        return Some(Access::Write {
            length: said_length(command),
            content: data_of(bytes),
        });
    }
    None
}

fn index_of(bytes: Bytes) -> u16
    ensures { result ≡ index_of bytes }
{
    can::word(bytes[1], bytes[2])
}

fn said_length(command: u8) -> u8
    ensures { result ≡ said_length command }
{
    if command % 2 == 1 {
        4 - command / 4 % 4
    } else {
        0
    }
}

// Bytes 4 to 7, as CiA 301 draws the frame.
fn data_of(bytes: Bytes) -> u32
    ensures { result ≡ data_of bytes }
{
    can::long(bytes[4], bytes[5], bytes[6], bytes[7])
}
