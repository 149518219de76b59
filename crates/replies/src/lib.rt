//! Builds the reply's eight bytes, and says what the request does: 01, "Service requests".

#![tactic(auto)]

ghost use Rattle.std.specs.Prelude.{◌≡◌};
ghost use Rattle.sdo.specs.Reply.{framed as framedBy, command, no_reply, aborted, confirmed, segmented, shown_reply};

use can::Bytes;
use dictionary::abort::Abort;
use names::Transfer;
use sdo::reply::{Effect, Served};

const CONFIRMATION: u8 = 0x60;

const ABORT: u8 = 0x80;

const READ_1_BYTE: u8 = 0x4F;

const READ_2_BYTES: u8 = 0x4B;

const READ_4_BYTES: u8 = 0x43;

// The size is announced, and segments follow.
const READ_NAME: u8 = 0x41;

pub fn no_reply() -> Served
    ensures { result ≡ no_reply }
{
    Served {
        bytes: [0, 0, 0, 0, 0, 0, 0, 0],
        effect: Effect::Nothing,
        transfer: Transfer::NONE,
    }
}

// Any code: an `Abort` would ask more of a caller.
pub fn abort(request: Bytes, code: u32) -> Served
    ensures { result ≡ aborted request code }
{
    Served {
        bytes: framed(ABORT, request, code),
        effect: Effect::Reply,
        transfer: Transfer::NONE,
    }
}

pub fn confirm(request: Bytes, key: u32, value: u32) -> Served
    ensures { result ≡ confirmed request key value }
{
    Served {
        bytes: framed(CONFIRMATION, request, 0),
        effect: Effect::Write { key, value },
        transfer: Transfer::NONE,
    }
}

// What the entry reads; `None` is blank.
pub fn shown(request: Bytes, width: u8, entry: Option<u32>) -> Served
    ensures { result ≡ shown_reply request width entry }
{
    let Some(number) = entry else {
        return abort(request, Abort::Blank.code());
    };
    Served {
        bytes: framed(command_for(width), request, number),
        effect: Effect::Reply,
        transfer: names::started(can::word(request[1], request[2])),
    }
}

// The reply to the segment request that is due, and the transfer that it leaves.
pub fn segment(bytes: Bytes, transfer: Transfer) -> Served
    ensures { result ≡ segmented bytes transfer }
{
    Served {
        bytes,
        effect: Effect::Reply,
        transfer,
    }
}

fn command_for(width: u8) -> u8
    ensures { result ≡ command width }
{
    match width {
        1 => READ_1_BYTE,
        2 => READ_2_BYTES,
        4 => READ_4_BYTES,
        _ => READ_NAME,
    }
}

// Byte by byte, as CiA 301 draws the frame.
fn framed(first: u8, request: Bytes, content: u32) -> Bytes
    ensures { result ≡ framedBy first request content }
{
    let low = can::long_bytes(content);
    [
        first, request[1], request[2], request[3], low[0], low[1], low[2], low[3],
    ]
}
