//! The SDO server of a head: its identifiers, which requests it serves, and what they change. 01, "Service requests".

#![tactic(auto)]

ghost use Rattle.std.specs.Prelude.{◌≡◌, not, ◌&&◌, ◌+◌, eqb};
ghost use Rattle.promises.specs.States.{live};
ghost use Rattle.server.specs.Replies.{reply_frame};

use can::{Bytes, Frame};
use parts::Nmt;

pub mod effect;

const REQUEST_LENGTH: u8 = 8;

const REPLY_LENGTH: u8 = 8;

// The identifiers of requests and replies, to which the node number is added; the kind of its reply, a kind's number of the line.
#[derive(Clone, Copy)]
pub struct Server {
    pub request: u32,
    pub reply: u32,
    pub kind: u8,
}

impl Server {
    pub const FIRST: Server = Server {
        request: 0x600,
        reply: 0x580,
        kind: waiting::SDO_REPLY,
    };
}

// Whether a request is served: `waits` is whether a reply waits.
pub fn serves(state: Nmt, length: u8, waits: bool) -> bool
    ensures { result ≡ (eqb length 8 && live state && not waits) }
{
    (length == REQUEST_LENGTH) & states::is_live(state) & !waits
}

pub fn frame(node: u8, reply: Bytes) -> Frame
    ensures { result ≡ reply_frame node reply }
{
    Frame {
        identifier: Server::FIRST.reply + node as u32,
        length: REPLY_LENGTH,
        bytes: reply,
    }
}
