//! NMT: what a command orders, and what entering a state and a reset do. 01, "States".

#![tactic(auto)]

ghost use Rattle.std.specs.Prelude.{◌≡◌};
ghost use Rattle.promises.specs.States.{command_of, command as commandIn};
ghost use Rattle.nmt.specs.Orders.{order_of, entering};

use can::Received;
use parts::Nmt;

pub mod entry;

const COMMAND_LENGTH: u8 = 2;

const START: u8 = 0x01;

const STOP: u8 = 0x02;

const ENTER_PRE_OPERATIONAL: u8 = 0x80;

const RESET_NODE: u8 = 0x81;

const RESET_COMMUNICATION: u8 = 0x82;

// What a command orders: entering a state, or a reset of all settings or of those of communication.
#[derive(Clone, Copy)]
pub enum Order {
    Enter(Nmt),
    Reset { all: bool },
}

// What a frame with the identifier of NMT commands orders a head of this node in this state to do.
pub fn ordered(state: Nmt, node: u8, frame: Received) -> Option<Order>
    ensures { result ≡ order_of state (command_of node frame) }
{
    let bytes = frame.bytes;
    let named = bytes[1];
    if !((frame.length == COMMAND_LENGTH) & ((named == 0) | (named == node))) {
        return None;
    }
    obeyed(state, bytes[0])
}

fn obeyed(state: Nmt, command: u8) -> Option<Order>
    ensures { result ≡ order_of state (commandIn command) }
{
    match command {
        START => enter(state, Nmt::OPERATIONAL),
        STOP => enter(state, Nmt::STOPPED),
        ENTER_PRE_OPERATIONAL => enter(state, Nmt::PRE_OPERATIONAL),
        RESET_NODE => Some(Order::Reset { all: true }),
        RESET_COMMUNICATION => Some(Order::Reset { all: false }),
        _ => None,
    }
}

// A command naming the present state has no effect.
fn enter(present: Nmt, state: Nmt) -> Option<Order>
    ensures { result ≡ entering present state }
{
    if present == state {
        return None;
    }
    Some(Order::Enter(state))
}
