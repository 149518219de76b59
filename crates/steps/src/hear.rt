//! Tells a received frame apart: refused, without effect, a SYNC, a command, or a request.
ghost use Rattle.std.specs.Prelude.{◌≡◌};
ghost use Rattle.position.specs.Profile.{ValidProfile};
ghost use Rattle.steps.specs.Hear.{synced_by, ended_by, ordered_by, write_way, effect_way, served_by, requested_by, unrefused_by, heard_by};

use can::{Bytes, Received, Refusal};
use entries::Device;
use entries::table::{ERROR_COUNT, LOAD, OPERATING, SAVE};
use names::Transfer;
use nmt::Order;
use parts::Nmt;
use sdo::reply::{Effect, Served};
use server::Server;
use server::effect::Write;
use waiting::Line;

const COMMAND: u32 = 0x000;

const SYNC: u32 = 0x080;

const MOST_SYNC_LENGTH: u8 = 1;

// What a frame that is meant for the head does, and the transfer that it leaves, if it may alter it.
#[derive(Clone, Copy)]
pub struct Heard {
    pub transfer: Option<Transfer>,
    pub way: Way,
}

// The ways of a frame that the head obeys, each with what it needs. `Ends` is the client's abort, which only ends a transfer.
#[derive(Clone, Copy)]
pub enum Way {
    Replies(Bytes),
    Syncs,
    Configures(Write),
    Scales(Write),
    Enters(Nmt),
    Resets { all: bool },
    Saves { reply: Bytes, key: u32 },
    Empties(Bytes),
    Ends,
}

// A frame neither refused nor meant for the head has no effect: None.
pub fn hear(
    state: Nmt,
    device: Device,
    transfer: Transfer,
    line: Line,
    frame: Received,
) -> Result<Option<Heard>, Refusal>
    requires { ValidProfile device.settings.profile }
    ensures { result ≡ heard_by state device transfer line frame }
{
    can::checked(frame)?;
    Ok(unrefused(state, device, transfer, line, frame))
}

fn unrefused(
    state: Nmt,
    device: Device,
    transfer: Transfer,
    line: Line,
    frame: Received,
) -> Option<Heard>
    requires { ValidProfile device.settings.profile }
    ensures { result ≡ unrefused_by state device transfer line frame }
{
    if frame.extended | frame.remote | states::is_initialising(state) {
        return None;
    }
    if frame.identifier == COMMAND {
        let order = nmt::ordered(state, device.node, frame)?;
        return Some(ordered(order));
    }
    if frame.identifier == SYNC {
        return synced(state, frame.length);
    }
    if frame.identifier == Server::FIRST.request + device.node as u32 {
        return requested(state, device, transfer, line, frame);
    }
    None
}

fn synced(state: Nmt, length: u8) -> Option<Heard>
    ensures { result ≡ synced_by state length }
{
    if (length <= MOST_SYNC_LENGTH) & states::is_operational(state) {
        return Some(Heard {
            transfer: None,
            way: Way::Syncs,
        });
    }
    None
}

fn ordered(order: Order) -> Heard
    ensures { result ≡ ordered_by order }
{
    match order {
        Order::Enter(state) => Heard {
            transfer: ended(state),
            way: Way::Enters(state),
        },
        Order::Reset { all } => Heard {
            transfer: Some(Transfer::NONE),
            way: Way::Resets { all },
        },
    }
}

// Entering Stopped ends a transfer, as a reset does.
fn ended(state: Nmt) -> Option<Transfer>
    ensures { result ≡ ended_by state }
{
    if state == Nmt::STOPPED {
        return Some(Transfer::NONE);
    }
    None
}

fn requested(
    state: Nmt,
    device: Device,
    transfer: Transfer,
    line: Line,
    frame: Received,
) -> Option<Heard>
    requires { ValidProfile device.settings.profile }
    ensures { result ≡ requested_by state device transfer line frame }
{
    if server::serves(
        state,
        frame.length,
        waiting::waits(line, Server::FIRST.kind),
    ) {
        let bytes = frame.bytes;
        let due = serving::serve(device, states::is_operational(state), transfer, bytes);
        return Some(served(due));
    }
    None
}

fn served(served: Served) -> Heard
    ensures { result ≡ served_by served }
{
    let transfer = served.transfer;
    Heard {
        transfer: Some(transfer),
        way: effect_way(served.bytes, served.effect),
    }
}

fn effect_way(reply: Bytes, effect: Effect) -> Way
    ensures { result ≡ effect_way reply effect }
{
    match effect {
        Effect::Nothing => Way::Ends,
        Effect::Reply => Way::Replies(reply),
        Effect::Write { key, value } => write_way(Write { reply, key, value }),
    }
}

fn write_way(write: Write) -> Way
    ensures { result ≡ write_way write }
{
    let key = write.key;
    let reply = write.reply;
    if key == ERROR_COUNT {
        return Way::Empties(reply);
    }
    if (key == SAVE) | (key == LOAD) {
        return Way::Saves { reply, key };
    }
    if OPERATING <= key {
        return Way::Scales(write);
    }
    Way::Configures(write)
}
