//! The SDO server: from a request's eight bytes to the reply's, to what the write does, and to the transfer of a name. 01, "Service requests".

#![tactic(auto)]

ghost use Rattle.std.specs.Prelude.{◌≡◌};
ghost use Rattle.position.specs.Profile.{ValidProfile};
ghost use Rattle.entries.specs.Table.{lookup};
ghost use Rattle.sdo.specs.Steps.{found_reply, reply_to, reply_in};
ghost use Rattle.sdo.specs.Service.{answer, due};
ghost use Rattle.sdo.specs.Upload.{due_in};

use can::Bytes;
use dictionary::abort::Abort;
use entries::Device;
use names::Transfer;
use sdo::reply::Served;
use sdo::request::{Access, Ask};

mod download;
mod upload;

// The reply due to a request, what the request does, and the transfer that it leaves.
#[tactic(auto, unfolding(sdo::specs::Upload::due_in))]
pub fn serve(device: Device, operational: bool, transfer: Transfer, bytes: Bytes) -> Served
    requires { ValidProfile device.settings.profile }
    ensures { result ≡ answer bytes (due_in device operational transfer bytes) }
{
    let command = bytes[0];
    if names::runs(transfer) && requests::is_segment(command) {
        return upload::segment(device.identity, transfer, command);
    }
    first(device, operational, bytes)
}

// Device, state and bytes go from here down as they came: a struct of them would be made once and taken apart at once.
// Every other request ends the transfer; a read of a name starts one. A client's abort gets no reply.
fn first(device: Device, operational: bool, bytes: Bytes) -> Served
    requires { ValidProfile device.settings.profile }
    ensures { result ≡ answer bytes (due device operational bytes) }
{
    if requests::is_abort(bytes[0]) {
        return replies::no_reply();
    }
    reply_to(device, operational, bytes, requests::taken_apart(bytes))
}

fn reply_to(device: Device, operational: bool, bytes: Bytes, request: Option<Ask>) -> Served
    requires { ValidProfile device.settings.profile }
    ensures { result ≡ reply_to device operational bytes request }
{
    let Some(ask) = request else {
        return replies::abort(bytes, Abort::UnknownCommand.code());
    };
    match answer_to(device, operational, bytes, ask) {
        Ok(served) => served,
        Err(reason) => replies::abort(bytes, reason.code()),
    }
}

fn answer_to(device: Device, operational: bool, bytes: Bytes, ask: Ask) -> Result<Served, Abort>
    requires { ValidProfile device.settings.profile }
    ensures { reply_in bytes result ≡ found_reply device operational bytes ask.access (lookup ask.index ask.sub) }
{
    let row = entries::table::find(ask.index, ask.sub)?;
    match ask.access {
        Access::Read => {
            let entry = values::read(device, operational, row);
            Ok(replies::shown(bytes, row.width, entry))
        }
        Access::Write { length, content } => {
            download::to_row(device, bytes, length, content, row)
        }
    }
}
