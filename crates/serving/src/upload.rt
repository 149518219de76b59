//! A segment of a name, while its transfer runs.
ghost use Rattle.std.specs.Prelude.{◌≡◌};
ghost use Rattle.sdo.specs.Reply.{segmented};
ghost use Rattle.sdo.specs.Upload.{upload_bytes, upload_leaves};

use dictionary::abort::Abort;
use entries::Identity;
use names::Transfer;
use sdo::reply::Served;

// The abort for a wrong toggle names the entry of the transfer and ends it.
pub fn segment(identity: Identity, transfer: Transfer, command: u8) -> Served
    ensures { result ≡ segmented (upload_bytes identity transfer command) (upload_leaves identity transfer command) }
{
    if requests::toggle(command) != names::toggle(transfer) {
        return replies::abort(names::named(transfer), Abort::WrongToggle.code());
    }
    let name = entries::name_of(identity, transfer.name);
    replies::segment(
        names::segment(name, transfer.segments),
        names::next(transfer, name.length),
    )
}
