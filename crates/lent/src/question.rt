//! What a host may ask about a head, by value.
ghost use Rattle.std.specs.Prelude.{◌≡◌};
ghost use Rattle.promises.specs.Valid.{Valid};
ghost use Rattle.lent.specs.Questions.{state_code, is_good, position_of, any_waits, goes_if_missing};

use crate::Located;
use parts::Head;
use waiting::{EMERGENCY, HEARTBEAT, SDO_REPLY, TPDO1, TPDO2};

pub fn state(head: Head) -> u8
    ensures { result ≡ state_code head }
{
    head.core.nmt.code
}

pub fn good(head: Head) -> bool
    ensures { result ≡ is_good head }
{
    head.core.device.reading.good
}

pub fn position(head: Head) -> Located
    requires { Valid head }
    ensures { result ≡ position_of head }
{
    if head.core.device.reading.good {
        return Located {
            known: true,
            position: position::position_of(
                head.core.device.settings.profile,
                head.core.device.reading.raw,
            ),
        };
    }
    Located {
        known: false,
        position: 0,
    }
}

pub fn waits(head: Head) -> bool
    ensures { result ≡ any_waits head }
{
    let state = head.core.nmt;
    let line = head.line;
    let kind = waiting::first(line);
    let waits = (kind == EMERGENCY)
        | (kind == SDO_REPLY)
        | (kind == HEARTBEAT)
        | (kind == TPDO1)
        | (kind == TPDO2);
    states::is_initialising(state) | waits
}

pub fn goes_if_missing(head: Head) -> bool
    ensures { result ≡ goes_if_missing head }
{
    let pdo1 = head.core.device.settings.communication.pdo1;
    let pdo2 = head.core.device.settings.communication.pdo2;
    let line = head.line;
    let kind = waiting::first(line);
    ((kind == TPDO1) & !tpdo::is_synchronous(pdo1))
        | ((kind == TPDO2) & !tpdo::is_synchronous(pdo2))
}
