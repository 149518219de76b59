//! The transmit PDOs and SYNC: PDO types, what a PDO counts, when it is due, its frame. 01, "The waiting line".

#![tactic(auto)]

ghost use Rattle.std.specs.Prelude.{◌≡◌};
ghost use Rattle.can.specs.Number.{low_first};
ghost use Rattle.position.specs.Position.{position};
ghost use Rattle.position.specs.Profile.{ValidProfile};
ghost use Rattle.promises.specs.States.{uncounted as uncountedClock};
ghost use Rattle.promises.specs.Timers.{synchronous, clock_written};
ghost use Rattle.promises.specs.WaitingLine.{may_show, may_keep, carried as carriedBy, frame as frameWith};
ghost use Rattle.tpdo.specs.Moments.{event_count, sync_count};

use acceptance::is_on;
use can::Frame;
use counting::{Count, counted, restarted};
use entries::Pdo;
use parts::{Clock, Nmt};
use position::Profile;

pub mod sync;

// Types n = 1 to 240 are sent at each n-th SYNC, types 254 and 255 by events.
const MOST_SYNCS: u32 = 240;

const LENGTH: u8 = 4;

pub fn is_synchronous(pdo: Pdo) -> bool
    ensures { result ≡ synchronous pdo }
{
    (1..=MOST_SYNCS).contains(&pdo.transmission)
}

pub fn may_join(state: Nmt, identifier: u32, good: bool) -> bool
    ensures { result ≡ may_show state identifier good }
{
    states::is_operational(state) & is_on(identifier) & good
}

// A frame of types 1 to 240 stays whatever the reading, one of types 254 and 255 only while it is good.
pub fn may_stay(state: Nmt, pdo: Pdo, good: bool) -> bool
    ensures { result ≡ may_keep state pdo good }
{
    may_join(state, pdo.identifier, is_synchronous(pdo) | good)
}

pub fn uncounted() -> Clock
    ensures { result ≡ uncountedClock }
{
    Clock { ticks: 0, syncs: 0 }
}

// The event timer after a tick, and whether the PDO is due. It counts in Operational only.
pub fn ticked(operational: bool, pdo: Pdo, ticks: u32) -> Count
    ensures { result ≡ event_count operational pdo ticks }
{
    if !operational {
        return Count {
            count: ticks,
            ends: false,
        };
    }
    let next = counted(pdo.event, ticks);
    Count {
        count: next.count,
        ends: !is_synchronous(pdo) & next.ends,
    }
}

// The count of SYNCs after one more in Operational, and whether the PDO is due.
pub fn synced(pdo: Pdo, syncs: u32) -> Count
    ensures { result ≡ sync_count pdo syncs }
{
    if is_on(pdo.identifier) & is_synchronous(pdo) {
        return counted(pdo.transmission, syncs);
    }
    Count {
        count: syncs,
        ends: false,
    }
}

// The clock after a write that may have switched the PDO on; `event`: the write was to its sub 5.
pub fn written(event: bool, before: Pdo, after: Pdo, clock: Clock) -> Clock
    ensures { result ≡ clock_written event before after clock }
{
    let switched_on = !is_on(before.identifier) & is_on(after.identifier);
    Clock {
        ticks: restarted(event | switched_on, clock.ticks),
        syncs: restarted(switched_on, clock.syncs),
    }
}

// The position, low byte first, and then zeros: byte by byte, as CiA 301 draws the frame.
pub fn frame(pdo: Pdo, profile: Profile, raw: u32, fixed: u32) -> Frame
    requires { ValidProfile profile }
    ensures { result ≡ frameWith pdo.identifier 4 (low_first 4 (carriedBy pdo (position profile raw) fixed)) }
{
    let low = can::long_bytes(carried(pdo, profile, raw, fixed));
    Frame {
        identifier: pdo.identifier,
        length: LENGTH,
        bytes: [low[0], low[1], low[2], low[3], 0, 0, 0, 0],
    }
}

// The position that the frame carries: `fixed` at the SYNC, or the one at the slot.
fn carried(pdo: Pdo, profile: Profile, raw: u32, fixed: u32) -> u32
    requires { ValidProfile profile }
    ensures { result ≡ carriedBy pdo (position profile raw) fixed }
{
    if is_synchronous(pdo) {
        return fixed;
    }
    position::position_of(profile, raw)
}
