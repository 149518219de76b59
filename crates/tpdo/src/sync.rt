//! What a received SYNC changes.
ghost use Rattle.std.specs.Prelude.{◌≡◌};
ghost use Rattle.position.specs.Profile.{ValidProfile};
ghost use Rattle.tpdo.specs.Sync.{synced_by, fixed_anew};

use crate::{may_join, synced};
use entries::{Reading, Settings};
use parts::{Clock, Fixed, Nmt, Timers};
use position::Profile;
use waiting::{Line, TPDO1, TPDO2};

// `nmt::entry::Entered` has a state where this has the fixed positions: one type for both would name neither.
#[derive(Clone, Copy)]
pub struct Synced {
    pub timers: Timers,
    pub fixed: Fixed,
    pub line: Line,
}

// A SYNC in Operational. An emergency that may wait waits already.
pub fn sync(
    state: Nmt,
    settings: Settings,
    timers: Timers,
    reading: Reading,
    fixed: Fixed,
    line: Line,
) -> Synced
    requires { ValidProfile settings.profile }
    ensures { result ≡ synced_by state settings timers reading fixed line }
{
    let pdo1 = settings.communication.pdo1;
    let pdo2 = settings.communication.pdo2;
    let profile = settings.profile;
    let sync1 = synced(pdo1, timers.pdo1.syncs);
    let sync2 = synced(pdo2, timers.pdo2.syncs);
    let first = sync1.ends & may_join(state, pdo1.identifier, reading.good);
    let second = sync2.ends & may_join(state, pdo2.identifier, reading.good);
    Synced {
        timers: Timers {
            inhibit: timers.inhibit,
            heartbeat: timers.heartbeat,
            pdo1: Clock {
                ticks: timers.pdo1.ticks,
                syncs: sync1.count,
            },
            pdo2: Clock {
                ticks: timers.pdo2.ticks,
                syncs: sync2.count,
            },
        },
        fixed: anew(first, second, profile, reading.raw, fixed),
        line: waiting::join_if(waiting::join_if(line, first, TPDO1), second, TPDO2),
    }
}

// A PDO that is due and may join has its position fixed, also if it waits already.
fn anew(first: bool, second: bool, profile: Profile, raw: u32, fixed: Fixed) -> Fixed
    requires { ValidProfile profile }
    ensures { result ≡ fixed_anew first second profile raw fixed }
{
    if !(first | second) {
        return fixed;
    }
    let position = position::position_of(profile, raw);
    Fixed {
        pdo1: if first { position } else { fixed.pdo1 },
        pdo2: if second { position } else { fixed.pdo2 },
    }
}
