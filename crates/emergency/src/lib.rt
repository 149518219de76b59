//! The emergency: when it waits, its frame, and the inhibit time that it starts. 01, "The waiting line".

#![tactic(auto)]

ghost use Rattle.std.specs.Prelude.{◌≡◌, ◌+◌, ◌-◌, ◌≤◌};
ghost use Rattle.cases.specs.Padded.{pad};
ghost use Rattle.promises.specs.WaitingLine.{may_alert, emergency_bytes, frame as frameWith};
ghost use Rattle.promises.specs.Timers.{inhibit_ticks};
ghost use Rattle.emergency.specs.Telling.{telling_of};

use acceptance::is_on;
use can::{Bytes, Frame};
use parts::{Core, Nmt};

const IDENTIFIER: u32 = 0x080;

const LENGTH: u8 = 8;

// 1015h counts units of 100 µs, a tick is 1 ms.
const UNITS_A_TICK: u32 = 10;

// What decides, beside the settings, whether the emergency may wait: the state, the ticks left of the inhibit time, whether the
// reading is good, and whether the one last announced was. A function that takes the timers too has the inhibit time from them.
#[derive(Clone, Copy)]
pub struct Telling {
    pub state: Nmt,
    pub inhibit_ticks: u32,
    pub good: bool,
    pub announced: bool,
}

impl Telling {
    pub fn of(core: &Core) -> Telling
        ensures { result ≡ telling_of core.now }
    {
        Telling {
            state: core.nmt,
            inhibit_ticks: core.timers.inhibit,
            good: core.device.reading.good,
            announced: core.announced,
        }
    }
}

pub fn may_wait(telling: Telling, identifier: u32) -> bool
    ensures { result ≡ may_alert telling.state identifier telling.inhibit_ticks telling.good telling.announced }
{
    states::is_live(telling.state)
        & is_on(identifier)
        & (telling.inhibit_ticks == 0)
        & (telling.good != telling.announced)
}

pub fn frame(node: u8, good: bool) -> Frame
    ensures { result ≡ frameWith (0x80 + node) 8 (emergency_bytes good) }
{
    Frame {
        identifier: IDENTIFIER + node as u32,
        length: LENGTH,
        bytes: bytes(good),
    }
}

fn bytes(good: bool) -> Bytes
    ensures { result ≡ pad 8 (emergency_bytes good) }
{
    if good {
        return [0, 0, 0, 0, 0, 0, 0, 0];
    }
    [0x00, 0x50, 0x01, 0, 0, 0, 0, 0]
}

// The ticks of the inhibit time that sending starts, by 1015h.
pub fn inhibit_ticks(inhibit: u32) -> u32
    requires { inhibit ≤ 0xFFFF }
    ensures { result ≡ inhibit_ticks inhibit }
{
    if inhibit == 0 {
        return 0;
    }
    inhibit.div_ceil(UNITS_A_TICK) + 1
}

// The ticks of the inhibit time that are left after one more.
pub fn ticked(inhibit_ticks: u32) -> u32
    ensures { result ≡ inhibit_ticks - 1 }
{
    inhibit_ticks.saturating_sub(1)
}
