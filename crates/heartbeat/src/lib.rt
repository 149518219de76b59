//! The heartbeat: when it may wait, its period, its frame. 01, "The waiting line".

#![tactic(auto)]

ghost use Rattle.std.specs.Prelude.{◌≡◌, [], ◌∷◌, ◌+◌};
ghost use Rattle.promises.specs.WaitingLine.{may_beat, frame as frameWith};
ghost use Rattle.counting.specs.Periods.{one_more};

use can::Frame;
use counting::Count;
use parts::Nmt;

const IDENTIFIER: u32 = 0x700;

const LENGTH: u8 = 1;

pub fn may_wait(state: Nmt, period_ms: u32) -> bool
    ensures { result ≡ may_beat state period_ms }
{
    !states::is_initialising(state) & (period_ms != 0)
}

pub fn ticked(period_ms: u32, ticks: u32) -> Count
    ensures { result ≡ one_more period_ms ticks }
{
    counting::counted(period_ms, ticks)
}

// One byte, the state code. The boot-up frame is that of Initialising.
pub fn frame(node: u8, state: Nmt) -> Frame
    ensures { result ≡ frameWith (0x700 + node) 1 (state.code ∷ []) }
{
    Frame {
        identifier: IDENTIFIER + node as u32,
        length: LENGTH,
        bytes: [state.code, 0, 0, 0, 0, 0, 0, 0],
    }
}
