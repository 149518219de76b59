//! A slot: the frame that it sends, and what sending it changes.
ghost use Rattle.std.specs.Prelude.{◌≡◌, ◌≤◌};
ghost use Rattle.position.specs.Profile.{ValidProfile};
ghost use Rattle.waiting.specs.Line.{places};
ghost use Rattle.waiting.specs.Places.{waiting as waitingIn, taken_in, Holds};
ghost use Rattle.promises.specs.Calls.{no_frame};
ghost use Rattle.steps.specs.Slot.{slotted_of, slot_way, slot_frame, booted_of, announced_of};

use acceptance::is_on;
use can::{Bytes, Frame};
use entries::{Reading, Settings};
use parts::{Fixed, Nmt};
use waiting::{EMERGENCY, EMPTY, HEARTBEAT, Line, SDO_REPLY, TPDO1, TPDO2};

// The frame to send, if one waited. Otherwise it is all 0 and must not be sent. A flag and a value, not an Option, for C.
#[repr(C)]
#[derive(Clone, Copy)]
pub struct Outgoing {
    pub waited: bool,
    pub frame: Frame,
}

impl Outgoing {
    pub const NONE: Outgoing = Outgoing {
        waited: false,
        frame: Frame {
            identifier: 0,
            length: 0,
            bytes: [0, 0, 0, 0, 0, 0, 0, 0],
        },
    };
}

// The ways of a slot: it sends the boot-up frame, the emergency, or another kind.
#[derive(Clone, Copy)]
pub enum Way {
    Boots,
    Announces,
    Sends,
}

#[derive(Clone, Copy)]
pub struct Slotted {
    pub frame: Frame,
    pub way: Way,
}

pub fn slot(
    node: u8,
    state: Nmt,
    settings: Settings,
    reading: Reading,
    reply: Bytes,
    fixed: Fixed,
    line: Line,
) -> Option<Slotted>
    requires { ValidProfile settings.profile }
    ensures { result ≡ slotted_of node state settings reading reply fixed line }
{
    let kind = waiting::first(line);
    let way = way_of(state, kind)?;
    Some(Slotted {
        frame: frame(node, state, settings, reading, reply, fixed, kind),
        way,
    })
}

fn way_of(state: Nmt, kind: u8) -> Option<Way>
    ensures { result ≡ slot_way state kind }
{
    if states::is_initialising(state) {
        return Some(Way::Boots);
    }
    match kind {
        EMPTY => None,
        EMERGENCY => Some(Way::Announces),
        _ => Some(Way::Sends),
    }
}

fn frame(
    node: u8,
    state: Nmt,
    settings: Settings,
    reading: Reading,
    reply: Bytes,
    fixed: Fixed,
    kind: u8,
) -> Frame
    requires { ValidProfile settings.profile }
    ensures { result ≡ slot_frame node state settings reading reply fixed kind }
{
    if states::is_initialising(state) {
        return heartbeat::frame(node, state);
    }
    let pdo1 = settings.communication.pdo1;
    let pdo2 = settings.communication.pdo2;
    let profile = settings.profile;
    match kind {
        EMERGENCY => emergency::frame(node, reading.good),
        SDO_REPLY => server::frame(node, reply),
        HEARTBEAT => heartbeat::frame(node, state),
        TPDO1 => tpdo::frame(pdo1, profile, reading.raw, fixed.pdo1),
        TPDO2 => tpdo::frame(pdo2, profile, reading.raw, fixed.pdo2),
        _ => none(),
    }
}

// A function and no constant: of a constant the frame is put together byte by byte, and a slot with a reply takes 98 instructions in place of 57.
fn none() -> Frame
    ensures { result ≡ no_frame }
{
    Frame {
        identifier: 0,
        length: 0,
        bytes: [0, 0, 0, 0, 0, 0, 0, 0],
    }
}

#[derive(Clone, Copy)]
pub struct Booted {
    pub nmt: Nmt,
    pub line: Line,
}

// The slot that sends the boot-up frame enters Pre-operational. Nothing else waits then, and an emergency may join.
pub fn boot(emergency: u32, good: bool) -> Booted
    ensures { result ≡ booted_of emergency good }
{
    Booted {
        nmt: Nmt::PRE_OPERATIONAL,
        line: waiting::join_if(waiting::none(), is_on(emergency) & !good, EMERGENCY),
    }
}

#[derive(Clone, Copy)]
pub struct Announced {
    pub announced: bool,
    pub inhibit: u32,
    pub line: Line,
}

// Sending the emergency announces the present reading and starts the inhibit time.
pub fn announce(inhibit: u32, good: bool, line: Line) -> Announced
    requires inhibit_bound { inhibit ≤ 0xFFFF }
    requires holds { Holds places line (waitingIn line) }
    ensures { result ≡ announced_of inhibit good line }
{
    Announced {
        announced: good,
        inhibit: emergency::inhibit_ticks(inhibit),
        line: waiting::taken(line),
    }
}

pub fn take(line: Line) -> Line
    requires { Holds places line (waitingIn line) }
    ensures { result ≡ taken_in line }
{
    waiting::taken(line)
}
