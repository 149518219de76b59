//! The types of a head, and of what its calls take and answer. Crates `head` and `lent` have the calls. 01, "The head and its neighbours".

#![tactic(auto)]

use can::{Bytes, Frame};
use entries::{Device, Identity};
use names::Transfer;
use waiting::Line;

// A state, named with its heartbeat code.
#[repr(C)]
#[derive(Clone, Copy, PartialEq, Eq)]
pub struct Nmt {
    pub code: u8,
}

impl Nmt {
    pub const INITIALISING: Nmt = Nmt { code: 0x00 };

    pub const STOPPED: Nmt = Nmt { code: 0x04 };

    pub const OPERATIONAL: Nmt = Nmt { code: 0x05 };

    pub const PRE_OPERATIONAL: Nmt = Nmt { code: 0x7F };
}

// The counts of a PDO since entry to Operational or since it was switched on; for the ticks also since a write to its sub 5.
#[repr(C)]
#[derive(Clone, Copy)]
pub struct Clock {
    pub ticks: u32,
    pub syncs: u32,
}

// The ticks left of the inhibit time, and the ticks of the heartbeat since its write or since boot-up.
#[repr(C)]
#[derive(Clone, Copy)]
pub struct Timers {
    pub inhibit: u32,
    pub heartbeat: u32,
    pub pdo1: Clock,
    pub pdo2: Clock,
}

// The position that a frame of types 1 to 240 carries, for each PDO: fixed at its last due SYNC. It means something only while the frame waits.
#[repr(C)]
#[derive(Clone, Copy)]
pub struct Fixed {
    pub pdo1: u32,
    pub pdo2: u32,
}

// All but the line and the transfer. `announced` is whether the reading last announced was good. `reply` holds the bytes of the SDO
// reply last made.
#[repr(C)]
#[derive(Clone, Copy)]
pub struct Core {
    pub nmt: Nmt,
    pub announced: bool,
    pub timers: Timers,
    pub reply: Bytes,
    pub device: Device,
    pub fixed: Fixed,
}

// A head is made by `power_up` and altered by the calls only: the promises are for such heads, and each call leaves one.
// `Valid`, and what follows from it of a part, stands in the contracts and is no invariant of a type: `haybleater_power_up` takes memory
// that may hold anything, and `haybleater_state` asks nothing of its head.
#[repr(C)]
#[derive(Clone, Copy)]
pub struct Head {
    pub line: Line,
    pub transfer: Transfer,
    pub core: Core,
}

// The number of a refusal, 0 for none, and the head, which a refused frame or sample leaves as it was.
// A number and no Result: the promises of the calls (`Receives`, `Samples`, `PowersUp`) are about 01's numbers.
#[repr(C)]
#[derive(Clone, Copy)]
pub struct Answer {
    pub refusal: u8,
    pub head: Head,
}

// The frame to send, if one waited, and the head.
#[derive(Clone, Copy)]
pub struct Sent {
    pub frame: Option<Frame>,
    pub head: Head,
}

// What power-up is given.
#[repr(C)]
#[derive(Clone, Copy)]
pub struct Setup {
    pub node: u8,
    pub identity: Identity,
}

// What the sensor gives. It has the shape of an Option, but `Missing` says what is missing, and the promises name both cases.
#[derive(Clone, Copy)]
pub enum Sensor {
    Missing,
    Raw(u32),
}
