//! The settings and their factory values, the device that the entries show, and the table of entries. 01, "Entries".

#![tactic(auto)]

ghost use Rattle.std.specs.Prelude.{◌≡◌};
ghost use Rattle.entries.specs.Settings.{factory as factorySettings};
ghost use Rattle.entries.specs.Identity.{name_of};
ghost use Rattle.entries.specs.Laws.{Laws};

use names::Name;
use position::{FULL_RANGE, Profile};

pub mod table;

// Every number of the settings has 32 bits, like the data of a request, whatever the type of its entry.
#[repr(C)]
#[derive(Clone, Copy)]
pub struct Pdo {
    pub identifier: u32,
    pub transmission: u32,
    pub event: u32,
}

// The settings below 2000h: 1014h, 1015h, 1017h, 1800h, 1801h.
#[repr(C)]
#[derive(Clone, Copy)]
pub struct Communication {
    pub emergency: u32,
    pub inhibit: u32,
    pub heartbeat: u32,
    pub pdo1: Pdo,
    pub pdo2: Pdo,
}

#[repr(C)]
#[derive(Clone, Copy)]
pub struct Settings {
    pub communication: Communication,
    pub profile: Profile,
}

impl Settings {
    pub fn factory(node: u8) -> Settings
        ensures { result ≡ factorySettings node }
    {
        let n = node as u32;
        Settings {
            communication: Communication {
                emergency: 0x80 + n,
                inhibit: 0,
                heartbeat: 0,
                pdo1: Pdo {
                    identifier: 0x180 + n,
                    transmission: 254,
                    event: 100,
                },
                pdo2: Pdo {
                    identifier: 0x280 + n,
                    transmission: 1,
                    event: 0,
                },
            },
            profile: Profile {
                operating: 0,
                range: FULL_RANGE,
                preset: 0,
                step: 5_000,
                offset: 0,
            },
        }
    }
}

// The numbers of 1018h, and the names 1008h, 1009h, 100Ah.
#[repr(C)]
#[derive(Clone, Copy)]
pub struct Identity {
    pub vendor: u32,
    pub product: u32,
    pub revision: u32,
    pub serial: u32,
    pub name: Name,
    pub hardware: Name,
    pub software: Name,
}

// The name of this number, which `Transfer` holds: 1 for 1008h, 2 for 1009h, 3 for 100Ah.
pub fn name_of(identity: Identity, number: u8) -> Name
    ensures { result ≡ name_of identity number }
{
    match number {
        1 => identity.name,
        2 => identity.hardware,
        _ => identity.software,
    }
}

// The present sample: its raw number is 0 while it is missing. A flag and a number, no Option: a head holds it, and what C lends may hold no enum.
#[repr(C)]
#[derive(Clone, Copy)]
pub struct Reading {
    pub good: bool,
    pub raw: u32,
}

// What the entries show and writes alter.
#[repr(C)]
#[derive(Clone, Copy)]
pub struct Device {
    pub node: u8,
    pub identity: Identity,
    pub reading: Reading,
    pub errors: u32,
    pub settings: Settings,
    pub saved: Settings,
}

// This function does nothing. It ensures the statements of the crate, so the crate is proved only if they are.
fn statements()
    ensures { Laws }
{}
