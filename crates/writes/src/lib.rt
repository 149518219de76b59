//! What an accepted write changes in the settings: 01, "Entries" and "Position".

#![tactic(auto)]

ghost use Rattle.std.specs.Prelude.{◌≡◌, cond};
ghost use Rattle.position.specs.Profile.{ValidProfile};
ghost use Rattle.dictionary.specs.Writes.{communication_after, range_for, rescaled_to, profile_after, saved_after, Fits, put};

use entries::table::{
    EMERGENCY, ERROR_COUNT, HEARTBEAT, INHIBIT, LOAD, OPERATING, PRESET, RANGE, SAVE, STEP,
    TPDO1_EVENT, TPDO1_ID, TPDO1_TYPE, TPDO2_EVENT, TPDO2_ID, TPDO2_TYPE,
};
use entries::{Communication, Device, Settings};
use position::{FULL_RANGE, Profile, SCALED_RANGE};

// The device after a write that `acceptance::check_write` lets pass. The key is the name that `entries::table::altered` gives.
#[tactic(auto, unfolding(dictionary::specs::Writes::put))]
pub fn write(device: Device, key: u32, value: u32) -> Device
    requires { (ValidProfile device.settings.profile) × (Fits device.settings.profile key value) }
    ensures { result ≡ put device key value }
{
    let communication = device.settings.communication;
    let profile = device.settings.profile;
    Device {
        errors: if key == ERROR_COUNT { 0 } else { device.errors },
        settings: Settings {
            communication: communication_after(communication, key, value),
            profile: profile_after(profile, device.reading.raw, key, value),
        },
        saved: saved_after(device, key),
        ..device
    }
}

pub fn communication_after(old: Communication, key: u32, value: u32) -> Communication
    ensures { result ≡ communication_after old key value }
{
    let mut new = old;
    match key {
        EMERGENCY => new.emergency = value,
        INHIBIT => new.inhibit = value,
        HEARTBEAT => new.heartbeat = value,
        TPDO1_ID => new.pdo1.identifier = value,
        TPDO1_TYPE => new.pdo1.transmission = value,
        TPDO1_EVENT => new.pdo1.event = value,
        TPDO2_ID => new.pdo2.identifier = value,
        TPDO2_TYPE => new.pdo2.transmission = value,
        TPDO2_EVENT => new.pdo2.event = value,
        _ => {}
    }
    new
}

pub fn profile_after(old: Profile, raw: u32, key: u32, value: u32) -> Profile
    requires { (ValidProfile old) × (Fits old key value) }
    ensures { result ≡ profile_after old raw key value }
{
    match key {
        OPERATING => rescaled(value, range_for(value), old.step),
        RANGE => rescaled(old.operating, value, old.step),
        STEP => rescaled(old.operating, old.range, value),
        PRESET => position::preset_to(old, raw, value),
        _ => old,
    }
}

fn range_for(operating: u32) -> u32
    ensures { result ≡ range_for operating }
{
    if position::scaling(operating) {
        SCALED_RANGE
    } else {
        FULL_RANGE
    }
}

// With the preset and the offset 0.
fn rescaled(operating: u32, range: u32, step: u32) -> Profile
    ensures { result ≡ rescaled_to operating range step }
{
    Profile {
        operating,
        range,
        preset: 0,
        step,
        offset: 0,
    }
}

fn saved_after(device: Device, key: u32) -> Settings
    ensures { result ≡ saved_after device key }
{
    match key {
        SAVE => device.settings,
        LOAD => Settings::factory(device.node),
        _ => device.saved,
    }
}
