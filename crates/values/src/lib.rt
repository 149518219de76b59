//! What each entry reads: 01, "Entries".

#![tactic(auto)]

ghost use Rattle.std.specs.Prelude.{◌≡◌, not, cond, ◌+◌, ◌<◌};
ghost use Rattle.position.specs.Profile.{ValidProfile};
ghost use Rattle.entries.specs.Identity.{name_of};
ghost use Rattle.entries.specs.Table.{blank_in, settings_of, beside, number_of};
ghost use Rattle.dictionary.specs.Reads.{shown};

use entries::table::{
    EMERGENCY, HEARTBEAT, INHIBIT, OPERATING, PRESET, RANGE, Row, STEP, Source, TPDO1_EVENT,
    TPDO1_ID, TPDO1_TYPE, TPDO2_EVENT, TPDO2_ID, TPDO2_TYPE, WhenBlank,
};
use entries::{Device, Identity, Settings};

const OPERATIONAL: u32 = 0x8000;

// What the entry of a row reads; `None` is blank, which is no number and not 0.
#[tactic(auto, unfolding(dictionary::specs::Reads::shown))]
pub fn read(device: Device, operational: bool, row: Row) -> Option<u32>
    requires { ValidProfile device.settings.profile }
    ensures { result ≡ shown device operational row }
{
    if is_blank(row.blank, device) {
        return None;
    }
    Some(number(row.source, device, operational))
}

fn is_blank(when: WhenBlank, device: Device) -> bool
    ensures { result ≡ blank_in when device }
{
    match when {
        WhenBlank::Never => false,
        WhenBlank::Missing => !device.reading.good,
        WhenBlank::Beyond(count) => device.errors < count,
    }
}

fn number(source: Source, device: Device, operational: bool) -> u32
    requires { ValidProfile device.settings.profile }
    ensures { result ≡ number_of source device operational }
{
    let identity = device.identity;
    let settings = device.settings;
    match source {
        Source::Fixed(number) => number,
        Source::Setting(key) => setting(settings, key),
        Source::Register => register(device.reading.good),
        Source::ErrorCount => device.errors,
        Source::Name(number) => size(identity, number),
        Source::Vendor => identity.vendor,
        Source::Product => identity.product,
        Source::Revision => identity.revision,
        Source::Serial => identity.serial,
        Source::Position => position::position_of(settings.profile, device.reading.raw),
        Source::Status => status(settings.profile.operating, operational),
        Source::Offset => can::bits(settings.profile.offset),
    }
}

// The setting of this name, which is the key of its entry.
fn setting(settings: Settings, key: u32) -> u32
    ensures { result ≡ beside (settings_of settings) key }
{
    let communication = settings.communication;
    let profile = settings.profile;
    match key {
        EMERGENCY => communication.emergency,
        INHIBIT => communication.inhibit,
        HEARTBEAT => communication.heartbeat,
        TPDO1_ID => communication.pdo1.identifier,
        TPDO1_TYPE => communication.pdo1.transmission,
        TPDO1_EVENT => communication.pdo1.event,
        TPDO2_ID => communication.pdo2.identifier,
        TPDO2_TYPE => communication.pdo2.transmission,
        TPDO2_EVENT => communication.pdo2.event,
        OPERATING => profile.operating,
        RANGE => profile.range,
        PRESET => profile.preset,
        STEP => profile.step,
        _ => 0,
    }
}

// The size of the name of this number. `entries::name_of` is not asked, because it would copy the name.
fn size(identity: Identity, number: u8) -> u32
    ensures { result ≡ (name_of identity number).length }
{
    let length = match number {
        1 => identity.name.length,
        2 => identity.hardware.length,
        _ => identity.software.length,
    };
    u32::from(length)
}

fn register(good: bool) -> u32
    ensures { result ≡ cond (not good) 1 0 }
{
    if good { 0 } else { 1 }
}

fn status(operating: u32, operational: bool) -> u32
    requires { operating < 16 }
    ensures { result ≡ operating + cond operational 0x8000 0 }
{
    if operational {
        operating + OPERATIONAL
    } else {
        operating
    }
}
