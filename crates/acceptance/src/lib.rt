//! Which writes an entry accepts, by value and by state, and the reason to abort
//! any other: 01, "Entries", and steps 5 and 6 of "First that applies".

#![tactic(auto)]

ghost use Rattle.std.specs.Prelude.{◌≡◌};
ghost use Rattle.dictionary.specs.AbortCodes.{code_in};
ghost use Rattle.dictionary.specs.Accepted.{on, pdo_identifier, transmission_type, accepts, value_abort_code, pdo_barred, barred as barredBy, abort_code};

use dictionary::abort::Abort;
use entries::table::{Accepted, PRESET, RANGE, Row, STEP, TPDO1, TPDO2, key_of};
use entries::{Device, Pdo};

const BIT_31: u32 = 0x8000_0000;

const BIT_11: u32 = 0x800;

// Whether the entry of the row takes the write: first by the value, then by the state.
#[tactic(auto, unfolding(dictionary::specs::Accepted::abort_code), using(dictionary::proofs::Accepted::state_due))]
pub fn check_write(device: Device, row: Row, value: u32) -> Result<(), Abort>
    ensures { code_in result ≡ abort_code device row value }
{
    check_value(
        row.accepted,
        device.node,
        device.settings.profile.range,
        value,
    )?;
    if barred(device, row.key, value) {
        return Err(Abort::DeviceState);
    }
    Ok(())
}

pub fn check_value(accepted: Accepted, node: u8, range: u32, value: u32) -> Result<(), Abort>
    ensures { code_in result ≡ value_abort_code accepted node range value }
{
    if is_accepted(accepted, node, range, value) {
        return Ok(());
    }
    match accepted {
        Accepted::Signature(_) => Err(Abort::WrongSignature),
        _ => Err(Abort::InvalidValue),
    }
}

fn is_accepted(accepted: Accepted, node: u8, range: u32, value: u32) -> bool
    ensures { result ≡ accepts accepted node range value }
{
    match accepted {
        Accepted::Nothing => false,
        Accepted::All => true,
        Accepted::Only(only) => value == only,
        Accepted::Signature(signature) => value == signature,
        Accepted::Between(low, high) => (low..=high).contains(&value),
        Accepted::EmergencyIdentifier => value % BIT_31 == 0x80 + node as u32,
        Accepted::PdoIdentifier => is_pdo_identifier(value),
        Accepted::TransmissionType => is_transmission_type(value),
        Accepted::OperatingParameters => value % 4 == 0 && value / 16 == 0,
        Accepted::BelowRange => value < range,
    }
}

// Bit 31 of a PDO's identifier, or of the emergency's, switches it off.
pub fn is_on(identifier: u32) -> bool
    ensures { result ≡ on identifier }
{
    identifier / BIT_31 % 2 != 1
}

fn is_pdo_identifier(value: u32) -> bool
    ensures { result ≡ pdo_identifier value }
{
    value % BIT_31 / BIT_11 == 0 && (!is_on(value) || (0x181..=0x57F).contains(&value))
}

fn is_transmission_type(value: u32) -> bool
    ensures { result ≡ transmission_type value }
{
    matches!(value, 1..=240 | 254..=255)
}

fn barred(device: Device, key: u32, value: u32) -> bool
    ensures { result ≡ barredBy device key value }
{
    let pdo1 = device.settings.communication.pdo1;
    let pdo2 = device.settings.communication.pdo2;
    ((key == RANGE || key == STEP) && !position::scaling(device.settings.profile.operating))
        || (key == PRESET && !device.reading.good)
        || pdo_barred(TPDO1, pdo1, key, value)
        || pdo_barred(TPDO2, pdo2, key, value)
}

// Whether a PDO that is on forbids a write: one of another identifier that leaves it on, or one of its type.
fn pdo_barred(index: u16, pdo: Pdo, key: u32, value: u32) -> bool
    ensures { result ≡ pdo_barred index pdo key value }
{
    let held = pdo.identifier;
    (key == key_of(index, 1) && is_on(held) && is_on(value) && value != held)
        || (key == key_of(index, 2) && is_on(held))
}
