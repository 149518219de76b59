//! The list of entries, in index order, one line for each, and the search in it. 01, "Entries".
ghost use Rattle.std.specs.Prelude.{◌≡◌, ◌<◌, ◌≤◌};
ghost use Rattle.entries.specs.Table.{key_of, line, row_of_key, lookup, altered as alteredBy};

use Accepted::{
    All, BelowRange, Between, EmergencyIdentifier, Nothing, Only, OperatingParameters,
    PdoIdentifier, Signature, TransmissionType,
};
use Source::{
    ErrorCount, Fixed, Name, Offset, Position, Product, Register, Revision, Serial, Setting,
    Status, Vendor,
};
use WhenBlank::{Beyond, Missing, Never};

// The values that an entry accepts.
#[derive(Clone, Copy)]
pub enum Accepted {
    Nothing,
    All,
    Only(u32),
    Signature(u32),
    Between(u32, u32),
    EmergencyIdentifier,
    PdoIdentifier,
    TransmissionType,
    OperatingParameters,
    BelowRange,
}

// When an entry is blank: never, while the reading is missing, or with fewer errors in the list than this. Three cases, so no Option.
#[derive(Clone, Copy)]
pub enum WhenBlank {
    Never,
    Missing,
    Beyond(u32),
}

// Where the number of an entry comes from. A setting has the key of its entry for a name; a name has the number, 1 to 3, that
// `Transfer` holds for C: so it is no enum.
#[derive(Clone, Copy)]
pub enum Source {
    Fixed(u32),
    Setting(u32),
    Register,
    ErrorCount,
    Name(u8),
    Vendor,
    Product,
    Revision,
    Serial,
    Position,
    Status,
    Offset,
}

// The width is the type's number of bytes; `rw` says whether the entry can be written.
#[derive(Clone, Copy)]
pub struct Row {
    pub key: u32,
    pub width: u8,
    pub rw: bool,
    pub accepted: Accepted,
    pub blank: WhenBlank,
    pub source: Source,
}

// Why the list has no row for an index and a sub-index.
#[derive(Clone, Copy, PartialEq, Eq)]
pub enum NotFound {
    NoSubIndex,
    NoIndex,
}

pub const TPDO1: u16 = 0x1800;

pub const TPDO2: u16 = 0x1801;

// An entry is named by its key: 6003-0 is 6003_00h, 1800-5 is 1800_05h.
pub const ERROR_COUNT: u32 = 0x1003_00;

pub const SAVE: u32 = 0x1010_01;

pub const LOAD: u32 = 0x1011_01;

pub const EMERGENCY: u32 = 0x1014_00;

pub const INHIBIT: u32 = 0x1015_00;

pub const HEARTBEAT: u32 = 0x1017_00;

pub const TPDO1_ID: u32 = 0x1800_01;

pub const TPDO1_TYPE: u32 = 0x1800_02;

pub const TPDO1_EVENT: u32 = 0x1800_05;

pub const TPDO2_ID: u32 = 0x1801_01;

pub const TPDO2_TYPE: u32 = 0x1801_02;

pub const TPDO2_EVENT: u32 = 0x1801_05;

pub const OPERATING: u32 = 0x6000_00;

pub const RANGE: u32 = 0x6002_00;

pub const PRESET: u32 = 0x6003_00;

pub const STEP: u32 = 0x6005_01;

// The first key of the second half of the list.
const AT_1800: u32 = 0x1800_00;

// A type is its number of bytes, a name's the most that it can have.
const U8: u8 = 1;

const U16: u8 = 2;

const U32: u8 = 4;

const S32: u8 = 4;

const NAME: u8 = 32;

const RO: bool = false;

const RW: bool = true;

// Each index has the sub-index 0: if the list has no row for that, there is no such index.
pub fn find(index: u16, sub: u8) -> Result<Row, NotFound>
    ensures { result ≡ lookup index sub }
{
    for asked in [sub, 0] {
        if let Some(row) = row_of(key_of(index, asked)) {
            return if asked == sub {
                Ok(row)
            } else {
                Err(NotFound::NoSubIndex)
            };
        }
    }
    Err(NotFound::NoIndex)
}

// Halves the list by its order, and looks for the key in the half that may have it.
fn row_of(key: u32) -> Option<Row>
    ensures { result ≡ row_of_key key }
{
    if key < AT_1800 {
        return from_1000(key);
    }
    from_1800(key)
}

// The list, one line for each entry, in index order: key, type, access, accepted values, when it is blank,
// where its number comes from. Here 1000h to 1018h. A match and no array, which would be laid out on the stack at each look.
#[tactic(auto, unfolding(crate::specs::Table::table, crate::specs::Table::row_of_key))]
fn from_1000(k: u32) -> Option<Row>
    requires { k < 0x1800_00 }
    ensures { result ≡ row_of_key k }
{
    match k {
        0x1000_00 => Some(line(k, U32, RO, Nothing, Never, Fixed(0x0008_0196))),
        0x1001_00 => Some(line(k, U8, RO, Nothing, Never, Register)),
        0x1003_00 => Some(line(k, U8, RW, Only(0), Never, ErrorCount)),
        0x1003_01 => Some(line(k, U32, RO, Nothing, Beyond(1), Fixed(0x5000))),
        0x1003_02 => Some(line(k, U32, RO, Nothing, Beyond(2), Fixed(0x5000))),
        0x1003_03 => Some(line(k, U32, RO, Nothing, Beyond(3), Fixed(0x5000))),
        0x1003_04 => Some(line(k, U32, RO, Nothing, Beyond(4), Fixed(0x5000))),
        0x1005_00 => Some(line(k, U32, RO, Nothing, Never, Fixed(0x80))),
        0x1008_00 => Some(line(k, NAME, RO, Nothing, Never, Name(1))),
        0x1009_00 => Some(line(k, NAME, RO, Nothing, Never, Name(2))),
        0x100A_00 => Some(line(k, NAME, RO, Nothing, Never, Name(3))),
        0x1010_00 => Some(line(k, U8, RO, Nothing, Never, Fixed(1))),
        0x1010_01 => Some(line(k, U32, RW, Signature(0x6576_6173), Never, Fixed(1))),
        0x1011_00 => Some(line(k, U8, RO, Nothing, Never, Fixed(1))),
        0x1011_01 => Some(line(k, U32, RW, Signature(0x6461_6F6C), Never, Fixed(1))),
        0x1014_00 => Some(line(k, U32, RW, EmergencyIdentifier, Never, Setting(EMERGENCY))),
        0x1015_00 => Some(line(k, U16, RW, All, Never, Setting(INHIBIT))),
        0x1017_00 => Some(line(k, U16, RW, All, Never, Setting(HEARTBEAT))),
        0x1018_00 => Some(line(k, U8, RO, Nothing, Never, Fixed(4))),
        0x1018_01 => Some(line(k, U32, RO, Nothing, Never, Vendor)),
        0x1018_02 => Some(line(k, U32, RO, Nothing, Never, Product)),
        0x1018_03 => Some(line(k, U32, RO, Nothing, Never, Revision)),
        0x1018_04 => Some(line(k, U32, RO, Nothing, Never, Serial)),
        _ => None,
    }
}

// The list from 1800h on.
#[tactic(auto, unfolding(crate::specs::Table::table, crate::specs::Table::row_of_key))]
fn from_1800(k: u32) -> Option<Row>
    requires { 0x1800_00 ≤ k }
    ensures { result ≡ row_of_key k }
{
    match k {
        0x1800_00 => Some(line(k, U8, RO, Nothing, Never, Fixed(5))),
        0x1800_01 => Some(line(k, U32, RW, PdoIdentifier, Never, Setting(TPDO1_ID))),
        0x1800_02 => Some(line(k, U8, RW, TransmissionType, Never, Setting(TPDO1_TYPE))),
        0x1800_05 => Some(line(k, U16, RW, All, Never, Setting(TPDO1_EVENT))),
        0x1801_00 => Some(line(k, U8, RO, Nothing, Never, Fixed(5))),
        0x1801_01 => Some(line(k, U32, RW, PdoIdentifier, Never, Setting(TPDO2_ID))),
        0x1801_02 => Some(line(k, U8, RW, TransmissionType, Never, Setting(TPDO2_TYPE))),
        0x1801_05 => Some(line(k, U16, RW, All, Never, Setting(TPDO2_EVENT))),
        0x1A00_00 => Some(line(k, U8, RO, Nothing, Never, Fixed(1))),
        0x1A00_01 => Some(line(k, U32, RO, Nothing, Never, Fixed(0x6004_0020))),
        0x1A01_00 => Some(line(k, U8, RO, Nothing, Never, Fixed(1))),
        0x1A01_01 => Some(line(k, U32, RO, Nothing, Never, Fixed(0x6004_0020))),
        0x6000_00 => Some(line(k, U16, RW, OperatingParameters, Never, Setting(OPERATING))),
        0x6002_00 => Some(line(k, U32, RW, Between(1_000, 1_000_000), Never, Setting(RANGE))),
        0x6003_00 => Some(line(k, U32, RW, BelowRange, Never, Setting(PRESET))),
        0x6004_00 => Some(line(k, U32, RO, Nothing, Missing, Position)),
        0x6005_00 => Some(line(k, U8, RO, Nothing, Never, Fixed(1))),
        0x6005_01 => Some(line(k, U32, RW, Between(5_000, 1_000_000), Never, Setting(STEP))),
        0x6200_00 => Some(line(k, U16, RW, All, Never, Setting(TPDO1_EVENT))),
        0x6500_00 => Some(line(k, U16, RO, Nothing, Never, Status)),
        0x6501_00 => Some(line(k, U32, RO, Nothing, Never, Fixed(5_000))),
        0x6503_00 => Some(line(k, U16, RO, Nothing, Never, Register)),
        0x6504_00 => Some(line(k, U16, RO, Nothing, Never, Fixed(1))),
        0x6509_00 => Some(line(k, S32, RO, Nothing, Never, Offset)),
        _ => None,
    }
}

// A line of the list.
fn line(key: u32, width: u8, rw: bool, accepted: Accepted, blank: WhenBlank, source: Source) -> Row
    ensures { result ≡ line key width rw accepted blank source }
{
    Row {
        key,
        width,
        rw,
        accepted,
        blank,
        source,
    }
}

// The name of what a write to the entry alters: of the setting that the row shows, else the key of the row.
pub fn altered(row: Row) -> u32
    ensures { result ≡ alteredBy row }
{
    let Setting(own) = row.source else {
        return row.key;
    };
    own
}

pub fn key_of(index: u16, sub: u8) -> u32
    ensures { result ≡ key_of index sub }
{
    u32::from(index) * 256 + u32::from(sub)
}
