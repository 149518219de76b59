//! The position for a raw count, and the offset that a preset sets: 01, "Position".

#![tactic(auto)]

ghost use Rattle.std.specs.Prelude.{◌≡◌, ◌<◌, ◌≤◌, pos, ◌+ℤ◌, ◌-ℤ◌, nat_abs};
ghost use Rattle.position.specs.Position.{bit, scaling_bit, direction_bit, measuring_steps, scaled_count, directed, modℤ, position, preset_to};
ghost use Rattle.position.specs.Profile.{full_range, ValidProfile};
ghost use Rattle.position.specs.Laws.{Laws};
ghost use Rattle.position.specs.Worked.{Worked};

/// The profile part of the settings: 6000h, 6002h, 6003h, 6005-1 and 6509h. `ValidProfile` is no invariant of it, as `Valid` is none of a head.
#[repr(C)]
#[derive(Clone, Copy)]
pub struct Profile {
    pub operating: u32,
    pub range: u32,
    pub preset: u32,
    pub step: u32,
    pub offset: i32,
}

// 6002h with scaling off, and when scaling is switched on.
pub const FULL_RANGE: u32 = 1_048_576;

pub const SCALED_RANGE: u32 = 1_000_000;

// 6000h: bits 2 and 3.
const SCALING: u32 = 4;

const DIRECTION: u32 = 8;

const RAW_STEP_NANOMETRES: u64 = 5000;

pub fn scaling(operating: u32) -> bool
    ensures { result ≡ bit scaling_bit operating }
{
    operating / SCALING % 2 == 1
}

pub fn inverted(operating: u32) -> bool
    ensures { result ≡ bit direction_bit operating }
{
    operating / DIRECTION % 2 == 1
}

pub fn directed_of(profile: Profile, raw: u32) -> u32
    requires { ValidProfile profile }
    ensures { result ≡ directed profile raw }
{
    let range = profile.range;
    let count = (scaled_count(profile, raw) % range as u64) as u32;
    if inverted(profile.operating) {
        return range - 1 - count;
    }
    count
}

pub fn position_of(profile: Profile, raw: u32) -> u32
    requires { ValidProfile profile }
    ensures { result ≡ position profile raw }
{
    moved(directed_of(profile, raw), profile.offset, profile.range)
}

/// An accepted write of 6003h.
pub fn preset_to(profile: Profile, raw: u32, preset: u32) -> Profile
    requires { (ValidProfile profile) × (preset < profile.range) }
    ensures { result ≡ preset_to profile raw preset }
{
    Profile {
        operating: profile.operating,
        range: profile.range,
        preset: preset,
        step: profile.step,
        offset: offset_of(preset, directed_of(profile, raw)),
    }
}

fn scaled_count(profile: Profile, raw: u32) -> u64
    requires { ValidProfile profile }
    ensures { result ≡ scaled_count profile raw }
{
    if scaling(profile.operating) {
        return measuring_steps(raw, profile.step);
    }
    raw as u64
}

// Half a step is added, so that the division rounds to the nearest. Half of an odd step is rounded down: that changes no count.
fn measuring_steps(raw: u32, step: u32) -> u64
    requires { 0 < step }
    ensures { result ≡ measuring_steps raw step }
{
    (raw as u64 * RAW_STEP_NANOMETRES + step as u64 / 2) / step as u64
}

fn moved(directed: u32, offset: i32, range: u32) -> u32
    requires { (range ≤ full_range) × (directed < range) × (nat_abs offset < range) }
    ensures { result ≡ modℤ (pos directed +ℤ offset) range }
{
    if 0 <= offset {
        return (directed + offset as u32) % range;
    }
    let back = (-offset) as u32;
    (directed + (range - back)) % range
}

fn offset_of(preset: u32, directed: u32) -> i32
    requires { (preset < full_range) × (directed < full_range) }
    ensures { result ≡ pos preset -ℤ pos directed }
{
    preset as i32 - directed as i32
}

// This function does nothing. It ensures the statements of the crate, so the crate is proved only if they are.
fn statements()
    ensures { Laws × Worked }
{}
