//! What a sample changes: the reading, the count of the error list, the waiting line. 01, "States" and "The waiting line".

#![tactic(auto)]

ghost use Rattle.std.specs.Prelude.{◌≡◌};
ghost use Rattle.parts.specs.declared.Sensor.TheVariants.{Raw};
ghost use Rattle.promises.specs.Calls.{bad_sample};
ghost use Rattle.samples.specs.Samples.{free, sampled_of, found_line, missed_of, lost_line, one_more_error};

use can::Refusal;
use emergency::Telling;
use entries::{Communication, Reading};
use waiting::{EMERGENCY, EMPTY, Line, TPDO1, TPDO2};

pub const HIGHEST_RAW: u32 = 1_048_575;

const MOST_ERRORS: u32 = 4;

#[derive(Clone, Copy)]
pub struct Sampled {
    pub reading: Reading,
    pub line: Line,
}

// A raw position; one above 1,048,575 is refused, and changes nothing.
pub fn raw(telling: Telling, emergency: u32, line: Line, raw: u32) -> Result<Sampled, Refusal>
    ensures { result ≡ sampled_of telling.state emergency telling.inhibit_ticks telling.good telling.announced line raw }
{
    if is_refused(raw) {
        return Err(Refusal::BadSample);
    }
    Ok(Sampled {
        reading: Reading { good: true, raw },
        line: found(telling, emergency, line),
    })
}

// The line once the reading is good. If it was good before, the line stays.
fn found(telling: Telling, emergency: u32, line: Line) -> Line
    ensures { result ≡ found_line telling.state emergency telling.inhibit_ticks telling.good telling.announced line }
{
    if telling.good {
        return line;
    }
    let alerts = is_free(telling, emergency);
    if telling.announced {
        return waiting::withdraw_if(line, alerts, EMERGENCY);
    }
    waiting::join_if(line, alerts, EMERGENCY)
}

// Whether an emergency may wait, if the reading differs from the one announced.
fn is_free(telling: Telling, emergency: u32) -> bool
    ensures { result ≡ free telling.state emergency telling.inhibit_ticks }
{
    let differs = Telling {
        good: false,
        announced: true,
        ..telling
    };
    emergency::may_wait(differs, emergency)
}

#[derive(Clone, Copy)]
pub struct Missed {
    pub reading: Reading,
    pub errors: u32,
    pub line: Line,
}

pub fn missing(telling: Telling, settings: Communication, errors: u32, line: Line) -> Missed
    ensures { result ≡ missed_of telling.state settings telling.inhibit_ticks telling.good errors telling.announced line }
{
    let reading = Reading {
        good: false,
        raw: 0,
    };
    if !telling.good {
        return Missed {
            reading,
            errors,
            line,
        };
    }
    Missed {
        reading,
        errors: errors_after(errors),
        line: lost(telling, settings, line),
    }
}

// The line once a good reading went missing. A frame of types 1 to 240 stays: its position was fixed at a SYNC.
fn lost(telling: Telling, settings: Communication, line: Line) -> Line
    ensures { result ≡ lost_line telling.state settings telling.inhibit_ticks telling.announced line }
{
    let announced = telling.announced;
    let pdo1 = settings.pdo1;
    let pdo2 = settings.pdo2;
    let alerts = is_free(telling, settings.emergency);
    if waiting::first(line) == EMPTY {
        return waiting::join_if(line, alerts & announced, EMERGENCY);
    }
    let left = waiting::withdraw_if(line, alerts & !announced, EMERGENCY);
    let left = waiting::withdraw_if(left, !tpdo::is_synchronous(pdo1), TPDO1);
    let left = waiting::withdraw_if(left, !tpdo::is_synchronous(pdo2), TPDO2);
    waiting::join_if(left, alerts & announced, EMERGENCY)
}

fn is_refused(raw: u32) -> bool
    ensures { result ≡ bad_sample (Raw raw) }
{
    HIGHEST_RAW < raw
}

// The error list's count once a good reading goes missing.
fn errors_after(errors: u32) -> u32
    ensures { result ≡ one_more_error errors }
{
    if errors < MOST_ERRORS {
        return errors + 1;
    }
    errors
}
