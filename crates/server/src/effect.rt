//! What a request changes in the parts of a head: its reply waits, and a write has its effects.
ghost use Rattle.std.specs.Prelude.{◌≡◌};
ghost use Rattle.position.specs.Profile.{ValidProfile};
ghost use Rattle.dictionary.specs.Writes.{Fits};
ghost use Rattle.promises.specs.Timers.{timers_written};
ghost use Rattle.server.specs.Effects.{replied_by, written_by, emptied_by, kept_by, saved_by, scaled_by, rewritten_by, configured_by};

use can::Bytes;
use emergency::Telling;
use entries::table::{HEARTBEAT, SAVE, TPDO1_EVENT, TPDO2_EVENT};
use entries::{Communication, Settings};
use parts::Timers;
use position::Profile;
use waiting::{EMPTY, Line, SDO_REPLY};

// The reply waits, and nothing else changes: an emergency that may wait waits already. No part is altered, so this is no `Written`.
#[derive(Clone, Copy)]
pub struct Replied {
    pub reply: Bytes,
    pub line: Line,
}

pub fn reply(line: Line, reply: Bytes) -> Replied
    ensures { result ≡ replied_by line reply }
{
    Replied {
        reply,
        line: waiting::join(line, SDO_REPLY),
    }
}

// A write that is accepted: its reply, the name of what is written, and the value.
#[derive(Clone, Copy)]
pub struct Write {
    pub reply: Bytes,
    pub key: u32,
    pub value: u32,
}

// A part of the head as a write leaves it; its reply waits.
#[derive(Clone, Copy)]
pub struct Written<T> {
    pub part: T,
    pub reply: Bytes,
    pub line: Line,
}

fn replying<T: Copy>(part: T, line: Line, reply: Bytes) -> Written<T>
    ensures { result ≡ written_by part line reply }
{
    Written {
        part,
        reply,
        line: waiting::join(line, SDO_REPLY),
    }
}

// The count of the error list.
pub fn empty(line: Line, reply: Bytes) -> Written<u32>
    ensures { result ≡ emptied_by line reply }
{
    replying(0, line, reply)
}

// The saved set. The value of the write, a signature, does not matter any more.
pub fn save(node: u8, settings: Settings, line: Line, reply: Bytes, key: u32) -> Written<Settings>
    ensures { result ≡ saved_by node settings line reply key }
{
    replying(kept(node, settings, key), line, reply)
}

// "save" copies the settings to the saved set, "load" makes it factory.
fn kept(node: u8, settings: Settings, key: u32) -> Settings
    ensures { result ≡ kept_by node settings key }
{
    if key == SAVE {
        return settings;
    }
    Settings::factory(node)
}

pub fn scale(profile: Profile, raw: u32, line: Line, write: Write) -> Written<Profile>
    requires { (ValidProfile profile) × (Fits profile write.key write.value) }
    ensures { result ≡ scaled_by profile raw line write.reply write.key write.value }
{
    let after = writes::profile_after(profile, raw, write.key, write.value);
    replying(after, line, write.reply)
}

// A write of a communication setting leaves two parts, and takes kinds from the line too.
#[derive(Clone, Copy)]
pub struct Configured {
    pub communication: Communication,
    pub timers: Timers,
    pub reply: Bytes,
    pub line: Line,
}

pub fn configure(
    telling: Telling,
    before: Communication,
    timers: Timers,
    line: Line,
    write: Write,
) -> Configured
    ensures { result ≡ configured_by telling.state before timers telling.good telling.announced line write.reply write.key write.value }
{
    let after = writes::communication_after(before, write.key, write.value);
    let reply = write.reply;
    let telling = Telling {
        inhibit_ticks: timers.inhibit,
        ..telling
    };
    Configured {
        communication: after,
        timers: timers_written(write.key, before, after, timers),
        reply,
        line: rewritten(line, telling, after),
    }
}

fn timers_written(key: u32, before: Communication, after: Communication, timers: Timers) -> Timers
    ensures { result ≡ timers_written key before after timers }
{
    let before1 = before.pdo1;
    let after1 = after.pdo1;
    let clock1 = timers.pdo1;
    let before2 = before.pdo2;
    let after2 = after.pdo2;
    let clock2 = timers.pdo2;
    Timers {
        inhibit: timers.inhibit,
        heartbeat: counting::restarted(key == HEARTBEAT, timers.heartbeat),
        pdo1: tpdo::written(key == TPDO1_EVENT, before1, after1, clock1),
        pdo2: tpdo::written(key == TPDO2_EVENT, before2, after2, clock2),
    }
}

// The line under the new settings: kinds that may no longer wait go, the emergency may join, the reply joins.
fn rewritten(line: Line, telling: Telling, settings: Communication) -> Line
    ensures { result ≡ rewritten_by line telling.state settings telling.inhibit_ticks telling.good telling.announced }
{
    let pdo1 = settings.pdo1;
    let pdo2 = settings.pdo2;
    if (waiting::first(line) == EMPTY) & (telling.good == telling.announced) {
        return waiting::join(line, SDO_REPLY);
    }
    let alerts = emergency::may_wait(telling, settings.emergency);
    let left = waiting::withdraw_those(
        line,
        [
            !alerts,
            false,
            !heartbeat::may_wait(telling.state, settings.heartbeat),
            !tpdo::may_stay(telling.state, pdo1, telling.good),
            !tpdo::may_stay(telling.state, pdo2, telling.good),
        ],
    );
    waiting::join_those(left, [alerts, true, false, false, false])
}
