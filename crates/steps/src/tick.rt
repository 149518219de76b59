//! A tick: what it counts, and which kinds are then due.
ghost use Rattle.std.specs.Prelude.{◌≡◌};
ghost use Rattle.steps.specs.Tick.{ticked_of, due_by};

use emergency::Telling;
use entries::Communication;
use parts::{Clock, Timers};
use waiting::Flags;

// The timers, and which kinds are due; None if no kind can join.
#[derive(Clone, Copy)]
pub struct Ticked {
    pub timers: Timers,
    pub due: Option<Flags>,
}

// 1 ms has passed. In Initialising timers stand. At most ticks no kind is due and the reading is the one announced: the line stays.
pub fn tick(telling: Telling, settings: Communication, timers: Timers) -> Ticked
    ensures { result ≡ ticked_of telling.state settings timers telling.good telling.announced }
{
    if states::is_initialising(telling.state) {
        return Ticked { timers, due: None };
    }
    let operational = states::is_operational(telling.state);
    let differs = telling.good != telling.announced;
    let pdo1 = settings.pdo1;
    let pdo2 = settings.pdo2;
    let beat = heartbeat::ticked(settings.heartbeat, timers.heartbeat);
    let event1 = tpdo::ticked(operational, pdo1, timers.pdo1.ticks);
    let event2 = tpdo::ticked(operational, pdo2, timers.pdo2.ticks);
    Ticked {
        timers: Timers {
            inhibit: emergency::ticked(timers.inhibit),
            heartbeat: beat.count,
            pdo1: Clock {
                ticks: event1.count,
                syncs: timers.pdo1.syncs,
            },
            pdo2: Clock {
                ticks: event2.count,
                syncs: timers.pdo2.syncs,
            },
        },
        due: due(beat.ends, event1.ends, event2.ends, differs),
    }
}

// An emergency may join at every tick, if the reading is not the one announced.
fn due(beats: bool, shows1: bool, shows2: bool, differs: bool) -> Option<Flags>
    ensures { result ≡ due_by beats shows1 shows2 differs }
{
    if beats | shows1 | shows2 | differs {
        return Some([true, false, beats, shows1, shows2]);
    }
    None
}
