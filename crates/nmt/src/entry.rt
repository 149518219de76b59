//! Entering a state, and resetting the settings.
ghost use Rattle.std.specs.Prelude.{◌≡◌};
ghost use Rattle.promises.specs.States.{at_rest};
ghost use Rattle.promises.specs.WaitingLine.{flags_of};
ghost use Rattle.promises.specs.Acts.{entry_moments};
ghost use Rattle.nmt.specs.Entry.{staying_by, entered_by, restored_by, restarted_by};

use emergency::Telling;
use entries::{Communication, Settings};
use parts::{Nmt, Timers};
use waiting::{Flags, HEARTBEAT, Line, TPDO1, TPDO2};

#[derive(Clone, Copy)]
pub struct Entered {
    pub nmt: Nmt,
    pub timers: Timers,
    pub line: Line,
}

// The PDOs are counted from entry. Those that then join may do so in the state entered.
pub fn enter(
    telling: Telling,
    settings: Communication,
    timers: Timers,
    line: Line,
    state: Nmt,
) -> Entered
    ensures { result ≡ entered_by telling.state settings timers telling.good telling.announced line state }
{
    let entered = Telling {
        state,
        inhibit_ticks: timers.inhibit,
        ..telling
    };
    Entered {
        nmt: state,
        timers: Timers {
            inhibit: timers.inhibit,
            heartbeat: timers.heartbeat,
            pdo1: tpdo::uncounted(),
            pdo2: tpdo::uncounted(),
        },
        line: settling::joined(
            staying(line, telling.state, state),
            entered,
            settings,
            entry_due(settings, state),
        ),
    }
}

// Entering Stopped takes all but the heartbeat, leaving Operational takes both PDOs.
fn staying(line: Line, present: Nmt, state: Nmt) -> Line
    ensures { result ≡ staying_by line present state }
{
    if !states::is_live(state) {
        return waiting::join_if(waiting::none(), waiting::waits(line, HEARTBEAT), HEARTBEAT);
    }
    if states::is_operational(present) {
        return waiting::withdraw(waiting::withdraw(line, TPDO1), TPDO2);
    }
    line
}

fn entry_due(settings: Communication, state: Nmt) -> Flags
    ensures { result ≡ flags_of (entry_moments settings state) }
{
    let pdo1 = settings.pdo1;
    let pdo2 = settings.pdo2;
    let entry = states::is_operational(state);
    [
        true,
        false,
        false,
        entry & !tpdo::is_synchronous(pdo1),
        entry & !tpdo::is_synchronous(pdo2),
    ]
}

#[derive(Clone, Copy)]
pub struct Restarted {
    pub settings: Settings,
    pub nmt: Nmt,
    pub announced: bool,
    pub timers: Timers,
    pub line: Line,
}

// 81h sets all settings to the saved set; 82h only those below 2000h. Both enter Initialising and empty the waiting line.
pub fn restart(settings: Settings, saved: Settings, all: bool) -> Restarted
    ensures { result ≡ restarted_by settings saved all }
{
    Restarted {
        settings: restored(settings, saved, all),
        nmt: Nmt::INITIALISING,
        announced: true,
        timers: at_rest(),
        line: waiting::none(),
    }
}

fn restored(settings: Settings, saved: Settings, all: bool) -> Settings
    ensures { result ≡ restored_by settings saved all }
{
    if all {
        return saved;
    }
    let communication = saved.communication;
    let profile = settings.profile;
    Settings {
        communication,
        profile,
    }
}

// No inhibit time runs, and nothing is counted.
pub fn at_rest() -> Timers
    ensures { result ≡ at_rest }
{
    Timers {
        inhibit: 0,
        heartbeat: 0,
        pdo1: tpdo::uncounted(),
        pdo2: tpdo::uncounted(),
    }
}
