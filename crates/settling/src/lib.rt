//! Which kinds join the waiting line: those that are due and may join. 01, "The waiting line".

#![tactic(auto)]

ghost use Rattle.std.specs.Prelude.{◌≡◌};
ghost use Rattle.settling.specs.Joined.{joined_by};

use emergency::Telling;
use entries::Communication;
use waiting::{Flags, Line};

// The kinds that are due join, if they may. One line for each kind, in the order of the kind numbers: each asks its own question.
pub fn joined(line: Line, telling: Telling, settings: Communication, due: Flags) -> Line
    ensures { result ≡ joined_by line telling.state settings telling.inhibit_ticks telling.good telling.announced due }
{
    let comes = [
        due[0] & emergency::may_wait(telling, settings.emergency),
        due[1] & states::is_live(telling.state),
        due[2] & heartbeat::may_wait(telling.state, settings.heartbeat),
        due[3] & tpdo::may_join(telling.state, settings.pdo1.identifier, telling.good),
        due[4] & tpdo::may_join(telling.state, settings.pdo2.identifier, telling.good),
    ];
    waiting::join_those(line, comes)
}
