//! Tests for the NMT state that a head is in: 01, "States".

#![tactic(auto)]

ghost use Rattle.std.specs.Prelude.{◌≡◌, eqb};
ghost use Rattle.promises.specs.States.{initialising_code, code, CommandedState, live};

use parts::Nmt;

pub fn is_initialising(state: Nmt) -> bool
    ensures { result ≡ eqb state.code initialising_code }
{
    state == Nmt::INITIALISING
}

pub fn is_operational(state: Nmt) -> bool
    ensures { result ≡ eqb state.code (code CommandedState.operational) }
{
    state == Nmt::OPERATIONAL
}

// Pre-operational or Operational.
pub fn is_live(state: Nmt) -> bool
    ensures { result ≡ live state }
{
    (state == Nmt::PRE_OPERATIONAL) | (state == Nmt::OPERATIONAL)
}
