//! The exports of the archive that C and Rust hosts link: each calls the function of `lent` that has its name, and promises what that promises.

#![tactic(auto)]

ghost use Rattle.std.specs.Prelude.{◌≡◌};
ghost use Rattle.parts.specs.declared.Sensor.TheVariants.{Missing, Raw};
ghost use Rattle.promises.specs.Valid.{Valid};
ghost use Rattle.promises.specs.Calls.{answered};
ghost use Rattle.promises.specs.Promised.{PowersUp, Receives, Ticks, Samples, Slots};
ghost use Rattle.lent.specs.Questions.{state_code, is_good, position_of, any_waits, goes_if_missing};
ghost use Rattle.lent.specs.Steps.{sent_as};

use can::Received;
use lent::Located;
use parts::{Head, Setup};
use steps::slot::Outgoing;

mod outcome;

// The memory may hold anything before: it is not read. A refused power-up leaves a head too, of node 1 with identity numbers 0 and names "?".
#[unsafe(no_mangle)]
pub extern "C" fn haybleater_power_up(head: &mut Head, setup: Setup) -> u8
    ensures { PowersUp setup.node setup.identity (answered result head.new) }
{
    lent::haybleater_power_up(head, setup)
}

#[unsafe(no_mangle)]
pub extern "C" fn haybleater_receive(head: &mut Head, frame: Received) -> u8
    requires { Valid head.old }
    ensures { Receives head.old frame (answered result head.new) }
{
    lent::haybleater_receive(head, frame)
}

#[unsafe(no_mangle)]
pub extern "C" fn haybleater_tick(head: &mut Head)
    requires { Valid head.old }
    ensures { Ticks head.old head.new }
{
    lent::haybleater_tick(head);
}

#[unsafe(no_mangle)]
pub extern "C" fn haybleater_sample(head: &mut Head, raw: u32) -> u8
    requires { Valid head.old }
    ensures { Samples head.old (Raw raw) (answered result head.new) }
{
    lent::haybleater_sample(head, raw)
}

#[unsafe(no_mangle)]
pub extern "C" fn haybleater_missing(head: &mut Head)
    requires { Valid head.old }
    ensures { Samples head.old Missing (answered 0 head.new) }
{
    lent::haybleater_missing(head);
}

#[unsafe(no_mangle)]
pub extern "C" fn haybleater_slot(head: &mut Head) -> Outgoing
    requires { Valid head.old }
    ensures { Slots head.old (sent_as result head.new) }
{
    lent::haybleater_slot(head)
}

#[unsafe(no_mangle)]
pub extern "C" fn haybleater_state(head: &Head) -> u8
    ensures { result ≡ state_code head.now }
{
    lent::haybleater_state(head)
}

#[unsafe(no_mangle)]
pub extern "C" fn haybleater_good(head: &Head) -> bool
    ensures { result ≡ is_good head.now }
{
    lent::haybleater_good(head)
}

#[unsafe(no_mangle)]
pub extern "C" fn haybleater_position(head: &Head) -> Located
    requires { Valid head.now }
    ensures { result ≡ position_of head.now }
{
    lent::haybleater_position(head)
}

#[unsafe(no_mangle)]
pub extern "C" fn haybleater_goes_if_missing(head: &Head) -> bool
    ensures { result ≡ goes_if_missing head.now }
{
    lent::haybleater_goes_if_missing(head)
}

#[unsafe(no_mangle)]
pub extern "C" fn haybleater_waits(head: &Head) -> bool
    ensures { result ≡ any_waits head.now }
{
    lent::haybleater_waits(head)
}
