//! The head for a host that keeps it in its own memory and lends it for each
//! call; crate `lent_c` exports these functions to C and Rust. 01, "The head and its neighbours".
//! Each call passes parts of the head to a step by value and stores the parts that come back.

#![tactic(auto)]

ghost use Rattle.std.specs.Prelude.{◌≡◌};
ghost use Rattle.parts.specs.declared.Sensor.TheVariants.{Missing, Raw};
ghost use Rattle.promises.specs.Valid.{Valid};
ghost use Rattle.promises.specs.Calls.{answered};
ghost use Rattle.promises.specs.Promised.{PowersUp, Receives, Ticks, Samples, Slots};
ghost use Rattle.lent.specs.Questions.{state_code, is_good, position_of, any_waits, goes_if_missing};
ghost use Rattle.lent.specs.Steps.{sent_as};

use can::Received;
use emergency::Telling;
use head::{obeying, sending};
use parts::{Head, Setup};
use steps::slot::Outgoing;
use steps::{hear, slot, tick};

mod question;

// A position, if it is known. Otherwise the number is 0 and means nothing. A flag and a value, not an Option, for C.
#[repr(C)]
#[derive(Clone, Copy)]
pub struct Located {
    pub known: bool,
    pub position: u32,
}

// The memory may hold anything before: it is not read. A refused power-up leaves a head too, of node 1 with identity numbers 0 and names "?".
pub fn haybleater_power_up(head: &mut Head, setup: Setup) -> u8
    ensures { PowersUp setup.node setup.identity (answered result head.new) }
{
    let powered = head::powered(setup);
    *head = powered;
    can::number_in(head::checked(setup))
}

pub fn haybleater_receive(head: &mut Head, frame: Received) -> u8
    requires { Valid head.old }
    ensures { Receives head.old frame (answered result head.new) }
{
    let heard = hear::hear(
        head.core.nmt,
        head.core.device,
        head.transfer,
        head.line,
        frame,
    );
    match heard {
        Ok(heard) => {
            obeying::obey(head, heard);
            can::NO_REFUSAL
        }
        Err(refusal) => refusal.number(),
    }
}

pub fn haybleater_tick(head: &mut Head)
    requires { Valid head.old }
    ensures { Ticks head.old head.new }
{
    let ticked = tick::tick(
        Telling::of(&head.core),
        head.core.device.settings.communication,
        head.core.timers,
    );
    head.core.timers = ticked.timers;
    if let Some(due) = ticked.due {
        let left = settling::joined(
            head.line,
            Telling::of(&head.core),
            head.core.device.settings.communication,
            due,
        );
        head.line = left;
    }
}

pub fn haybleater_sample(head: &mut Head, raw: u32) -> u8
    requires { Valid head.old }
    ensures { Samples head.old (Raw raw) (answered result head.new) }
{
    let sampled = samples::raw(
        Telling::of(&head.core),
        head.core.device.settings.communication.emergency,
        head.line,
        raw,
    );
    match sampled {
        Ok(left) => {
            head.core.device.reading = left.reading;
            let line = left.line;
            head.line = line;
            can::NO_REFUSAL
        }
        Err(refusal) => refusal.number(),
    }
}

pub fn haybleater_missing(head: &mut Head)
    requires { Valid head.old }
    ensures { Samples head.old Missing (answered 0 head.new) }
{
    let left = samples::missing(
        Telling::of(&head.core),
        head.core.device.settings.communication,
        head.core.device.errors,
        head.line,
    );
    head.core.device.reading = left.reading;
    head.core.device.errors = left.errors;
    let line = left.line;
    head.line = line;
}

pub fn haybleater_slot(head: &mut Head) -> Outgoing
    requires { Valid head.old }
    ensures { Slots head.old (sent_as result head.new) }
{
    let slotted = slot::slot(
        head.core.device.node,
        head.core.nmt,
        head.core.device.settings,
        head.core.device.reading,
        head.core.reply,
        head.core.fixed,
        head.line,
    );
    let Some(slotted) = slotted else {
        return Outgoing::NONE;
    };
    sending::send(head, slotted.way);
    Outgoing {
        waited: true,
        frame: slotted.frame,
    }
}

pub fn haybleater_state(head: &Head) -> u8
    ensures { result ≡ state_code head.now }
{
    question::state(*head)
}

pub fn haybleater_good(head: &Head) -> bool
    ensures { result ≡ is_good head.now }
{
    question::good(*head)
}

pub fn haybleater_position(head: &Head) -> Located
    requires { Valid head.now }
    ensures { result ≡ position_of head.now }
{
    question::position(*head)
}

pub fn haybleater_goes_if_missing(head: &Head) -> bool
    ensures { result ≡ goes_if_missing head.now }
{
    question::goes_if_missing(*head)
}

pub fn haybleater_waits(head: &Head) -> bool
    ensures { result ≡ any_waits head.now }
{
    question::waits(*head)
}
