//! The head by value: power-up, frame received, tick, sample, slot. 01, "The head and its
//! neighbours". Each call passes parts of the head to a step and stores the parts that come back.

#![tactic(auto)]

ghost use Rattle.std.specs.Prelude.{◌≡◌, OnOk};
ghost use Rattle.promises.specs.States.{started as startedHead};
ghost use Rattle.parts.specs.declared.Sensor.TheVariants.{Missing, Raw};
ghost use Rattle.can.specs.Frame.{number_in};
ghost use Rattle.dictionary.specs.Valid.{FitsIdentity};
ghost use Rattle.promises.specs.Calls.{answered, no_identity, powered_up};
ghost use Rattle.promises.specs.ByValue.{answer_in};
ghost use Rattle.promises.specs.Valid.{Valid};
ghost use Rattle.promises.specs.Promised.{PowersUp, Receives, Ticks, Samples, Slots};

use can::{Received, Refusal};
use emergency::Telling;
use entries::{Device, Identity, Reading, Settings};
use names::Transfer;
use parts::{Answer, Core, Fixed, Head, Nmt, Sensor, Sent, Setup};

pub mod obeying;
pub mod sending;

// The refusal, and the head that power-up leaves.
pub fn power_up(setup: Setup) -> Answer
    ensures { PowersUp setup.node setup.identity result }
{
    Answer {
        refusal: can::number_in(checked(setup)),
        head: powered(setup),
    }
}

// A node number that is not 1..127 is refused first, then a name that does not have 1 to 32 bytes.
pub fn checked(setup: Setup) -> Result<(), Refusal>
    ensures value { number_in result ≡ (powered_up setup.node setup.identity).refusal }
    ensures fits_identity { OnOk result (FitsIdentity setup.identity) }
{
    let node = setup.node;
    let identity = setup.identity;
    if !((1 <= node) & (node <= 127)) {
        return Err(Refusal::BadNode);
    }
    if !(names::is_name(identity.name)
        & names::is_name(identity.hardware)
        & names::is_name(identity.software))
    {
        return Err(Refusal::BadName);
    }
    Ok(())
}

// Initialising, with factory settings, the reading missing. A refused power-up leaves a head of node 1 with identity numbers 0 and
// "?" for each name.
pub fn powered(setup: Setup) -> Head
    ensures { (result ≡ (powered_up setup.node setup.identity).head) × Valid result }
{
    let node = setup.node;
    let identity = setup.identity;
    match checked(setup) {
        Ok(()) => started(node, identity),
        Err(_) => refused(),
    }
}

fn refused() -> Head
    ensures { result ≡ startedHead 1 no_identity }
{
    started(
        1,
        Identity {
            vendor: 0,
            product: 0,
            revision: 0,
            serial: 0,
            name: names::unknown(),
            hardware: names::unknown(),
            software: names::unknown(),
        },
    )
}

fn started(node: u8, identity: Identity) -> Head
    ensures { result ≡ startedHead node identity }
{
    let line = waiting::none();
    Head {
        line,
        transfer: Transfer::NONE,
        core: Core {
            nmt: Nmt::INITIALISING,
            announced: true,
            timers: nmt::entry::at_rest(),
            reply: [0, 0, 0, 0, 0, 0, 0, 0],
            device: Device {
                node,
                identity,
                reading: Reading {
                    good: false,
                    raw: 0,
                },
                errors: 0,
                settings: Settings::factory(node),
                saved: Settings::factory(node),
            },
            fixed: Fixed { pdo1: 0, pdo2: 0 },
        },
    }
}

// A frame from the bus. Refused with 1 or 2; one that is not meant for the head changes nothing.
pub fn receive(head: Head, frame: Received) -> Answer
    requires { Valid head }
    ensures { Receives head frame result }
{
    let heard = steps::hear::hear(
        head.core.nmt,
        head.core.device,
        head.transfer,
        head.line,
        frame,
    );
    match heard {
        Ok(heard) => {
            let mut left = head;
            obeying::obey(&mut left, heard);
            Answer {
                refusal: can::NO_REFUSAL,
                head: left,
            }
        }
        Err(refusal) => Answer {
            refusal: refusal.number(),
            head,
        },
    }
}

// 1 ms has passed.
pub fn tick(head: Head) -> Head
    requires { Valid head }
    ensures { Ticks head result }
{
    let settings = head.core.device.settings.communication;
    let ticked = steps::tick::tick(Telling::of(&head.core), settings, head.core.timers);
    let mut left = head;
    left.core.timers = ticked.timers;
    if let Some(due) = ticked.due {
        left.line = settling::joined(left.line, Telling::of(&left.core), settings, due);
    }
    left
}

// A raw position, or "missing". A raw position above 1,048,575 is refused with 3.
pub fn sample(head: Head, sensor: Sensor) -> Answer
    requires { Valid head }
    ensures { Samples head sensor result }
{
    let Sensor::Raw(raw) = sensor else {
        return Answer {
            refusal: can::NO_REFUSAL,
            head: sample_missing(head),
        };
    };
    sample_raw(head, raw)
}

pub fn sample_missing(head: Head) -> Head
    requires { Valid head }
    ensures { Samples head Missing (answered 0 result) }
{
    let waiting = head.line;
    let left = samples::missing(
        Telling::of(&head.core),
        head.core.device.settings.communication,
        head.core.device.errors,
        waiting,
    );
    let reading = left.reading;
    let line = left.line;
    let mut device = head.core.device;
    device.reading = reading;
    device.errors = left.errors;
    let transfer = head.transfer;
    let mut core = head.core;
    core.device = device;
    Head {
        line,
        transfer,
        core,
    }
}

pub fn sample_raw(head: Head, raw: u32) -> Answer
    requires { Valid head }
    ensures { Samples head (Raw raw) result }
{
    let sampled = samples::raw(
        Telling::of(&head.core),
        head.core.device.settings.communication.emergency,
        head.line,
        raw,
    );
    match sampled {
        Ok(sampled) => {
            let reading = sampled.reading;
            let line = sampled.line;
            let mut left = head;
            left.core.device.reading = reading;
            left.line = line;
            Answer {
                refusal: can::NO_REFUSAL,
                head: left,
            }
        }
        Err(refusal) => Answer {
            refusal: refusal.number(),
            head,
        },
    }
}

// A frame can be sent: the answer is the first that waits, or none exactly if none waits.
pub fn slot(head: Head) -> Sent
    requires { Valid head }
    ensures { Slots head (answer_in result) }
{
    let slotted = steps::slot::slot(
        head.core.device.node,
        head.core.nmt,
        head.core.device.settings,
        head.core.device.reading,
        head.core.reply,
        head.core.fixed,
        head.line,
    );
    let Some(slotted) = slotted else {
        return Sent { frame: None, head };
    };
    let frame = slotted.frame;
    let mut left = head;
    sending::send(&mut left, slotted.way);
    Sent {
        frame: Some(frame),
        head: left,
    }
}
