//! What each command of the session does to the head, and what it prints: 01, "Worked numbers", "Session program".

#![tactic(auto)]

ghost use Rattle.std.specs.Prelude.{◌≡◌};
ghost use Rattle.promises.specs.Calls.{receive as receives, sample as samples};
ghost use Rattle.promises.specs.ByValue.{answer_in};
ghost use Rattle.promises.specs.Valid.{Valid};
ghost use Rattle.parts.specs.declared.Sensor.TheVariants.{Raw as raw};
ghost use Rattle.transcript.specs.Commands.{frame_in, ticks, told as tells, shown as shows, refused, silent, called, obeyed};
ghost use Rattle.transcript.specs.Bytes.{reply_of};

use can::{Bytes, Received};
use parts::{Answer, Head, Sensor, Sent};
use text::Command;
use transcript::Reply;

// A line not of its form: refused by the session alone, so none of `can::Refusal`.
const NOT_OF_ITS_FORM: u8 = 9;

// Above every sample that the head takes, and the highest number that its call can be given.
const HIGHEST: u32 = 0xFFFF_FFFF;

pub fn obey(head: Head, said: Option<Command>) -> Reply
    requires { Valid head }
    ensures { result ≡ reply_of (obeyed head said) }
{
    let Some(command) = said else {
        return refuse(head, NOT_OF_ITS_FORM);
    };
    match command {
        Command::Frame {
            identifier,
            length,
            bytes,
        } => receive(head, identifier, length, bytes),
        Command::Ticks(n) => quiet(tick(head, n)),
        Command::Sample(raw) => sample(head, raw),
        Command::Missing => told(head::sample(head, Sensor::Missing)),
        Command::Slot => shown(head::slot(head)),
    }
}

fn receive(head: Head, identifier: u32, length: u8, bytes: Bytes) -> Reply
    requires { Valid head }
    ensures { result ≡ reply_of (tells (called head (receives (frame_in identifier length bytes)))) }
{
    let frame = Received {
        identifier,
        extended: false,
        remote: false,
        length,
        bytes,
    };
    told(head::receive(head, frame))
}

fn tick(head: Head, n: u16) -> Head
    requires { Valid head }
    ensures { result ≡ ticks n head }
{
    let mut next = head;
    for _ in 0..n {
        next = head::tick(next);
    }
    next
}

// A number that does not fit 32 bits is refused like the highest number that does.
fn sample(head: Head, number: u64) -> Reply
    requires { Valid head }
    ensures { result ≡ reply_of (tells (called head (samples (raw number)))) }
{
    let raw = u32::try_from(number).unwrap_or(HIGHEST);
    told(head::sample(head, Sensor::Raw(raw)))
}

// A refusal prints its number; without a refusal nothing is printed.
fn told(answer: Answer) -> Reply
    ensures { result ≡ reply_of (tells answer) }
{
    let head = answer.head;
    if answer.refusal == can::NO_REFUSAL {
        return quiet(head);
    }
    refuse(head, answer.refusal)
}

fn refuse(head: Head, number: u8) -> Reply
    ensures { result ≡ reply_of (refused number head) }
{
    Reply {
        head,
        text: printing::refusal(number),
    }
}

fn quiet(head: Head) -> Reply
    ensures { result ≡ reply_of (silent head) }
{
    Reply {
        head,
        text: lines::empty(),
    }
}

// The frame that a slot sends, or `-`.
fn shown(sent: Sent) -> Reply
    ensures { result ≡ reply_of (shows (answer_in sent)) }
{
    let head = sent.head;
    let text = match sent.frame {
        Some(frame) => printing::frame(frame),
        None => printing::none(),
    };
    Reply { head, text }
}
