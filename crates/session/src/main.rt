//! The session program: standard input to standard output; a read or a write that fails is reported on standard error.

#![tactic(auto)]

ghost use Rattle.std.specs.Prelude.{◌≤◌, length, IfSome};
ghost use Rattle.promises.specs.Valid.{Valid};

use std::fmt::InlineText;
use std::io;
use std::io::{ErrorKind, Read, Write};
use transcript::Session;

// The most that is read at once.
const CHUNK: usize = 4_096;

// The most that 4,096 bytes of input print: 64 for each.
const ROOM: usize = 262_144;

// More than the text of an error takes.
const LONGEST_ERROR: usize = 128;

// Reads once, and prints what came of it before it waits again. The answer is the session to go on with, if there is more to read.
fn turn(rt: &HostRuntime, session: Session, out: &mut [u8]) -> Option<Session>
    requires valid { Valid session.head }
    requires in_bounds { 262144 ≤ length out.old }
    ensures { IfSome result (λ next. Valid next.head) }
{
    let mut input = [0u8; CHUNK];
    match rt.stdin().read(&mut input) {
        Ok(0) => {
            finish(rt, session);
            None
        }
        Ok(count) => {
            let done = feeding::chunk(session, &input[..count], out);
            print(rt, &out[..done.len]).then_some(done.session)
        }
        Err(error) => {
            report(rt, "session: cannot read", error);
            None
        }
    }
}

// The end of the input ends a last line. A read that failed is no end: what came of that line is dropped.
fn finish(rt: &HostRuntime, session: Session)
    requires { Valid session.head }
{
    let text = feeding::close(session);
    let count = lines::kept(text);
    print(rt, &text.bytes[..count]);
}

// Answers whether all was written. What was not is reported.
fn print(rt: &HostRuntime, bytes: &[u8]) -> bool {
    match rt.stdout().write_all(bytes) {
        Ok(()) => true,
        Err(error) => {
            report(rt, "session: cannot write", error);
            false
        }
    }
}

// What no reader takes is no failure to speak of. Nothing is left to be done if standard error cannot be written either.
fn report(rt: &HostRuntime, message: &str, error: io::Error) {
    if matches!(error.kind(), ErrorKind::BrokenPipe) {
        return;
    }
    let text = InlineText::<LONGEST_ERROR>::of(error);
    let said = in_words(text.as_str());
    let _ = eprintln!(rt; "{message}: {said}");
}

// The text of an error without the number that std adds.
fn in_words(text: &str) -> &str {
    match text.split_once(" (os error") {
        Some((words, _)) => words,
        None => text,
    }
}

fn main(rt: HostRuntime) {
    let mut out = [0u8; ROOM];
    let mut session = feeding::start();
    // A proved loop ends, so this one has a last turn.
    for _ in 0..u64::MAX {
        let Some(next) = turn(&rt, session, &mut out) else {
            break;
        };
        session = next;
    }
}
