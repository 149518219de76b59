//! The input of a session as its bytes arrive (a byte, a chunk, the end), and what it prints: 01, "Worked numbers", "Session program".

#![tactic(auto)]

ghost use Rattle.std.specs.Prelude.{◌+◌, ◌*◌, ◌≤◌, length};
ghost use Rattle.text.specs.Lines.{longest, held};
ghost use Rattle.promises.specs.Valid.{Valid};
ghost use Rattle.transcript.specs.Bytes.{Put};
ghost use Rattle.transcript.specs.Promised.{Starts, Answers, Feeds, Chunks, Closes};

use entries::Identity;
use parts::{Head, Setup};
use text::Line;
use transcript::{Done, Fed, Reply, Session};

// Node 1.
const NODE: u8 = 1;

// What ends a line.
const END: u8 = b'\n';

pub fn start() -> Session
    ensures { Starts result }
{
    let up = head::power_up(Setup {
        node: NODE,
        identity: Identity {
            vendor: 1,
            product: 2,
            revision: 3,
            serial: 4,
            name: names::short(b'H', b'E', b'A', b'D', 4),
            hardware: names::short(b'1', 0, 0, 0, 1),
            software: names::short(b'1', 0, 0, 0, 1),
        },
    });
    let head = up.head;
    Session {
        head,
        line: lines::empty(),
    }
}

// A whole line.
pub fn answer(head: Head, line: Line) -> Reply
    requires { Valid head }
    ensures { Answers head line result }
{
    commands::obey(head, parsing::parse_line(line))
}

// One byte of input.
pub fn feed(session: Session, byte: u8) -> Fed
    requires { Valid session.head }
    ensures { Feeds session byte result }
{
    let head = session.head;
    let line = session.line;
    if byte == END {
        let reply = answer(head, line);
        let next = reply.head;
        let text = reply.text;
        return Fed {
            session: Session {
                head: next,
                line: lines::empty(),
            },
            text,
        };
    }
    Fed {
        session: Session {
            head,
            line: lines::push(line, byte),
        },
        text: lines::empty(),
    }
}

// A chunk of input; what it prints is written to the start of `out`. A line prints at most 64 bytes, so 64 for each byte of input are enough.
pub fn chunk(session: Session, input: &[u8], out: &mut [u8]) -> Done
    requires valid { Valid session.head }
    requires input_in_bounds { longest * length input.now ≤ length out.old }
    ensures { Chunks session input.now out.old result out.new }
{
    let mut next = session;
    let mut len: usize = 0;
    for byte in input {
        let fed = feed(next, *byte);
        let text = fed.text;
        len = put(out, len, text);
        next = fed.session;
    }
    Done { session: next, len }
}

// Writes a text after the first `at` bytes of `out`. The answer is where it ends.
fn put(out: &mut [u8], at: usize, text: Line) -> usize
    requires { at + longest ≤ length out.old }
    ensures { Put out.old at (held text) out.new result }
{
    let count = lines::kept(text);
    let end = at + count;
    out[at..end].copy_from_slice(&text.bytes[..count]);
    end
}

// The end of the input ends a last line; what that prints.
pub fn close(session: Session) -> Line
    requires { Valid session.head }
    ensures { Closes session result }
{
    let head = session.head;
    let line = session.line;
    if line.len == 0 {
        return lines::empty();
    }
    let reply = answer(head, line);
    reply.text
}
