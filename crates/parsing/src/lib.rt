//! Parses a line of the session into a command: 01, "Worked numbers", "Session program".

#![tactic(auto)]

ghost use Rattle.std.specs.Prelude.{◌≡◌};
ghost use Rattle.text.specs.Grammar.{parsed, says_line};

use text::{Command, Line};

mod form;

// What a gathered line says. A line that is too long is not of its form, whatever its first bytes are.
pub fn parse_line(line: Line) -> Option<Command>
    ensures { result ≡ says_line line }
{
    if line.long {
        return None;
    }
    let len = lines::kept(line);
    let bytes = line.bytes;
    parse(&bytes[..len])
}

// What a line says; its end, 0Ah, is no part of it.
pub fn parse(line: &[u8]) -> Option<Command>
    ensures { result ≡ parsed line.now }
{
    match line {
        [b'F', b' ', fields @ ..] => form::frame(fields),
        [b'T', b' ', fields @ ..] => form::ticks(fields),
        [b'S', b' ', fields @ ..] => form::sample(fields),
        [b'?'] => Some(Command::Slot),
        _ => None,
    }
}
