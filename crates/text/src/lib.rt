//! The text of the session program: what a line says, how a line is gathered byte by
//! byte, what is printed. 01, "Worked numbers". Types, definitions and laws, no code.

#![tactic(auto)]

ghost use Rattle.text.specs.Forms.{Forms};
ghost use Rattle.text.specs.Laws.{Laws};
ghost use Rattle.text.specs.Worked.{Worked};

use can::Bytes;

// Lines of at most 64 bytes.
pub const LONGEST: usize = 64;

// The first bytes of a line, `len` of them, and whether there were more. There is no heap, so they stand in an array.
// This crate has no code: the functions of a line are in crate `lines`.
#[derive(Clone, Copy)]
pub struct Line {
    pub bytes: [u8; LONGEST],
    pub len: usize,
    pub long: bool,
}

// What a line says, if it is of its form. Bytes that a frame does not use are 0.
#[derive(Clone, Copy)]
pub enum Command {
    Frame {
        identifier: u32,
        length: u8,
        bytes: Bytes,
    },
    Ticks(u16),
    Sample(u64),
    Missing,
    Slot,
}

// This function does nothing. It ensures the statements of the crate, so the crate is proved only if they are.
fn statements()
    ensures { Forms × Laws × Worked }
{}
