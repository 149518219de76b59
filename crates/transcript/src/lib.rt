//! The session: what a line does to the head and prints, and the whole output for the whole
//! input. 01, "Worked numbers", "Session program". Types, definitions and laws, no code.

#![tactic(auto)]

ghost use Rattle.transcript.specs.Deeds.{Deeds};
ghost use Rattle.transcript.specs.Laws.{Laws};
ghost use Rattle.transcript.specs.Program.{Program};
ghost use Rattle.transcript.specs.Worked.{Worked};

use parts::Head;
use text::Line;

// The head that a line leaves, and what the line prints.
#[derive(Clone, Copy)]
pub struct Reply {
    pub head: Head,
    pub text: Line,
}

// A head, and what has arrived of a line.
#[derive(Clone, Copy)]
pub struct Session {
    pub head: Head,
    pub line: Line,
}

// The session after a byte, and what the byte prints.
#[derive(Clone, Copy)]
pub struct Fed {
    pub session: Session,
    pub text: Line,
}

// The session after a chunk of input, and how many bytes the chunk prints.
#[derive(Clone, Copy)]
pub struct Done {
    pub session: Session,
    pub len: usize,
}

// This function does nothing. It ensures the statements of the crate, so the crate is proved only if they are.
fn statements()
    ensures { Deeds × Laws × Program × Worked }
{}
