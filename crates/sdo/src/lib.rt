//! The SDO server: a request's eight bytes, the reply due, what the write does (01, "Service requests"), and the
//! segments in which a name is read (change request 1/13). Types, definitions and laws; crates above have the code.

#![tactic(auto)]

ghost use Rattle.std.specs.Prelude.{Bool, List, ℕ};
ghost use Rattle.names.specs.declared.Transfer.{Transfer};
ghost use Rattle.entries.specs.declared.Device.{Device};
ghost use Rattle.sdo.specs.Laws.{Laws};
ghost use Rattle.sdo.specs.UploadLaws.{UploadLaws};
ghost use Rattle.sdo.specs.Worked.{Worked};

pub mod reply;
pub mod request;

// This function does nothing. It ensures the statements of the crate, so the crate is proved only if they are.
fn statements()
    ensures { ((d : Device) (o : Bool) (f : List ℕ) → Laws d o f)
        × ((d : Device) (o : Bool) (t : Transfer) (f : List ℕ) → UploadLaws d o t f)
        × Worked }
{}
