//! The contract of each export allows one outcome: 01, "Strength of the promises". Theorems, no code.

ghost use Rattle.lent_c.specs.Exports.{Outcomes, Asked};

// This function does nothing. It ensures the statements of the crate, so the crate is proved only if they are.
fn statements()
    ensures { Outcomes × Asked }
{}
