//! What the head's calls mean, and the promises about every sequence of calls. Definitions and theorems, no code.

#![tactic(auto)]

ghost use Rattle.promises.specs.Demand1.{Demand1};
ghost use Rattle.promises.specs.Demand2.{Demand2};
ghost use Rattle.promises.specs.Demand3.{Demand3};

// This function does nothing. It ensures the three demands, so the crate is proved only if they are.
fn demands()
    ensures { Demand1 × Demand2 × Demand3 }
{}
