//! The contract of each public call allows one outcome: 01, "Strength of the promises". Theorems, no code.

#![tactic(auto)]

ghost use Rattle.outcomes.specs.Asked.{Asked, LentAsked};
ghost use Rattle.outcomes.specs.ByValue.{ByValue};
ghost use Rattle.outcomes.specs.Lent.{Lent};
ghost use Rattle.outcomes.specs.Outcomes.{Outcomes, LentOutcomes};
ghost use Rattle.outcomes.specs.Strong.{Strong};
ghost use Rattle.outcomes.specs.Talks.{Talks};
ghost use Rattle.outcomes.specs.Told.{ToldRightly};

// This function does nothing. It ensures the statements of the crate, so the crate is proved only if they are.
fn statements()
    ensures { Outcomes × LentOutcomes × Asked × LentAsked × ByValue × Lent × ToldRightly × Talks × Strong }
{}
