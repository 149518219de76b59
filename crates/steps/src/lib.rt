//! What a tick, a slot and a received frame change in the parts of a head: 01, "States" and "The waiting
//! line". A step takes the parts that it needs and gives back those that it changes; the call then stores them
//! in the head, once. Where a call can go several ways, its first step answers the way. The parts stand by themselves among the parameters, not
//! in a struct: 01 wants calls that hand the parts to a step by value.

#![tactic(auto)]

ghost use Rattle.steps.specs.Passes.{Laws};

pub mod hear;
pub mod slot;
pub mod tick;

// This function does nothing. It ensures the statements of the crate, so the crate is proved only if they are.
fn statements()
    ensures { Laws }
{}
