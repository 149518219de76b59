//! Example runs of node 1, by calls from power-up. They meet the conditions of the promises, and show what is then sent. No code.

#![tactic(auto)]

ghost use Rattle.runs.specs.Busy.{Busy};
ghost use Rattle.runs.specs.Codes.{CodesMet};
ghost use Rattle.runs.specs.Effects.{MetWhenReady};
ghost use Rattle.runs.specs.ErrorList.{Losing};
ghost use Rattle.runs.specs.FullLine.{FullLine};
ghost use Rattle.runs.specs.Joining.{Joining};
ghost use Rattle.runs.specs.Names.{Naming};
ghost use Rattle.runs.specs.Readings.{Positioning};
ghost use Rattle.runs.specs.Resets.{MetByLoad, MetBySave, Restoring};
ghost use Rattle.runs.specs.Rounding.{Rounding};
ghost use Rattle.runs.specs.Service.{Serving};
ghost use Rattle.runs.specs.Starts.{StartsMet};
ghost use Rattle.runs.specs.SyncFrames.{FixedAtSync};

// This function does nothing. It ensures the statements of the crate, so the crate is proved only if they are.
fn statements()
    ensures { FullLine × Busy × Joining × CodesMet × Serving × MetWhenReady × Positioning × Losing × MetBySave × MetByLoad
        × Restoring × StartsMet × Naming × FixedAtSync × Rounding }
{}
