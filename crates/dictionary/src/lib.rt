//! The object dictionary: what each entry reads, which values it accepts, and what a write does (01, "Entries"):
//! definitions and laws. Its code is the abort codes; crates above have the rest.

#![tactic(auto)]

ghost use Rattle.dictionary.specs.AcceptedLaws.{AcceptedLaws};
ghost use Rattle.dictionary.specs.ValidLaws.{ValidLaws};
ghost use Rattle.dictionary.specs.WriteLaws.{WriteLaws};
ghost use Rattle.dictionary.specs.ReadLaws.{ReadLaws};
ghost use Rattle.dictionary.specs.Laws.{Laws};
ghost use Rattle.dictionary.specs.Effects.{EffectLaws};
ghost use Rattle.dictionary.specs.Worked.{Worked};

pub mod abort;

// This function does nothing. It ensures the statements of the crate, so the crate is proved only if they are.
fn statements()
    ensures { AcceptedLaws × ValidLaws × WriteLaws × ReadLaws × Laws × EffectLaws × Worked }
{}
