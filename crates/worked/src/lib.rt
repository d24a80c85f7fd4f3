//! The worked examples of the rules.
#![tactic(auto)]

ghost use Rattle.worked.specs.Worked.{Worked};

/// The rules answer every worked example as it is written.
pub fn worked_examples_stand()
    ensures { Worked }
{}
