// What is proved of the definitions alone: each theorem stands in the contract of a function that does nothing else.
#![tactic(auto)]

ghost use Rattle.theory.specs.Calls.{NamesByBytes};
ghost use Rattle.theory.specs.Sets.{SetsByAtoms};
ghost use Rattle.theory.specs.Worked.{Worked};

/// The tests on sets say what they are named after, atom by atom.
pub fn sets_stand()
    ensures { SetsByAtoms }
{}

/// A name is borne exactly when one of the names is the same list of bytes.
pub fn names_stand()
    ensures { NamesByBytes }
{}

/// The worked verdicts, computed from the definitions.
pub fn worked_verdicts_stand()
    ensures { Worked }
{}
