// The worked cases: programs, rules as text, and what a check answers, each proved from the definitions. Rests on the
// check and all below it.

#![tactic(auto)]

ghost use Rattle.worked.specs.Cases.{WorkedCases};

// Every row of the table of worked cases is right.
pub fn worked_cases()
    ensures { WorkedCases }
{}
