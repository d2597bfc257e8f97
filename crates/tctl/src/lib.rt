// The theory of timed graphs: runs, rules, when a rule holds, a checker that computes, and refinement.
// Pure: each function states a theorem and its proof is the function's only content. Rests on nothing.

#![tactic(auto)]

ghost use Rattle.tctl.specs.Theorems.{CheckerRight, RefinementKeeps, TestRight, CapCuts};
ghost use Rattle.tctl.specs.Theorems.{EndlessIsGreatest};

// The checker finds exactly the stages at which a rule holds.
pub fn checker_right()
    ensures { CheckerRight }
{}

// A refinement keeps each rule at each old stage.
pub fn refinement_keeps()
    ensures { RefinementKeeps }
{}

// The test of a graph tells whether rules can be checked on it.
pub fn test_right()
    ensures { TestRight }
{}

// A tally whose sums stop at a cap has the same entries, cut at the cap.
pub fn cap_cuts()
    ensures { CapCuts }
{}

// What is left of a set after as many turns as there are stages is its greatest part that an endless walk can keep to.
pub fn endless_is_greatest()
    ensures { EndlessIsGreatest }
{}
