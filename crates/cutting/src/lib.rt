// Cutting changes no verdict: a line holds at the same stages before and after a cut or a join, and minute by minute.
// Theory only: each function states a theorem by its contract. Rests on the refinement of timed graphs in `tctl`.

#![tactic(auto)]

ghost use Rattle.cutting.specs.Theorems.{RefinedAlike, MinuteRefines, CutRefines, JoinRefines};
ghost use Rattle.cutting.specs.Theorems.{SameVerdicts, EditsTidy};

pub fn refined_alike()
    ensures { RefinedAlike }
{}

pub fn minute_refines()
    ensures { MinuteRefines }
{}

pub fn cut_refines()
    ensures { CutRefines }
{}

pub fn join_refines()
    ensures { JoinRefines }
{}

pub fn same_verdicts()
    ensures { SameVerdicts }
{}

pub fn edits_tidy()
    ensures { EditsTidy }
{}
