// Rules as lists of lines: what the reader gives and the check takes. Rests on the rule trees of `tctl`.

#![tactic(auto)]

ghost use Rattle.rules.specs.Postorder.{LinesStand, LinesTell};

pub mod line;
pub mod rule;

// The lines of a rule stand for its parts, the last one for the rule itself.
pub fn lines_stand()
    ensures { LinesStand }
{}

// Equal lines are those of one rule.
pub fn lines_tell()
    ensures { LinesTell }
{}
