// A rule as the reader gives it and the check takes it: at most 32 lines, of which each may stand where it does.
ghost use Rattle.std.specs.Prelude.{◌≡◌, ◌≤◌, length, take};
ghost use Rattle.rules.specs.Lines.{WellFormed};
ghost use Rattle.rules.specs.Once.{well_formed_once};

use crate::line::Line;

// The most lines of a rule.
pub const MOST_LINES: usize = 32;

// The rule's lines are the first `count` of the table. A table of its own and a count, since a rule is plain data that
// may be copied, and an `ArrayVec` is not `Copy`.
#[derive(Clone, Copy, Debug)]
pub struct Rule {
    pub lines: [Line; MOST_LINES],
    pub count: usize,
    ghost full: { length lines ≡ 32 },
    ghost room: { count ≤ 32 },
    ghost formed: { WellFormed (take count lines) } by { well_formed_once (take count lines) },
}

impl Rule {
    pub fn lines(&self) -> &[Line]
        ensures value { result.now ≡ take self.now.count self.now.lines }
        ensures formed { WellFormed result.now }
        ensures few { length result.now ≤ 32 }
    {
        &self.lines[..self.count]
    }
}
