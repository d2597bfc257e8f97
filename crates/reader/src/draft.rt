// The lines of a rule while it is read, and how one is noted.
ghost use Rattle.std.specs.Prelude.{◌≡◌, ℕ, ◌-◌, ◌≤◌, [], length};

use rules::line::{Bound, Line};
use rules::rule::MOST_LINES;
use signs::LARGEST;

// The first 32 lines are kept. The count goes on to 33, which stands for all above 32, so that a text with more lines
// is read to its end; and a number that is too large is noted, wherever it stands. The table is that of a rule, which
// it becomes.
#[derive(Drop)]
pub struct Draft {
    pub lines: [Line; MOST_LINES],
    pub count: usize,
    pub large: bool,
    ghost full: { length lines ≡ 32 },
    ghost room: { count ≤ 33 },
}

impl Draft {
    ghost use Rattle.reader.specs.Drafts.{Drawn, Pushed};

    // No line yet.
    pub fn new() -> Draft
        ensures { Drawn result [] }
    {
        Draft {
            lines: [Line::One; MOST_LINES],
            count: 0,
            large: false,
        }
    }

    // Notes a line after the others, and gives its number, 32 where it is not kept.
    pub fn push(&mut self, line: Line) -> usize
        ensures pushed { Pushed self.old line self.new }
        ensures number { result ≡ self.new.count - 1 }
    {
        self.large |=
            matches!(line, Line::Until { bound: Bound::AtMost(n) | Bound::AtLeast(n), .. } if n > LARGEST);
        let number = self.count.min(MOST_LINES);
        if number < MOST_LINES {
            self.lines[number] = line;
        }
        self.count = number + 1;
        number
    }
}
