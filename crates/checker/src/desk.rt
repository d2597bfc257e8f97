// Memory for the checks of any program.
ghost use Rattle.std.specs.Prelude.{◌≡◌, ◌*◌, length};
ghost use Rattle.program.specs.Meaning.{most_stages};
ghost use Rattle.checker.specs.Outcomes.{Enough};
ghost use Rattle.checker.specs.Checks.{Check};
ghost use Rattle.checker.specs.Desks.{on_desk, blank_desk};

use crate::faults::CheckFault;
use crate::run::check;
use program::{MOST_STAGES, Program};
use sheet::tables::Tables;
use tally::{Longest, Reach, Shortest, Tally};

// The entries of a table: four a stage.
const ENTRIES: usize = 4 * MOST_STAGES;

// A sheet, and a table for each tally.
#[derive(Drop)]
pub struct Desk {
    pub sheet: [u32; MOST_STAGES],
    pub reached: [Reach; ENTRIES],
    pub shortest: [Shortest; ENTRIES],
    pub longest: [Longest; ENTRIES],
}

impl Desk {
    pub fn new() -> Desk
        ensures enough { Enough most_stages (on_desk result) }
        ensures blank { on_desk result ≡ blank_desk }
    {
        Desk {
            sheet: [0; MOST_STAGES],
            reached: [Reach::none(); ENTRIES],
            shortest: [Shortest::none(); ENTRIES],
            longest: [Longest::none(); ENTRIES],
        }
    }

    // Checks a rule with this memory.
    pub fn check<P: Program>(&mut self, program: &P, text: &[u8]) -> Result<usize, CheckFault>
        ensures does { Check (P.Program.meaning program.now) text.now
            (on_desk self.old) (on_desk self.new) result }
        ensures enough { Enough most_stages (on_desk self.old) }
    {
        let mut tables = Tables {
            reached: &mut self.reached,
            shortest: &mut self.shortest,
            longest: &mut self.longest,
        };
        check(program, text, &mut self.sheet, &mut tables)
    }
}
