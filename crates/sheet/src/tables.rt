// The tables of the three tallies, four entries a stage.
ghost use Rattle.std.specs.Prelude.{◌≤◌};
ghost use Rattle.program.specs.Meaning.{most_stages};
ghost use Rattle.sheet.specs.Tables.{HaveRoom, AreSpent, SameSlices};

use tally::rows::clear;
use tally::{Longest, Reach, Shortest};

#[derive(Drop)]
pub struct Tables<'a> {
    pub reached: &'a mut [Reach],
    pub shortest: &'a mut [Shortest],
    pub longest: &'a mut [Longest],
}

impl Tables<'_> {
    // Makes the entries of n stages none.
    pub(crate) fn clear(&mut self, n: usize)
        requires few { n ≤ most_stages }
        requires room { HaveRoom n self.old }
        ensures spent { AreSpent n self.old self.new }
        ensures slices { SameSlices self.old self.new }
    {
        clear(0, 4 * n, self.reached);
        clear(0, 4 * n, self.shortest);
        clear(0, 4 * n, self.longest);
    }
}
