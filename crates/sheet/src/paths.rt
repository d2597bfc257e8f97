// What a check goes along: stages, and any number of moves, which are chained where that pays.
ghost use Rattle.std.specs.Prelude.{◌≡◌, ◌≤◌, length, Some};
ghost use Rattle.program.specs.Meaning.{most_stages};
ghost use Rattle.tally.specs.Rounds.{Within};
ghost use Rattle.settle.specs.declared.links.Chained.{Chained};

use crate::parts;
use program::{MOST_STAGES, Move, Stage};
use settle::endless::{Sort, keep_endless};
use settle::links::Chained;
use settle::table::tally_all;
use tally::Tally;
use tally::rows::tallies;
use tally::walks::Walks;

// Without chains, rounds do what the chains are for: for any number of moves, and sooner where there are few.
#[derive(Clone, Copy)]
pub struct Paths<'a> {
    pub stages: &'a [Stage],
    pub moves: &'a [Move],
    chained: Option<Chained<'a>>,
    pub ghost few: { length stages.now ≤ most_stages },
    pub ghost within: { Within (length stages.now) moves.now },
    pub ghost counted: { (by : Chained) → chained ≡ Some by → by.stages ≡ length stages.now },
    pub ghost same: { (by : Chained) → chained ≡ Some by → by.moves.now ≡ moves.now },
}

impl<'a> Paths<'a> {
    ghost use Rattle.std.specs.Prelude.{◌*◌};
    ghost use Rattle.tctl.specs.Checker.{endless};
    ghost use Rattle.program.specs.Graphs.{graph_of};
    ghost use Rattle.tally.specs.Walks.{among, tallied};
    ghost use Rattle.tally.specs.Tables.{Filled};
    ghost use Rattle.settle.specs.Rows.{row, RestKept, sort_of};
    ghost use Rattle.settle.specs.Tended.{Settles};

    // Without chains.
    pub fn of(stages: &'a [Stage], moves: &'a [Move]) -> Paths<'a>
        requires few { length stages.now ≤ most_stages }
        requires within { Within (length stages.now) moves.now }
        ensures stages { result.stages ≡ stages.entry }
        ensures moves { result.moves ≡ moves.entry }
    {
        Paths {
            stages,
            moves,
            chained: None,
        }
    }

    // With the moves chained.
    pub fn along(stages: &'a [Stage], chained: Chained<'a>) -> Paths<'a>
        requires { chained.stages ≡ length stages.now }
        ensures stages { result.stages ≡ stages.entry }
        ensures moves { result.moves ≡ chained.entry.moves }
    {
        Paths {
            stages,
            moves: chained.moves,
            chained: Some(chained),
        }
    }

    // Fills the table with the choices over all walks of at most n moves, which are those over all walks.
    pub fn tally_all<T: Tally>(&self, pass: &[u32], goals: &[u32], table: &mut [T])
        requires pass { length self.now.stages.now ≤ length pass.now }
        requires goals { length self.now.stages.now ≤ length goals.now }
        requires room { 4 * length self.now.stages.now ≤ length table.old }
        requires settles { Settles T.Tally.algebra (length self.now.stages.now) self.now.moves.now
            (among pass.now) (among goals.now) }
        ensures { Filled T.Tally.algebra (tallied T.Tally.algebra self.now.moves.now
            (among pass.now) (among goals.now) (length self.now.stages.now))
            (length self.now.stages.now) table.old table.new }
    {
        if let Some(chained) = &self.chained {
            tally_all(chained, pass, goals, table);
            return;
        }
        let stages = self.stages.len();
        let walks = Walks {
            stages,
            moves: self.moves,
            pass,
            goals,
        };
        tallies(&walks, stages as u16, table);
    }

    // Leaves of the set the greatest part in which each stage has a move of the sort into the part.
    pub fn keep_endless(&self, sort: Sort, set: &mut [u32])
        requires set { length self.now.stages.now ≤ length set.old }
        ensures left { row (length self.now.stages.now) set.new
            ≡ endless (graph_of self.now.stages.now self.now.moves.now) (sort_of sort)
            (row (length self.now.stages.now) set.old) (length self.now.stages.now) }
        ensures above { RestKept (length self.now.stages.now) set.old set.new }
    {
        if let Some(chained) = &self.chained {
            keep_endless(sort, chained, set);
            return;
        }
        let mut has = [0; MOST_STAGES];
        parts::keep_endless(sort, self.stages, self.moves, set, &mut has);
    }
}
