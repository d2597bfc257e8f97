// The greatest part of a set in which each stage has a move into the part.
ghost use Rattle.std.specs.Prelude.{◌≡◌, ◌≤◌, length};
ghost use Rattle.program.specs.Graphs.{timed_move};
ghost use Rattle.settle.specs.Rows.{RestKept, LeavesEndless, sort_of};

use crate::links::Chained;
use crate::removal::Removal;
use program::Move;

// Which moves count: any, or those that take no time. An enum and no closure, which would
// be no plainer: each clause would say of the closure which of these two it computes.
#[derive(Clone, Copy, PartialEq, Eq, Debug)]
pub enum Sort {
    Any,
    Still,
}

impl Sort {
    // Whether a move counts.
    pub fn counts(self, m: Move) -> bool
        ensures { result ≡ sort_of self (timed_move m) }
    {
        match self {
            Sort::Any => true,
            Sort::Still => m.minutes == 0,
        }
    }
}

// Leaves of the set the greatest part in which each stage has a move of the sort into the part.
pub fn keep_endless(sort: Sort, chained: &Chained, set: &mut [u32])
    requires set { chained.now.stages ≤ length set.old }
    ensures left { LeavesEndless sort chained.now.stages chained.now.moves.now set.old set.new }
    ensures above { RestKept chained.now.stages set.old set.new }
{
    let mut removal = Removal::none();
    removal.run(sort, chained, set);
}
