// Where a tally tells what a bound asks for.
ghost use Rattle.std.specs.Prelude.{◌≡◌, ℕ, ◌*◌, ◌<◌, ◌≤◌, Bool, length};
ghost use Rattle.tally.specs.Walks.{tallied};
ghost use Rattle.tally.specs.Rounds.{entry};
ghost use Rattle.settle.specs.Tended.{Settles};
ghost use Rattle.sheet.specs.Sets.{has, stage_count, Says};
ghost use Rattle.sheet.specs.Told.{reaches, minutes_tell, Spent};

use crate::paths::Paths;
use crate::stage_set::StageSet;
use tally::rows::clear;
use tally::{Minutes, Reach, Tally};

// A tally that is asked about a number of minutes.
pub trait Told: Tally {
    ghost tells: { ℕ → Self → Bool };

    fn told(self, minutes: u32) -> bool
        ensures { result ≡ tells minutes self };
}

// There is a walk.
impl Told for Reach {
    ghost tells = { reaches };

    fn told(self, _minutes: u32) -> bool {
        self.0
    }
}

// There is a longest walk of at least so many minutes, or a shortest one of at most so many.
impl<const LONGEST: bool> Told for Minutes<LONGEST> {
    ghost tells = { minutes_tell LONGEST };

    // A guard and no `is_some_and`: the toolchain fails where a closure reads a const parameter that is a bool.
    fn told(self, minutes: u32) -> bool {
        match self.0 {
            Some(a) if LONGEST => minutes <= a,
            Some(a) => a <= minutes,
            None => false,
        }
    }
}

// Where the walks from pass to goals tell what is asked. The table is none again after it.
pub(crate) fn tell<T: Told>(
    paths: &Paths,
    pass: &StageSet,
    goals: &StageSet,
    minutes: u32,
    table: &mut [T],
    holds: &mut StageSet,
)
    requires room { 4 * stage_count paths.now ≤ length table.old }
    requires settles { Settles T.Tally.algebra (stage_count paths.now) paths.now.moves.now
        (has pass.now) (has goals.now) }
    ensures is { Says (stage_count paths.now) holds.new (λ s. T.Told.tells minutes
        (tallied T.Tally.algebra paths.now.moves.now (has pass.now) (has goals.now)
        (stage_count paths.now) s)) }
    ensures spent { Spent T.Tally.algebra.none (stage_count paths.now) table.old table.new }
{
    let n = paths.stages.len();
    paths.tally_all(&pass.0, &goals.0, table);
    let entries = &*table;
    holds.fill(
        n,
        |s: usize| -> bool
            requires { s < length entries.now }
            ensures { result ≡ T.Told.tells minutes (entry T.Tally.algebra entries.entry.now s) }
        { entries[s].told(minutes) },
    );
    clear(0, n, table);
}
