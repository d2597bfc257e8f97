// Tallies: for each stage of a program, what sums up the walks from it to a goal. A walk is a list of moves, each
// leaving the stage that the one before it enters. `tables::fill` is the call for any readable program. Rests on
// `program`, and in its proofs on `tctl`.

#![tactic(auto)]

pub mod rows;
pub mod tables;
pub mod walks;

ghost use Rattle.std.specs.Prelude.{◌≡◌, ◌+◌, min, true};
ghost use Rattle.tally.specs.Algebras.{Algebra, Laws, Stays, most_sum, reach_algebra, minutes_algebra};
ghost use Rattle.std.proofs.Common.{rules};

// What sums up walks. Its values are those of the type.
pub trait Tally: Copy {
    ghost algebra: { Algebra Self };

    // Of no walk at all.
    fn none() -> Self
        ensures { result ≡ algebra.none };

    // Of the walk without moves.
    fn start() -> Self
        ensures { result ≡ algebra.start };

    // Of the walks that the one sums up and of those that the other does.
    fn choice(self, other: Self) -> Self
        ensures { result ≡ algebra.choice self other };

    // Of the walks with a move of so many minutes before them.
    fn before(self, minutes: u16) -> Self
        ensures { result ≡ algebra.before minutes self };

    // Whether the two values are one.
    fn same(self, other: Self) -> bool
        ensures { result ≡ true → self ≡ other };

    // Whether a value that is not none stays as it is, whatever is added to it: then the order in which a table is filled
    // saves no time.
    fn stays() -> bool
        ensures { result ≡ true → Stays algebra }
    {
        false
    }

    ghost lawful: { Laws algebra };
}

// Sums of minutes stop here.
pub const MOST_SUM: u32 = 2147483648;

// The sum of a move's minutes and more minutes, which stops at MOST_SUM.
fn added(minutes: u16, more: u32) -> u32
    ensures { result ≡ min most_sum (minutes + more) }
{
    more.saturating_add(u32::from(minutes)).min(MOST_SUM)
}

// Whether there is a walk.
#[derive(Clone, Copy, PartialEq, Eq, Debug)]
pub struct Reach(pub bool);

// The minutes of the longest walk, or of the shortest; none where there is no walk.
#[derive(Clone, Copy, PartialEq, Eq, Debug)]
pub struct Minutes<const LONGEST: bool>(pub Option<u32>);

pub type Shortest = Minutes<false>;

pub type Longest = Minutes<true>;

impl Tally for Reach {
    ghost algebra = { reach_algebra };

    ghost lawful = { Prim.search rules };

    fn none() -> Self {
        Reach(false)
    }

    fn start() -> Self {
        Reach(true)
    }

    fn choice(self, other: Self) -> Self {
        Reach(self.0 || other.0)
    }

    fn before(self, _minutes: u16) -> Self {
        self
    }

    fn same(self, other: Self) -> bool {
        self.0 == other.0
    }

    fn stays() -> bool {
        true
    }
}

impl<const LONGEST: bool> Tally for Minutes<LONGEST> {
    ghost algebra = { minutes_algebra LONGEST };

    ghost lawful = { Prim.search rules };

    fn none() -> Self {
        Minutes(None)
    }

    fn start() -> Self {
        Minutes(Some(0))
    }

    fn choice(self, other: Self) -> Self {
        match (self.0, other.0) {
            (Some(a), Some(b)) if LONGEST => Minutes(Some(a.max(b))),
            (Some(a), Some(b)) => Minutes(Some(a.min(b))),
            (one, another) => Minutes(one.or(another)),
        }
    }

    fn before(self, minutes: u16) -> Self {
        Minutes(self.0.map(|more| added(minutes, more)))
    }

    fn same(self, other: Self) -> bool {
        self == other
    }
}
