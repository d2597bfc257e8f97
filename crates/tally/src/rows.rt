// The rounds that fill a table. The table's first row, an entry a stage, has what is said now, its second row what the
// round makes of it.
ghost use Rattle.std.specs.Prelude.{◌≡◌, ℕ, ◌+◌, ◌*◌, ◌<◌, ◌≤◌, true, length, ◌≢◌};
ghost use Rattle.tally.specs.Walks.{among, tallied, AllWalks};
ghost use Rattle.tally.specs.Rounds.{begins, round, rounds, entry, KeptBelow, KeptFrom, Written, Holding};
ghost use Rattle.tally.specs.Rounds.{poured, all_poured};
ghost use Rattle.tally.specs.Sweeps.{ChosenOfAll};
ghost use Rattle.tally.specs.Tables.{Filled};

use crate::Tally;
use crate::walks::Walks;
use program::Move;

// Writes what is said of the walk without moves from each of n stages, if it is a goal, from the place `at` on.
pub fn begin_row<T: Tally>(at: usize, n: usize, goals: &[u32], table: &mut [T])
    requires goals { n ≤ length goals.now }
    requires room { at + n ≤ length table.old }
    ensures written { Written T.Tally.algebra at n (begins T.Tally.algebra (among goals.now)) table.new }
    ensures below { KeptBelow T.Tally.algebra at table.old table.new }
    ensures above { KeptFrom T.Tally.algebra (at + n) table.old table.new }
{
    // By the index, since after `iter_mut().zip(..)` a proof knows nothing of the entries.
    for (s, entry) in table[at..at + n].iter_mut().enumerate() {
        *entry = if goals[s] > 0 { T::start() } else { T::none() };
    }
}

// Adds to what the second row says of the stage that a move leaves what the first row says of the stage that it enters,
// with the move's minutes before it.
fn pour_one<T: Tally>(m: Move, walks: &Walks, table: &mut [T])
    requires ends { (m.leaves < walks.now.stages) × (m.enters < walks.now.stages) }
    requires room { 2 * walks.now.stages ≤ length table.old }
    ensures poured { entry T.Tally.algebra table.new (walks.now.stages + m.leaves) ≡ poured T.Tally.algebra
        (among walks.now.pass.now) m (entry T.Tally.algebra table.old (walks.now.stages + m.leaves))
        (entry T.Tally.algebra table.old m.enters) }
    ensures others { (i : ℕ) → (i ≢ walks.now.stages + m.leaves) → entry T.Tally.algebra table.new i
        ≡ entry T.Tally.algebra table.old i }
{
    let leaves = usize::from(m.leaves);
    if walks.pass[leaves] > 0 {
        let more = table[usize::from(m.enters)].before(m.minutes);
        let had = table[walks.stages + leaves];
        table[walks.stages + leaves] = had.choice(more);
    }
}

fn pour<T: Tally>(walks: &Walks, table: &mut [T])
    requires room { 2 * walks.now.stages ≤ length table.old }
    ensures poured { Written T.Tally.algebra walks.now.stages walks.now.stages
        (all_poured T.Tally.algebra walks.now.moves.now
        (among walks.now.pass.now) walks.now.stages table.old) table.new }
    ensures below { KeptBelow T.Tally.algebra walks.now.stages table.old table.new }
    ensures above { KeptFrom T.Tally.algebra (2 * walks.now.stages) table.old table.new }
{
    for m in walks.moves {
        pour_one(*m, walks, table);
    }
}

// Copies the second row of n entries over the first. Answers true only if they were the same.
fn settle<T: Tally>(n: usize, table: &mut [T]) -> bool
    requires room { 2 * n ≤ length table.old }
    ensures copied { Holding T.Tally.algebra n (λ s. entry T.Tally.algebra table.old (n + s))
        table.new }
    ensures above { KeptFrom T.Tally.algebra n table.old table.new }
    ensures told { result ≡ true → Holding T.Tally.algebra n (λ s. entry T.Tally.algebra table.old
        (n + s)) table.old }
{
    let rows = &*table;
    let still = rows[..n]
        .iter()
        .zip(&rows[n..2 * n])
        .all(|(now, next)| now.same(*next));
    table.copy_within(n..2 * n, 0);
    still
}

// Sets the entries from one place up to another to none.
pub fn clear<T: Tally>(first: usize, end: usize, table: &mut [T])
    requires order { first ≤ end }
    requires room { end ≤ length table.old }
    ensures cleared { (i : ℕ) → first ≤ i → i < end → entry T.Tally.algebra table.new i
        ≡ T.Tally.algebra.none }
    ensures below { KeptBelow T.Tally.algebra first table.old table.new }
    ensures above { KeptFrom T.Tally.algebra end table.old table.new }
{
    // A loop: a call of `fill_with` with a function of T is one that the borrow checker does not cover.
    for entry in table[first..end].iter_mut() {
        *entry = T::none();
    }
}

// One round on the first row, by way of the second. Answers true only if it changed nothing.
fn turn<T: Tally>(walks: &Walks, table: &mut [T]) -> bool
    requires room { 2 * walks.now.stages ≤ length table.old }
    ensures next { Holding T.Tally.algebra walks.now.stages (round T.Tally.algebra walks.now.moves.now
        (among walks.now.pass.now) (among walks.now.goals.now) (entry T.Tally.algebra table.old))
        table.new }
    ensures above { KeptFrom T.Tally.algebra (2 * walks.now.stages) table.old table.new }
    ensures told { result ≡ true → Holding T.Tally.algebra walks.now.stages (entry T.Tally.algebra table.new)
        table.old }
{
    begin_row(walks.stages, walks.stages, walks.goals, table);
    pour(walks, table);
    settle(walks.stages, table)
}

// The rounds, k of them, or as many as change something.
fn repeat<T: Tally>(walks: &Walks, k: u16, table: &mut [T])
    requires room { 2 * walks.now.stages ≤ length table.old }
    ensures results { Holding T.Tally.algebra walks.now.stages (rounds T.Tally.algebra walks.now.moves.now
        (among walks.now.pass.now) (among walks.now.goals.now) k) table.new }
    ensures above { KeptFrom T.Tally.algebra (2 * walks.now.stages) table.old table.new }
{
    begin_row(0, walks.stages, walks.goals, table);
    for _done in 0..k {
        if turn(walks, table) {
            return;
        }
    }
}

// The table of the walks of at most k moves.
pub fn tallies<T: Tally>(walks: &Walks, k: u16, table: &mut [T])
    requires room { 4 * walks.now.stages ≤ length table.old }
    ensures { Filled T.Tally.algebra (tallied T.Tally.algebra walks.now.moves.now
        (among walks.now.pass.now) (among walks.now.goals.now) k) walks.now.stages table.old table.new }
{
    repeat(walks, k, table);
    clear(walks.stages, 4 * walks.stages, table);
}

// The list of walks that the tallies sum up is that of all walks.
pub fn all_walks()
    ensures { AllWalks }
{}

// A table that is filled in place, by one move after the other in any order, says the choice over some walks at each
// time, and over all walks once no move adds anything to it.
pub fn chosen_of_all<T: Tally>()
    ensures { ChosenOfAll T.Tally.algebra }
{}
