// What a program has to have, so that rules can be checked on it: each stage a move out, and no cycle of moves that
// take no time.
ghost use Rattle.std.specs.Prelude.{◌≡◌, ℕ, ◌<◌, ◌≤◌, true, false, length, ◌≢◌, slice_index_or};
ghost use Rattle.program.specs.Meaning.{no_move, prog};
ghost use Rattle.tally.specs.Walks.{among};
ghost use Rattle.tally.specs.Rounds.{Within};
ghost use Rattle.checker.specs.Found.{DeadFound, LeftBefore, CycleFound, Found, meets, ahead, steps};

use program::{MOST_STAGES, Move, Stage};
use settle::endless::Sort;
use sheet::paths::Paths;

// For so few stages the scan is sooner done.
const FEW_STAGES: usize = 16;

// Whether each of so many stages is left by a move, and they are no more than a program has: in one pass over the moves.
fn all_left(stages: usize, moves: &[Move]) -> bool
    ensures { result ≡ true → (s : ℕ) → s < stages → LeftBefore moves.now (length moves.now) s }
{
    let mut without = [1u32; MOST_STAGES];
    for m in moves {
        let s = usize::from(m.leaves);
        if s < MOST_STAGES {
            without[s] = 0;
        }
    }
    stages <= MOST_STAGES && first_in(stages, &without).is_none()
}

// The lowest stage that no move leaves.
pub fn dead_end(stages: &[Stage], moves: &[Move]) -> Option<usize>
    ensures { DeadFound (prog stages.now moves.now) result }
{
    if stages.len() > FEW_STAGES && all_left(stages.len(), moves) {
        return None;
    }
    // Stages by moves, left by a label: the form that the project asks for here.
    'stages: for s in 0..stages.len() {
        for m in moves {
            if m.leaves as usize == s {
                continue 'stages;
            }
        }
        return Some(s);
    }
    None
}

// The first stage in a set of n stages.
fn first_in(n: usize, set: &[u32]) -> Option<usize>
    requires { n ≤ length set.now }
    ensures { Found n (among set.now) result }
{
    set[..n].iter().position(|word| *word > 0)
}

// Whether a move leads on from a stage into a set, and takes no time.
fn leads_on(m: Move, set: &[u32], s: usize) -> bool
    requires { m.enters < length set.now }
    ensures { result ≡ meets (among set.now) m s }
{
    m.leaves as usize == s && Sort::Still.counts(m) && set[m.enters as usize] > 0
}

// Where the first 0-minute move from a stage into a set leads.
fn follow_once(n: usize, moves: &[Move], set: &[u32], s: usize) -> usize
    requires { (Within n moves.now) × (n ≤ length set.now) }
    ensures { result ≡ ahead moves.now (among set.now) s }
{
    for m in moves {
        if leads_on(*m, set, s) {
            return m.enters as usize;
        }
    }
    s
}

// After as many steps as there are stages one goes round.
fn follow(n: usize, moves: &[Move], set: &[u32], s: usize) -> usize
    requires { (Within n moves.now) × (n ≤ length set.now) }
    ensures { result ≡ steps (ahead moves.now (among set.now)) n s }
{
    let mut at = s;
    for _done in 0..n {
        at = follow_once(n, moves, set, at);
    }
    at
}

// Whether some move takes no time.
fn has_still(moves: &[Move]) -> bool
    ensures { result ≡ false → (k : ℕ) → k < length moves.now → (slice_index_or moves.now k no_move).minutes ≢ 0 }
{
    moves.iter().any(|m| Sort::Still.counts(*m))
}

// A stage on a cycle of moves that take no time.
pub(crate) fn still_stage(paths: &Paths) -> Option<usize>
    ensures { CycleFound (prog paths.now.stages.now paths.now.moves.now) result }
{
    if !has_still(paths.moves) {
        return None;
    }
    let n = paths.stages.len();
    let mut set = [1u32; MOST_STAGES];
    paths.keep_endless(Sort::Still, &mut set);
    let first = first_in(n, &set)?;
    Some(follow(n, paths.moves, &set, first))
}
