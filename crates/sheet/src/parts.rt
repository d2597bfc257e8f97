// The greatest part of a set in which each stage has a move into the part, by rounds of removal. It takes any number of
// stages and moves, where chains number no more than a program has.
ghost use Rattle.std.specs.Prelude.{◌≡◌, ℕ, ◌<◌, ◌≤◌, true, length, ◌≢◌, slice_index};
ghost use Rattle.program.specs.Graphs.{timed_move, graph_of};
ghost use Rattle.tally.specs.Walks.{among};
ghost use Rattle.tally.specs.Rounds.{Within};
ghost use Rattle.tctl.specs.Checker.{endless, ◌and◌, ◌or◌};
ghost use Rattle.settle.specs.Rows.{row, RestKept, sort_of};
ghost use Rattle.sheet.specs.Rows.{Says, leads_into, shrunk};

use program::{Move, Stage};
pub use settle::endless::Sort;

// Sets the first n words to 0.
fn erase(n: usize, words: &mut [u32])
    requires { n ≤ length words.old }
    ensures erased { (s : ℕ) → s < n → slice_index words.new s ≡ 0 }
    ensures above { RestKept n words.old words.new }
{
    words[..n].fill(0);
}

// Marks the stage that a move leaves, if the move counts and enters the set.
fn mark_one(sort: Sort, m: Move, set: &[u32], has: &mut [u32])
    requires { (m.leaves < length has.old) × (m.enters < length set.now) }
    ensures marked { among has.new m.leaves
        ≡ (among has.old m.leaves or (sort_of sort (timed_move m) and among set.now m.enters)) }
    ensures others { (i : ℕ) → (i ≢ m.leaves) → slice_index has.new i ≡ slice_index has.old i }
{
    if set[usize::from(m.enters)] > 0 && sort.counts(m) {
        has[usize::from(m.leaves)] = 1;
    }
}

// Marks each stage with a move into the set.
fn mark_into(sort: Sort, n: usize, moves: &[Move], set: &[u32], has: &mut [u32])
    requires within { Within n moves.now }
    requires set { n ≤ length set.now }
    requires has { n ≤ length has.old }
    ensures marked { Says n has.new
        (λ s. among has.old s or leads_into sort n moves.now set.now s) }
    ensures above { RestKept n has.old has.new }
{
    for m in moves {
        mark_one(sort, *m, set, has);
    }
}

// Takes the stages that are not marked out of the set. Answers true only if that changed nothing.
fn thin(n: usize, has: &[u32], set: &mut [u32]) -> bool
    requires has { n ≤ length has.now }
    requires set { n ≤ length set.old }
    ensures thinned { Says n set.new (λ s. among set.old s and among has.now s) }
    ensures above { RestKept n set.old set.new }
    ensures told { result ≡ true → Says n set.old (among set.new) }
{
    let mut unchanged = true;
    for (s, word) in set[..n].iter_mut().enumerate() {
        if has[s] == 0 {
            if *word > 0 {
                unchanged = false;
            }
            *word = 0;
        }
    }
    unchanged
}

// Takes out of the set the stages with no move into it. Answers true only if that changed nothing.
fn shrink(sort: Sort, stages: &[Stage], moves: &[Move], set: &mut [u32], has: &mut [u32]) -> bool
    requires within { Within (length stages.now) moves.now }
    requires set { length stages.now ≤ length set.old }
    requires has { length stages.now ≤ length has.old }
    ensures left { row (length stages.now) set.new
        ≡ shrunk (graph_of stages.now moves.now) (sort_of sort)
        (row (length stages.now) set.old) }
    ensures above { RestKept (length stages.now) set.old set.new }
    ensures told { result ≡ true → row (length stages.now) set.old
        ≡ row (length stages.now) set.new }
{
    let n = stages.len();
    erase(n, has);
    mark_into(sort, n, moves, set, has);
    thin(n, has, set)
}

// Leaves of the set the greatest part in which each stage has a move into the part.
pub fn keep_endless(sort: Sort, stages: &[Stage], moves: &[Move], set: &mut [u32], has: &mut [u32])
    requires within { Within (length stages.now) moves.now }
    requires set { length stages.now ≤ length set.old }
    requires has { length stages.now ≤ length has.old }
    ensures left { row (length stages.now) set.new
        ≡ endless (graph_of stages.now moves.now) (sort_of sort)
        (row (length stages.now) set.old) (length stages.now) }
    ensures above { RestKept (length stages.now) set.old set.new }
{
    for _done in 0..stages.len() {
        if shrink(sort, stages, moves, set, has) {
            return;
        }
    }
}
