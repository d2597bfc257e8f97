// Sets of stages.
ghost use Rattle.std.specs.Prelude.{◌≡◌, ℕ, ◌<◌, ◌≤◌, true, false, ◌==◌};
ghost use Rattle.tctl.specs.Checker.{any_move, endless, into, open?, non, ◌and◌, ◌or◌};
ghost use Rattle.program.specs.Meaning.{most_stages};
ghost use Rattle.settle.specs.Rows.{RestKept};
ghost use Rattle.sheet.specs.Sets.{has, listed, stage_count, timed, Says};

use crate::paths::Paths;
use program::{Kind, MOST_STAGES, Move};
use settle::endless::Sort;

// A stage is in the set where its word is not 0: words, as the tables are filled from rows of words. A set is filled
// where it stands, since it is large, and a call that hands one over copies it.
#[derive(Clone, Copy)]
pub(crate) struct StageSet(pub [u32; MOST_STAGES]);

impl StageSet {
    pub fn none() -> StageSet
        ensures { (s : ℕ) → s < most_stages → has result s ≡ false }
    {
        StageSet([0; MOST_STAGES])
    }

    pub fn all() -> StageSet
        ensures { (s : ℕ) → s < most_stages → has result s ≡ true }
    {
        StageSet([1; MOST_STAGES])
    }

    // Makes the first n stages those of which a test is true.
    pub fn fill<F: Fn(usize) -> bool>(&mut self, n: usize, test: F)
        requires few { n ≤ most_stages }
        requires may { (s : ℕ) → s < n → F.pre test s }
        ensures told { (s : ℕ) → s < n → F.post test s (has self.new s) }
        ensures above { RestKept n self.old.0 self.new.0 }
    {
        for (s, word) in self.0[..n].iter_mut().enumerate() {
            *word = u32::from(test(s));
        }
    }

    pub fn has(&self, s: usize) -> bool
        requires { s < most_stages }
        ensures { result ≡ has self.now s }
    {
        self.0[s] > 0
    }

    // Takes the stages of another set out of the first n.
    pub fn remove(&mut self, n: usize, other: &StageSet)
        requires { n ≤ most_stages }
        ensures left { Says n self.new (λ s. has self.old s and non (has other.now s)) }
        ensures above { RestKept n self.old.0 self.new.0 }
    {
        for (s, word) in self.0[..n].iter_mut().enumerate() {
            if other.has(s) {
                *word = 0;
            }
        }
    }

    // Leaves the greatest part in which each stage has a move into the part.
    pub fn keep_endless(&mut self, paths: &Paths)
        ensures left { listed (stage_count paths.now) self.new
            ≡ endless (timed paths.now) any_move (listed (stage_count paths.now) self.old)
            (stage_count paths.now) }
        ensures above { RestKept (stage_count paths.now) self.old.0 self.new.0 }
    {
        paths.keep_endless(Sort::Any, &mut self.0);
    }

    // Adds the stage that a move leaves, if it enters another set.
    fn add_source(&mut self, m: Move, set: &StageSet)
        requires { (m.leaves < most_stages) × (m.enters < most_stages) }
        ensures { (s : ℕ) → has self.new s
            ≡ (has self.old s or (m.leaves == s and has set.now m.enters)) }
    {
        if set.has(usize::from(m.enters)) {
            self.0[usize::from(m.leaves)] = 1;
        }
    }

    // Adds the stages with a move into another set.
    pub fn add_sources(&mut self, paths: &Paths, set: &StageSet)
        ensures { (s : ℕ) → has self.new s ≡ (has self.old s
            or into any_move (timed paths.now).moves (listed (stage_count paths.now) set.now) s) }
    {
        for m in paths.moves {
            self.add_source(*m, set);
        }
    }
}

// Whether a stage is open.
pub(crate) fn is_open(paths: &Paths, s: usize) -> bool
    requires { s < stage_count paths.now }
    ensures { result ≡ open? (timed paths.now) s }
{
    paths.stages[s].kind == Kind::Open
}
