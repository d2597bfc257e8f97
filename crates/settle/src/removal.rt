// The removal of stages from a set, until each that is left has a move into what is left. Each such stage watches one
// of its moves; when the stage that this move enters is removed, it looks for the next of its moves into the set.
ghost use Rattle.std.specs.Prelude.{◌≡◌, ℕ, ◌<◌, ◌≤◌, T, ◌⊎◌, length, ◌↔◌, IsTrue};
ghost use Rattle.program.specs.Graphs.{timed_move};
ghost use Rattle.tally.specs.Walks.{among};
ghost use Rattle.program.specs.declared.End.TheVariants.{Enters};
ghost use Rattle.settle.specs.Rings.{AllBelow, AllStages};
ghost use Rattle.settle.specs.Rows.{sort_of};

use crate::endless::Sort;
use crate::links::Chained;
use crate::queue::{Full, Queue};
use arrayvec::ArrayVec;
use program::{MOST_STAGES, Move};

// `watched` has for each stage the link to the move that it watches. The stages that are gone stand in `gone`; at the
// first `done` the moves that enter have been looked at.
// Sort, chained and set stay parameters: with the three in this struct, the set lent, the proof of `watch` did not close.
#[derive(Drop)]
pub struct Removal {
    watched: [Option<u16>; MOST_STAGES],
    gone: ArrayVec<u16, MOST_STAGES>,
    done: usize,
    ghost order: { done ≤ length gone.items },
    ghost stages: { AllStages gone.items },
}

// Whether a move is of the sort and enters the set.
fn leads(sort: Sort, m: Move, set: &[u32]) -> bool
    requires { m.enters < length set.now }
    ensures { IsTrue result ↔ (T (sort_of sort (timed_move m)) × T (among set.now m.enters)) }
{
    sort.counts(m) && set[usize::from(m.enters)] > 0
}

impl Removal {
    ghost use Rattle.std.specs.Prelude.{[]};
    ghost use Rattle.settle.specs.Chains.{end_at, link_at};
    ghost use Rattle.settle.specs.Queues.{Lined};
    ghost use Rattle.settle.specs.Removals.{stages_of, moves_of, From, Outside, Booked, Watching, Due};
    ghost use Rattle.settle.specs.Removals.{Removes, Removed, Rewatches, LooksAt};

    // None is gone.
    pub fn none() -> Removal
        ensures { result.gone.items ≡ [] }
    {
        Removal {
            watched: [None; MOST_STAGES],
            gone: ArrayVec::new(),
            done: 0,
        }
    }

    // Lets a stage watch the next move of its chain, from a link on, that leads into the set. Where there is none the
    // stage is gone.
    fn watch(
        &mut self,
        sort: Sort,
        chained: &Chained,
        stage: usize,
        from: Option<u16>,
        set: &mut [u32],
    )
        requires booked { Booked chained.now set.old self.old }
        requires stage { (stage < stages_of chained.now) × (T (among set.old stage)) }
        requires from { From sort (moves_of chained.now) (among set.old) stage from }
        ensures { Rewatches sort chained.now stage set.old set.new self.old self.new }
    {
        let mut link = from;
        while let Some(number) = link {
            let k = usize::from(number);
            if leads(sort, chained.moves[k], set) {
                self.watched[stage] = link;
                return;
            }
            link = chained.chains.leaves.next[k];
        }
        set[stage] = 0;
        self.gone.push(stage as u16);
    }

    // Lets each stage of the set watch a move. Those that cannot are gone.
    fn watch_all(&mut self, sort: Sort, chained: &Chained, set: &mut [u32])
        requires booked { Booked chained.now set.old self.old }
        ensures removes { Removes sort chained.now set.old set.new self.old self.new }
        ensures watching { Watching sort chained.now (among set.new) (Due chained.now self.new) self.new }
    {
        let firsts = &chained.chains.leaves.first[..chained.stages];
        for (stage, first) in firsts.iter().enumerate() {
            if set[stage] > 0 {
                self.watch(sort, chained, stage, *first, set);
            }
        }
    }

    // The next stage that is gone, at which the moves that enter are to be looked at.
    fn next_gone(&mut self) -> Option<usize>
        ensures { LooksAt self.old self.new result }
    {
        let stage = self.gone.as_slice().get(self.done).copied()?;
        self.done += 1;
        Some(usize::from(stage))
    }

    // Whether a stage is left and watches the move of a link.
    fn watches(&self, stage: usize, link: Option<u16>, set: &[u32]) -> bool
        requires { (stage < MOST_STAGES) × (stage < length set.now) }
        ensures { IsTrue result ↔ (T (among set.now stage) × (link_at self.now.watched stage ≡ link)) }
    {
        set[stage] > 0 && self.watched[stage] == link
    }

    // Looks at the moves that enter a stage that is gone: a stage that watches one of them watches another, or is gone.
    fn look(&mut self, sort: Sort, chained: &Chained, gone: usize, set: &mut [u32])
        requires gone { Outside chained.now (among set.old) gone }
        requires booked { Booked chained.now set.old self.old }
        requires watching { Watching sort chained.now (among set.old)
            (λ k. Due chained.now self.old k ⊎ (end_at Enters (moves_of chained.now) k ≡ gone)) self.old }
        ensures removes { Removes sort chained.now set.old set.new self.old self.new }
        ensures watching { Watching sort chained.now (among set.new) (Due chained.now self.new) self.new }
    {
        let mut link = chained.chains.enters.first[gone];
        while let Some(number) = link {
            let k = usize::from(number);
            let stage = usize::from(chained.moves[k].leaves);
            if self.watches(stage, link, set) {
                self.watch(sort, chained, stage, chained.chains.leaves.next[k], set);
            }
            link = chained.chains.enters.next[k];
        }
    }

    // Removes stages until each that is left has a move of the sort into what is left: where the removal stands, since
    // it is large.
    pub fn run(&mut self, sort: Sort, chained: &Chained, set: &mut [u32])
        requires none { self.old.gone.items ≡ [] }
        requires set { stages_of chained.now ≤ length set.old }
        ensures { Removed sort chained.now set.old set.new self.new }
    {
        self.watch_all(sort, chained, set);
        while let Some(gone) = self.next_gone() {
            self.look(sort, chained, gone, set);
        }
    }

    // Puts the stages that are gone into a queue, in the order in which they went.
    pub fn put_gone(&self, queue: &mut Queue) -> Result<(), Full>
        ensures { (n : ℕ) → AllBelow n self.now.gone.items → Lined n queue.old → Lined n queue.new }
    {
        for stage in self.gone.as_slice() {
            queue.put(usize::from(*stage))?;
        }
        Ok(())
    }
}
