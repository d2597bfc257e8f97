// A queue of stages, first in, first out, in which no stage waits twice.
ghost use Rattle.settle.specs.Rings.{Orderly};

use program::MOST_STAGES;

// There is no room in a queue.
#[derive(Clone, Copy, PartialEq, Eq, Debug)]
pub struct Full;

// The stages that wait stand in the ring from `head` on, `count` of them; `waiting` tells of each whether it is there.
// The ring is written out, as the library's are on the heap, and there is none here.
#[derive(Drop)]
pub struct Queue {
    ring: [u16; MOST_STAGES],
    waiting: [bool; MOST_STAGES],
    head: usize,
    count: usize,
    ghost orderly: { Orderly ring waiting head count },
}

impl Queue {
    ghost use Rattle.std.specs.Prelude.{◌≡◌, ℕ, ◌<◌, ◌≤◌, length, OnOk};
    ghost use Rattle.program.specs.Meaning.{most_stages};
    ghost use Rattle.tally.specs.Walks.{among};
    ghost use Rattle.settle.specs.Queues.{Waits, Lined, AllWait, PutsIn, Takes};

    pub fn empty() -> Queue
        ensures { (stage : ℕ) → Waits result stage → ⊥ }
    {
        Queue {
            ring: [0; MOST_STAGES],
            waiting: [false; MOST_STAGES],
            head: 0,
            count: 0,
        }
    }

    // Puts a stage in, unless it waits already.
    pub fn put(&mut self, stage: usize) -> Result<(), Full>
        requires { stage < most_stages }
        ensures puts { PutsIn stage self.old self.new }
        ensures waits { OnOk result (Waits self.new stage) }
    {
        if self.waiting[stage] {
            return Ok(());
        }
        if self.count == MOST_STAGES {
            return Err(Full);
        }
        self.ring[(self.head + self.count) % MOST_STAGES] = stage as u16;
        self.waiting[stage] = true;
        self.count += 1;
        Ok(())
    }

    // Puts in each stage of a set, the words of which are not 0, among the first n.
    pub fn put_all(&mut self, n: usize, set: &[u32]) -> Result<(), Full>
        requires few { n ≤ most_stages }
        requires set { n ≤ length set.now }
        ensures lined { Lined n self.old → Lined n self.new }
        ensures wait { OnOk result (AllWait n (among set.now) self.new) }
    {
        for (stage, word) in set[..n].iter().enumerate() {
            if *word > 0 {
                self.put(stage)?;
            }
        }
        Ok(())
    }

    // Takes out the stage that has waited longest.
    pub fn take(&mut self) -> Option<usize>
        ensures { Takes self.old self.new result }
    {
        if self.count == 0 {
            return None;
        }
        let stage = self.ring[self.head] as usize;
        self.waiting[stage] = false;
        self.head = (self.head + 1) % MOST_STAGES;
        self.count -= 1;
        Some(stage)
    }
}
