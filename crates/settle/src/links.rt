// Moves chained by the stage that they leave, or by the stage that they enter: from each stage a chain goes through all
// moves with that end, the last one first.
ghost use Rattle.std.specs.Prelude.{◌≡◌, ℕ, ◌<◌, ◌≤◌, length, None};
ghost use Rattle.program.specs.Meaning.{most_stages, most_moves};
ghost use Rattle.tally.specs.Rounds.{Within};
ghost use Rattle.settle.specs.Chains.{link_at, Linked, ChainsOf};

use program::{End, MOST_MOVES, MOST_STAGES, Move};

// A link is the number of a move, or none where a chain ends. `first` has for each stage the link to its last move,
// `next` for each move the link to the last move before it with the same end. Tables of links and no list a stage:
// there is no heap here.
#[derive(Drop)]
pub struct Links {
    pub first: [Option<u16>; MOST_STAGES],
    pub next: [Option<u16>; MOST_MOVES],
}

impl Links {
    // Links to no move.
    fn none() -> Links
        ensures { (stage : ℕ) → stage < most_stages → link_at result.first stage ≡ None }
    {
        Links {
            first: [None; MOST_STAGES],
            next: [None; MOST_MOVES],
        }
    }

    // Chains the moves by one of their ends.
    fn chain(&mut self, end: End, stages: usize, moves: &[Move])
        requires none { (stage : ℕ) → stage < most_stages → link_at self.old.first stage ≡ None }
        requires stages { stages ≤ most_stages }
        requires moves { length moves.now ≤ most_moves }
        requires within { Within stages moves.now }
        ensures { Linked end stages moves.now self.new }
    {
        for (k, m) in moves.iter().enumerate() {
            let stage = usize::from(m.end(end));
            self.next[k] = self.first[stage];
            self.first[stage] = Some(k as u16);
        }
    }
}

// The moves chained by either end.
#[derive(Drop)]
pub struct Chains {
    pub leaves: Links,
    pub enters: Links,
}

impl Chains {
    // The chains are filled where they stand, as they are large.
    pub fn of(stages: usize, moves: &[Move]) -> Chains
        requires stages { stages ≤ most_stages }
        requires moves { length moves.now ≤ most_moves }
        requires within { Within stages moves.now }
        ensures { ChainsOf stages moves.now result }
    {
        let mut chains = Chains {
            leaves: Links::none(),
            enters: Links::none(),
        };
        chains.leaves.chain(End::Leaves, stages, moves);
        chains.enters.chain(End::Enters, stages, moves);
        chains
    }
}

// The moves of so many stages, and their chains.
#[derive(Clone, Copy)]
pub struct Chained<'a> {
    pub stages: usize,
    pub moves: &'a [Move],
    pub chains: &'a Chains,
    pub ghost linked: { ChainsOf stages moves.now chains.now },
}
