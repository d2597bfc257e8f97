// The walks that a tally sums up.
ghost use Rattle.std.specs.Prelude.{◌≤◌, length};
ghost use Rattle.tally.specs.Rounds.{Within};

use program::Move;

// The walks by these moves among so many stages, through the set to pass, to a goal. A set is a row of words, one a
// stage: a stage is in it where its word is not 0. (Words and no bools, as a table's user hands them in: so the project
// asks.)
#[derive(Clone, Copy)]
pub struct Walks<'a> {
    pub stages: usize,
    pub moves: &'a [Move],
    pub pass: &'a [u32],
    pub goals: &'a [u32],
    pub ghost within: { Within stages moves.now },
    pub ghost pass_room: { stages ≤ length pass.now },
    pub ghost goals_room: { stages ≤ length goals.now },
}
