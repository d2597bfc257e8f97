// The two lists of a program as slices, and a copy of them, for which a readable program is asked once.
ghost use Rattle.std.specs.Prelude.{◌≡◌, ℕ, ◌<◌, ◌≤◌, [], length, slice_index_or};
ghost use Rattle.program.specs.Meaning.{Joined, Limits, prog};

use crate::{MOST_MOVES, MOST_STAGES, Move, Program, Stage};
use arrayvec::ArrayVec;

// The lists of a program: few enough stages and moves, and each move joins two of the stages.
#[derive(Clone, Copy)]
pub struct Lists<'a> {
    pub stages: &'a [Stage],
    pub moves: &'a [Move],
    pub ghost joined: { Joined (prog stages.now moves.now) },
}

// A copy of the lists of a program.
#[derive(Drop)]
pub struct ProgramCopy {
    pub stages: ArrayVec<Stage, MOST_STAGES>,
    pub moves: ArrayVec<Move, MOST_MOVES>,
    pub ghost limits: { Limits (prog stages.items moves.items) },
}

// Asks for so many records, for each once, into a vector that has none: where it stands, since it is large. A program is
// asked by number, so the loop counts.
fn ask_each<T: Copy + Default, const N: usize, F: Fn(usize) -> T>(
    count: usize,
    ask: F,
    records: &mut ArrayVec<T, N>,
)
    requires none { records.old.items ≡ [] }
    requires room { count ≤ N }
    requires may { F.IsAlwaysCallable ask }
    ensures all { length records.new.items ≡ count }
    ensures each { (i : ℕ) → i < count → (none : T) → F.post ask i (slice_index_or records.new.items i none) }
{
    for i in 0..count {
        records.push(ask(i));
    }
}

// Makes a vector a copy of the moves alone: where it stands, since it is large.
pub fn copy_moves<P: Program>(program: &P, moves: &mut ArrayVec<Move, MOST_MOVES>)
    ensures { moves.new.items ≡ (P.Program.meaning program.now).moves }
{
    moves.clear();
    ask_each(program.move_count(), |k| program.move_at(k), moves);
}

impl ProgramCopy {
    pub fn of<P: Program>(program: &P) -> ProgramCopy
        ensures { prog result.stages.items result.moves.items ≡ P.Program.meaning program.now }
    {
        let mut copy = ProgramCopy::empty();
        copy.ask(program);
        copy
    }

    // A copy of the program without stages.
    pub fn empty() -> ProgramCopy
        ensures stages { result.stages.items ≡ [] }
        ensures moves { result.moves.items ≡ [] }
    {
        ProgramCopy {
            stages: ArrayVec::new(),
            moves: ArrayVec::new(),
        }
    }

    // Makes an empty copy one of a program, where it stands, since it is large.
    pub fn ask<P: Program>(&mut self, program: &P)
        requires stages { self.old.stages.items ≡ [] }
        requires moves { self.old.moves.items ≡ [] }
        ensures { prog self.new.stages.items self.new.moves.items ≡ P.Program.meaning program.now }
    {
        ask_each(
            program.stage_count(),
            |s| program.stage(s),
            &mut self.stages,
        );
        ask_each(
            program.move_count(),
            |k| program.move_at(k),
            &mut self.moves,
        );
    }

    pub fn lists(&self) -> Lists<'_>
        ensures stages { result.stages.now ≡ self.now.stages.items }
        ensures moves { result.moves.now ≡ self.now.moves.items }
    {
        Lists {
            stages: self.stages.as_slice(),
            moves: self.moves.as_slice(),
        }
    }
}
