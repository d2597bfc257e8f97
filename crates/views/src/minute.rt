// The minute by minute view of a program: each move of two minutes and more is made by pieces of one minute, through
// new silent stages. The view holds the program below and a table of pieces, and works out each answer from these.
mod piece_table;

ghost use Rattle.std.specs.Prelude.{◌≡◌, ◌+◌, ◌≤◌, slice_index_or};
ghost use Rattle.program.specs.Meaning.{most_stages, no_move};
ghost use Rattle.views.specs.Minutes.{made_by, ViewOf, MinuteGraph};
ghost use Rattle.views.specs.PieceTable.{viewed, LengthsOf};
ghost use Rattle.views.specs.ViewLimits.{view_limits};

use piece_table::PieceTable;
use program::{Kind, MOST_MOVES, MOST_STAGES, Move, NO_MOVE, NO_STAGE, Program, Stage};

#[derive(Drop)]
pub struct MinuteView<'a, P> {
    program: &'a P,
    pieces: PieceTable,
}

// How many stages and moves a program has.
#[derive(Clone, Copy, Default)]
struct Lengths {
    stages: usize,
    moves: usize,
}

impl<'a, P: Program> MinuteView<'a, P> {
    // The view of a program. It has neither stages nor moves where the minute program has too many.
    pub fn new(program: &'a P) -> Self
        ensures { ViewOf (P.Program.meaning program.now)
            (viewed result.pieces.first (P.Program.meaning result.program.now)) }
    {
        MinuteView {
            program,
            pieces: PieceTable::of(program),
        }
    }

    // The lengths of the view's two lists, which are empty where the minute program has too many.
    fn lengths(&self) -> Lengths
        ensures { LengthsOf (viewed self.now.pieces.first
            (P.Program.meaning self.now.program.now)) result }
    {
        let below = self.program.move_count();
        let moves = self.pieces.first[below] as usize;
        let stages = self.program.stage_count() + moves - below;
        if stages <= MOST_STAGES && moves <= MOST_MOVES {
            Lengths { stages, moves }
        } else {
            Lengths::default()
        }
    }
}

// Of the pieces of a move that goes through so many new stages inside, numbered from `first` on, the one at a place.
fn piece(whole: Move, inside: usize, first: usize, place: usize) -> Move
    requires place { place ≤ inside }
    requires few { first + inside ≤ most_stages }
    ensures { result ≡ slice_index_or (made_by inside whole first) place no_move }
{
    let leaves = if place == 0 {
        whole.leaves
    } else {
        (first + place - 1) as u16
    };
    let enters = if place == inside {
        whole.enters
    } else {
        (first + place) as u16
    };
    Move {
        leaves,
        minutes: whole.minutes.min(1),
        enters,
    }
}

impl<P: Program> Program for MinuteView<'_, P> {
    ghost meaning = { λ x. viewed x.pieces.first (P.Program.meaning x.program.now) };

    ghost limits = { λ x. view_limits x.pieces.first x.pieces.begins x.pieces.rising
        (P.Program.meaning x.program.now) (P.Program.limits x.program.now) };

    fn stage_count(&self) -> usize {
        self.lengths().stages
    }

    fn move_count(&self) -> usize {
        self.lengths().moves
    }

    fn stage(&self, s: usize) -> Stage {
        if s >= self.lengths().stages {
            NO_STAGE
        } else if s < self.program.stage_count() {
            self.program.stage(s)
        } else {
            Stage {
                marks: 0,
                kind: Kind::Silent,
            }
        }
    }

    fn move_at(&self, k: usize) -> Move {
        if k >= self.lengths().moves {
            return NO_MOVE;
        }
        let old = self.pieces.move_of(k, self.program.move_count());
        let begin = self.pieces.first[old] as usize;
        let inside = self.pieces.first[old + 1] as usize - begin - 1;
        let first = self.program.stage_count() + begin - old;
        piece(self.program.move_at(old), inside, first, k - begin)
    }
}

// A theorem, stated by its contract: the minute program on a program's lists is the one that the theory speaks of.
pub fn minute_graph()
    ensures { MinuteGraph }
{}
