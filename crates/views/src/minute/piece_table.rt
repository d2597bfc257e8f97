// A table of the pieces that a view makes of a program's moves, numbered from 0 on: entry k is the first piece of move
// k. A move has a piece more than it goes through new stages, so `first[k] - k` of these come before those of move k.
ghost use Rattle.std.specs.Prelude.{◌≡◌, ◌+◌, ◌<◌, ◌≤◌, length};
ghost use Rattle.program.specs.Meaning.{most_moves};
ghost use Rattle.views.specs.PieceTable.{first_piece, Rising, ByMinutes};

use program::{MOST_MOVES, Program};

const ENTRIES: usize = MOST_MOVES + 1;

#[derive(Drop)]
pub struct PieceTable {
    pub first: [u32; ENTRIES],
    ghost all: { length first ≡ most_moves + 1 },
    ghost begins: { first_piece first 0 ≡ 0 },
    ghost rising: { Rising first },
}

impl PieceTable {
    // The table of a program: a move has a piece for each minute, and one if it takes none.
    pub fn of<P: Program>(program: &P) -> PieceTable
        ensures { ByMinutes result.first (P.Program.meaning program.now) }
    {
        let mut first = [0; ENTRIES];
        let mut pieces = 0;
        for (k, entry) in first.iter_mut().enumerate() {
            *entry = pieces;
            pieces += u32::from(program.move_at(k).minutes.max(1));
        }
        PieceTable { first }
    }

    // The move, out of so many, that a piece is one of.
    pub fn move_of(&self, piece: usize, moves: usize) -> usize
        requires few { moves ≤ most_moves }
        requires real { piece < first_piece self.now.first moves }
        ensures real { result < moves }
        ensures begun { first_piece self.now.first result ≤ piece }
        ensures goes_on { piece < first_piece self.now.first (result + 1) }
    {
        self.first[..moves].partition_point(|first| *first as usize <= piece) - 1
    }
}
