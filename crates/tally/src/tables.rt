// The table of a tally over any readable program.
ghost use Rattle.std.specs.Prelude.{◌≡◌};
ghost use Rattle.tally.specs.Tables.{Fills, tally_fault_number};

use crate::Tally;
use crate::rows::tallies;
use crate::walks::Walks;
use arrayvec::ArrayVec;
use program::Program;
use program::lists::copy_moves;

// Why a table is not filled, by the number of the refusal.
#[derive(Clone, Copy, PartialEq, Eq, Debug)]
pub enum TallyFault {
    // a set has fewer words than there are stages, or the table fewer than four entries a stage
    ShortMemory = 15,
}

impl TallyFault {
    // The number of the refusal.
    pub fn number(self) -> u8
        ensures { result ≡ tally_fault_number self }
    {
        self as u8
    }
}

// For each stage the choice over all walks of at most k moves to a goal whose stages before the last are in the set to
// pass: in the first entries of the table, an entry a stage.
pub fn fill<T: Tally, P: Program>(
    program: &P,
    pass: &[u32],
    goals: &[u32],
    k: u16,
    table: &mut [T],
) -> Result<(), TallyFault>
    ensures { Fills T.Tally.algebra (P.Program.meaning program.now)
        pass.now goals.now k table.old table.new result }
{
    let stages = program.stage_count();
    if pass.len() < stages || goals.len() < stages || table.len() < 4 * stages {
        return Err(TallyFault::ShortMemory);
    }
    let mut moves = ArrayVec::new();
    copy_moves(program, &mut moves);
    let walks = Walks {
        stages,
        moves: moves.as_slice(),
        pass,
        goals,
    };
    tallies(&walks, k, table);
    Ok(())
}
