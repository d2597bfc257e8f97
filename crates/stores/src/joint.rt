// What a join finds: the last stage, a silent one, with the one move that enters it and the one that leaves it.
ghost use Rattle.std.specs.Prelude.{MatchOption};
ghost use Rattle.program.specs.Ends.{end_of};
ghost use Rattle.program.specs.Tidy.{JustOne};
ghost use Rattle.stores.specs.MoveEnds.{NoneFrom, FirstFrom, Only};
ghost use Rattle.stores.specs.Joints.{JoinTested};

use program::{End, Kind, MOST_MINUTES, Move, Program};

// The first move, from one on, that has a stage at an end.
fn first_move<P: Program>(program: &P, end: End, stage: usize, from: usize) -> Option<usize>
    ensures { MatchOption result (NoneFrom (P.Program.meaning program.now) (end_of end) stage from)
        (FirstFrom (P.Program.meaning program.now) (end_of end) stage from) }
{
    (from..program.move_count()).find(|k| program.move_at(*k).end(end) as usize == stage)
}

// The one move that has a stage at an end; none where no move has it there, or several have.
fn only_move<P: Program>(program: &P, end: End, stage: usize) -> Option<usize>
    ensures { MatchOption result (JustOne (P.Program.meaning program.now) (end_of end) stage → ⊥)
        (Only (P.Program.meaning program.now) (end_of end) stage) }
{
    let first = first_move(program, end, stage, 0)?;
    let another = first_move(program, end, stage, first + 1);
    another.is_none().then_some(first)
}

// The last stage, and the numbers of its move in and its move out, with the move that a join makes of these two.
#[derive(Clone, Copy)]
pub struct Joint {
    pub stage: usize,
    pub into: usize,
    pub out_of: usize,
    pub whole: Move,
}

// The joint that `join` may take out. In a tidy program there is one wherever the last stage is silent.
pub(crate) fn find_joint<P: Program>(program: &P) -> Option<Joint>
    ensures { JoinTested (P.Program.meaning program.now) result }
{
    let stage = program.stage_count().checked_sub(1)?;
    let Kind::Silent = program.stage(stage).kind else {
        return None;
    };
    let into = only_move(program, End::Enters, stage)?;
    let out_of = only_move(program, End::Leaves, stage)?;
    let first = program.move_at(into);
    let second = program.move_at(out_of);
    let minutes = first.minutes + second.minutes;
    if into == out_of || minutes > MOST_MINUTES {
        return None;
    }
    let whole = Move {
        leaves: first.leaves,
        minutes,
        enters: second.enters,
    };
    Some(Joint {
        stage,
        into,
        out_of,
        whole,
    })
}
