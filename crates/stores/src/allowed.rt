// What a store allows: the refusals of an edit, in their order.
ghost use Rattle.stores.specs.Allowed.{OpenTested, MarkTested, LayTested, CutTested};

use program::{EditFault, Kind, MOST_MINUTES, Move, Program, Stage};

// The stage with those marks, where `open` may append it.
pub(crate) fn allowed_stage<P: Program>(
    program: &P,
    capacity: usize,
    marks: u16,
) -> Result<Stage, EditFault>
    ensures { OpenTested capacity (P.Program.meaning program.now) marks result }
{
    if program.stage_count() >= capacity {
        return Err(EditFault::StagesFull);
    }
    Ok(Stage {
        marks,
        kind: Kind::Open,
    })
}

// The stage of that number, where `mark` may replace its marks.
pub(crate) fn open_stage<P: Program>(program: &P, stage: usize) -> Result<Stage, EditFault>
    ensures { MarkTested (P.Program.meaning program.now) stage result }
{
    if stage >= program.stage_count() {
        return Err(EditFault::NoStage);
    }
    let found = program.stage(stage);
    match found.kind {
        Kind::Open => Ok(found),
        Kind::Silent => Err(EditFault::SilentStage),
    }
}

// The move with those ends and minutes, where `lay` may append it.
pub(crate) fn allowed_move<P: Program>(
    program: &P,
    capacity: usize,
    leaves: usize,
    minutes: u32,
    enters: usize,
) -> Result<Move, EditFault>
    ensures { LayTested capacity (P.Program.meaning program.now) leaves minutes enters result }
{
    let stages = program.stage_count();
    if leaves >= stages || enters >= stages {
        return Err(EditFault::NoStage);
    }
    if program.stage(leaves).kind == Kind::Silent || program.stage(enters).kind == Kind::Silent {
        return Err(EditFault::SilentStage);
    }
    if minutes > MOST_MINUTES as u32 {
        return Err(EditFault::TooLong);
    }
    if program.move_count() >= capacity {
        return Err(EditFault::MovesFull);
    }
    Ok(Move {
        leaves: leaves as u16,
        minutes: minutes as u16,
        enters: enters as u16,
    })
}

// What a cut appends to the stages.
pub const SILENT: Stage = Stage {
    marks: 0,
    kind: Kind::Silent,
};

// The two moves that a cut makes of one.
#[derive(Clone, Copy)]
pub struct Pieces {
    pub first: Move,
    pub second: Move,
}

// The pieces of move k, where `cut` may cut it `place` minutes after it begins, at a new last stage.
pub(crate) fn allowed_pieces<P: Program>(
    program: &P,
    stage_capacity: usize,
    move_capacity: usize,
    k: usize,
    place: u32,
) -> Result<Pieces, EditFault>
    ensures { CutTested (record { stages = stage_capacity; moves = move_capacity })
        (P.Program.meaning program.now) k place result }
{
    if k >= program.move_count() {
        return Err(EditFault::NoMove);
    }
    let whole = program.move_at(k);
    if place > whole.minutes as u32 {
        return Err(EditFault::TooLong);
    }
    let stages = program.stage_count();
    if stages >= stage_capacity {
        return Err(EditFault::StagesFull);
    }
    if program.move_count() >= move_capacity {
        return Err(EditFault::MovesFull);
    }
    let minutes = place as u16;
    let stage = stages as u16;
    let first = Move {
        minutes,
        enters: stage,
        ..whole
    };
    let second = Move {
        leaves: stage,
        minutes: whole.minutes - minutes,
        ..whole
    };
    Ok(Pieces { first, second })
}
