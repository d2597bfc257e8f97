// Programs of stages and moves: what they are made of, how any of them is read, and how a store of one is edited.
// Rests on the timed graphs of `tctl`, to which a program's two lists are taken.

#![tactic(auto)]

ghost use Rattle.std.specs.Prelude.{◌≡◌, ℕ, ◌≤◌, length, Some};
ghost use Rattle.program.specs.Meaning.{Prog, Limits, stage_at, move_at, most_stages, most_moves};
ghost use Rattle.program.specs.Edits.{Caps, Does, open_step, mark_step, lay_step, cut_step, join_step};
ghost use Rattle.program.specs.Edits.{fault_number, fault_text};
ghost use Rattle.program.specs.Tidy.{Tidy, StaysTidy};
ghost use Rattle.program.specs.Ends.{end_of};

use std::error::Error;
use std::fmt;

pub mod edit;
pub mod lists;

// The most stages and moves of a program, and the most minutes of a move (a week).
pub const MOST_STAGES: usize = 1024;

pub const MOST_MOVES: usize = 4096;

pub const MOST_MINUTES: u16 = 10080;

// A stage is open, or silent: a silent one only joins the pieces of one hold, and no rule line holds there.
#[derive(Clone, Copy, PartialEq, Eq, Debug, Default)]
pub enum Kind {
    #[default]
    Open,
    Silent,
}

// A stage bears marks out of the letters a to p, bit by bit: mark a is bit 0.
#[derive(Clone, Copy, PartialEq, Eq, Debug, Default)]
pub struct Stage {
    pub marks: u16,
    pub kind: Kind,
}

// A move leads from the stage it leaves to the stage it enters, in whole minutes.
#[derive(Clone, Copy, PartialEq, Eq, Debug, Default)]
pub struct Move {
    pub leaves: u16,
    pub minutes: u16,
    pub enters: u16,
}

// An end of a move: the stage that it leaves, or the one that it enters.
#[derive(Clone, Copy, PartialEq, Eq, Debug)]
pub enum End {
    Leaves,
    Enters,
}

impl Move {
    // The stage at an end.
    pub fn end(self, end: End) -> u16
        ensures { result ≡ end_of end self }
    {
        match end {
            End::Leaves => self.leaves,
            End::Enters => self.enters,
        }
    }
}

// Why an edit was refused, by the number of the refusal.
#[derive(Clone, Copy, PartialEq, Eq, Debug)]
pub enum EditFault {
    // a stage not below the count
    NoStage = 1,
    // a silent stage
    SilentStage = 2,
    // a move not below the count
    NoMove = 3,
    // more than MOST_MINUTES, or a place of a cut above the move's minutes
    TooLong = 4,
    // as many stages as the capacity
    StagesFull = 5,
    // as many moves as the capacity
    MovesFull = 6,
    // no stage, or an open one as the last
    NothingToJoin = 7,
}

impl EditFault {
    // The number of the refusal.
    pub fn number(self) -> u8
        ensures { result ≡ fault_number self }
    {
        self as u8
    }
}

impl fmt::Display for EditFault {
    ghost output = { λ e. Some (fault_text e) };

    fn fmt<W: fmt::Write>(&self, f: &mut fmt::Formatter<W>) -> fmt::Result {
        match self {
            EditFault::NoStage => write!(f, "there is no such stage"),
            EditFault::SilentStage => write!(f, "the stage is silent"),
            EditFault::NoMove => write!(f, "there is no such move"),
            EditFault::TooLong => write!(f, "the move takes more than {MOST_MINUTES} minutes"),
            EditFault::StagesFull => write!(f, "there are too many stages"),
            EditFault::MovesFull => write!(f, "there are too many moves"),
            EditFault::NothingToJoin => write!(f, "the last stage is not a silent one"),
        }
    }
}

impl Error for EditFault {}

// What a stage or a move not below the count is answered as: an answer and no Option, which the project asks for.
pub const NO_STAGE: Stage = Stage {
    marks: 0,
    kind: Kind::Open,
};

pub const NO_MOVE: Move = Move {
    leaves: 0,
    minutes: 0,
    enters: 0,
};

// A readable program. Its meaning is its two lists; a question changes nothing, and its answer comes from them alone.
pub trait Program {
    ghost meaning: { Self → Prog };

    fn stage_count(&self) -> usize
        ensures { result ≡ length (meaning self.now).stages };

    fn move_count(&self) -> usize
        ensures { result ≡ length (meaning self.now).moves };

    fn stage(&self, s: usize) -> Stage
        ensures { result ≡ stage_at (meaning self.now) s };

    fn move_at(&self, k: usize) -> Move
        ensures { result ≡ move_at (meaning self.now) k };

    ghost limits: { (x : Self) → Limits (meaning x) };
}

// A store: a program that can be edited in place. It adds two capacities, fixed when it is made. Each edit promises
// that it does what its step says, that a tidy program stays tidy, and that the capacities are kept: at each edit, and
// by no law of the trait, which the project asks for.
pub trait Store: Program {
    ghost room: { Self → Caps };

    fn stage_capacity(&self) -> usize
        ensures { result ≡ (room self.now).stages };

    fn move_capacity(&self) -> usize
        ensures { result ≡ (room self.now).moves };

    // Appends an open stage, and answers its number.
    fn open(&mut self, marks: u16) -> Result<usize, EditFault>
        ensures does { Does
            (open_step (room self.old) (Self.Program.meaning self.old) marks) result
            (Self.Program.meaning self.new) }
        ensures tidy { StaysTidy (Self.Program.meaning self.old)
            (Self.Program.meaning self.new) }
        ensures kept { room self.new ≡ room self.old };

    // Replaces the marks of an open stage, and answers its number.
    fn mark(&mut self, stage: usize, marks: u16) -> Result<usize, EditFault>
        ensures does { Does
            (mark_step (Self.Program.meaning self.old) stage marks) result
            (Self.Program.meaning self.new) }
        ensures tidy { StaysTidy (Self.Program.meaning self.old)
            (Self.Program.meaning self.new) }
        ensures kept { room self.new ≡ room self.old };

    // Appends a move between open stages, and answers its number.
    fn lay(&mut self, leaves: usize, minutes: u32, enters: usize) -> Result<usize, EditFault>
        ensures does { Does
            (lay_step (room self.old) (Self.Program.meaning self.old) leaves minutes enters) result
            (Self.Program.meaning self.new) }
        ensures tidy { StaysTidy (Self.Program.meaning self.old)
            (Self.Program.meaning self.new) }
        ensures kept { room self.new ≡ room self.old };

    // Makes two moves of move k, joined by a new silent stage `place` minutes after the move begins, and answers the
    // new stage's number.
    fn cut(&mut self, k: usize, place: u32) -> Result<usize, EditFault>
        ensures does { Does
            (cut_step (room self.old) (Self.Program.meaning self.old) k place) result
            (Self.Program.meaning self.new) }
        ensures tidy { StaysTidy (Self.Program.meaning self.old)
            (Self.Program.meaning self.new) }
        ensures kept { room self.new ≡ room self.old };

    // Makes one move of the two that the last stage, a silent one, joins, and answers the number of the stage taken
    // out. The step is promised of a tidy program: only there are these just two, and their minutes a move's.
    fn join(&mut self) -> Result<usize, EditFault>
        ensures does { Tidy (Self.Program.meaning self.old)
            → Does (join_step (Self.Program.meaning self.old)) result
            (Self.Program.meaning self.new) }
        ensures tidy { StaysTidy (Self.Program.meaning self.old)
            (Self.Program.meaning self.new) }
        ensures kept { room self.new ≡ room self.old };

    ghost rooms: { (x : Self) → ((room x).stages ≤ most_stages) × ((room x).moves ≤ most_moves) };
}
