// The calls on a store, and their answers.
use checker::CheckFault;
use program::EditFault;
use program::edit::Edit;

// An edit, or a check of a rule by its text.
#[derive(Clone, PartialEq, Eq, Debug, Drop)]
pub enum Call {
    Edit(Edit),
    Check(Vec<u8>),
}

// What an accepted check tells: how many lines its rule has, and a word for each stage, in which value 2^k is set for
// the lines k that hold there.
#[derive(Clone, PartialEq, Eq, Debug, Drop)]
pub struct Verdict {
    pub lines: usize,
    pub words: Vec<u32>,
}

#[derive(Clone, PartialEq, Eq, Debug, Drop)]
pub enum Answer {
    Edited(Result<usize, EditFault>),
    Checked(Result<Verdict, CheckFault>),
}

// There was no memory for the next answer. The calls that these answer were made, and no other.
#[derive(PartialEq, Eq, Debug, Drop)]
pub struct OutOfMemory {
    pub answers: Vec<Answer>,
}
