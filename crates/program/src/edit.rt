// The edits of a store as values, so that lists of them can be kept and made.
ghost use Rattle.std.specs.Prelude.{◌≡◌};
ghost use Rattle.program.specs.Edits.{Does};
ghost use Rattle.program.specs.Steps.{step};
ghost use Rattle.program.specs.Tidy.{Tidy, StaysTidy};

use crate::{EditFault, Store};

// An edit, with what it is given.
#[derive(Clone, Copy, PartialEq, Eq, Debug)]
pub enum Edit {
    Open {
        marks: u16,
    },
    Mark {
        stage: usize,
        marks: u16,
    },
    Lay {
        leaves: usize,
        minutes: u32,
        enters: usize,
    },
    Cut {
        k: usize,
        place: u32,
    },
    Join,
}

impl Edit {
    // Makes the edit on a store.
    pub fn make<S: Store>(self, store: &mut S) -> Result<usize, EditFault>
        ensures does { Tidy (S.Program.meaning store.old)
            → Does (step (S.room store.old) (S.Program.meaning store.old) self) result
            (S.Program.meaning store.new) }
        ensures tidy { StaysTidy (S.Program.meaning store.old)
            (S.Program.meaning store.new) }
        ensures kept { S.room store.new ≡ S.room store.old }
    {
        match self {
            Edit::Open { marks } => store.open(marks),
            Edit::Mark { stage, marks } => store.mark(stage, marks),
            Edit::Lay {
                leaves,
                minutes,
                enters,
            } => store.lay(leaves, minutes, enters),
            Edit::Cut { k, place } => store.cut(k, place),
            Edit::Join => store.join(),
        }
    }
}
