// A store that passes every call on to another: what is promised of any store holds of it too.
ghost use Rattle.std.proofs.Common.{rules};

use program::{EditFault, Move, Program, Stage, Store};

// A store, and nothing beside it.
pub struct Plain<S> {
    pub store: S,
}

impl<S: Program> Program for Plain<S> {
    ghost meaning = { λ x. S.Program.meaning x.store };

    ghost limits = { Prim.search rules };

    fn stage_count(&self) -> usize {
        self.store.stage_count()
    }

    fn move_count(&self) -> usize {
        self.store.move_count()
    }

    fn stage(&self, s: usize) -> Stage {
        self.store.stage(s)
    }

    fn move_at(&self, k: usize) -> Move {
        self.store.move_at(k)
    }
}

impl<S: Store> Store for Plain<S> {
    ghost room = { λ x. S.Store.room x.store };

    ghost rooms = { Prim.search rules };

    fn stage_capacity(&self) -> usize {
        self.store.stage_capacity()
    }

    fn move_capacity(&self) -> usize {
        self.store.move_capacity()
    }

    fn open(&mut self, marks: u16) -> Result<usize, EditFault> {
        self.store.open(marks)
    }

    fn mark(&mut self, stage: usize, marks: u16) -> Result<usize, EditFault> {
        self.store.mark(stage, marks)
    }

    fn lay(&mut self, leaves: usize, minutes: u32, enters: usize) -> Result<usize, EditFault> {
        self.store.lay(leaves, minutes, enters)
    }

    fn cut(&mut self, k: usize, place: u32) -> Result<usize, EditFault> {
        self.store.cut(k, place)
    }

    fn join(&mut self) -> Result<usize, EditFault> {
        self.store.join()
    }
}
