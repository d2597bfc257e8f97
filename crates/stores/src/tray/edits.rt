// How a tray is made, read and edited.
ghost use Rattle.std.specs.Prelude.{◌≡◌};
ghost use Rattle.program.specs.Meaning.{empty};
ghost use Rattle.stores.specs.InTray.{tray_meaning, tray_room, SameLoan, KeepsTidy};
ghost use Rattle.stores.specs.InTray.{OpenDone, MarkDone, LayDone, CutDone, JoinDone};
ghost use Rattle.stores.specs.Trays.{Image, SameLengths};
ghost use Rattle.stores.specs.Records.{stage_layout, move_layout};
ghost use Rattle.std.proofs.Common.{arith};
ghost use Rattle.stores.specs.InUse.{length_in_use};

use crate::allowed::{SILENT, allowed_move, allowed_pieces, allowed_stage, open_stage};
use crate::joint::find_joint;
use crate::tray::Tray;
use crate::tray::areas::Areas;
use crate::tray::records::{MOVE_BYTES, STAGE_BYTES, put, read, take_out};
use program::{EditFault, MOST_MOVES, MOST_STAGES, Move, NO_MOVE, NO_STAGE, Program, Stage, Store};

impl<'a> Tray<'a> {
    // A tray with no stage and no move: every byte of the areas is set to 0.
    pub fn new(areas: &'a mut Areas) -> Tray<'a>
        ensures holds { tray_meaning result ≡ empty }
        ensures zeros { Image empty result.areas.now }
        ensures long { SameLengths areas.old result.areas.now }
        ensures loan { result.areas.ghost_name ≡ areas.entry.ghost_name }
    {
        areas.stages.fill(0);
        areas.moves.fill(0);
        Tray {
            areas,
            stage_count: 0,
            move_count: 0,
        }
    }

    // The areas as they are now.
    pub fn areas(&self) -> &Areas
        ensures same { result.now ≡ self.now.areas.now }
        ensures image { Image (tray_meaning self.now) result.now }
    {
        self.areas
    }
}

#[tactic(auto, using(crate::specs::InUse::stages_counted, crate::specs::InUse::moves_counted))]
impl<'a> Program for Tray<'a> {
    ghost meaning = { tray_meaning };

    ghost limits = { λ x. record {
      few_stages = omega (arith, length_in_use stage_layout x.stage_count x.areas.now.stages.items);
      few_moves = omega (arith, length_in_use move_layout x.move_count x.areas.now.moves.items);
      ends = x.ends;
    } };

    fn stage_count(&self) -> usize {
        self.stage_count
    }

    fn move_count(&self) -> usize {
        self.move_count
    }

    fn stage(&self, s: usize) -> Stage {
        if s < self.stage_count {
            read(&self.areas.stages, s)
        } else {
            NO_STAGE
        }
    }

    fn move_at(&self, k: usize) -> Move {
        if k < self.move_count {
            read(&self.areas.moves, k)
        } else {
            NO_MOVE
        }
    }
}

#[tactic(auto, using(crate::specs::InUse::stages_counted, crate::specs::InUse::moves_counted))]
impl<'a> Store for Tray<'a> {
    ghost room = { tray_room };

    ghost rooms = { λ _. (omega arith, omega arith) };

    fn stage_capacity(&self) -> usize {
        (self.areas.stages.len() / STAGE_BYTES).min(MOST_STAGES)
    }

    fn move_capacity(&self) -> usize {
        (self.areas.moves.len() / MOVE_BYTES).min(MOST_MOVES)
    }

    fn open(&mut self, marks: u16) -> Result<usize, EditFault>
        ensures does { OpenDone self.old marks result self.new }
        ensures tidy { KeepsTidy self.old self.new }
        ensures kept { tray_room self.new ≡ tray_room self.old }
        ensures stays { SameLoan self.old self.new }
    {
        let opened = allowed_stage(self, self.stage_capacity(), marks)?;
        let n = self.stage_count;
        put(&mut self.areas.stages, n, opened);
        self.stage_count = n + 1;
        Ok(n)
    }

    fn mark(&mut self, stage: usize, marks: u16) -> Result<usize, EditFault>
        ensures does { MarkDone self.old stage marks result self.new }
        ensures tidy { KeepsTidy self.old self.new }
        ensures kept { tray_room self.new ≡ tray_room self.old }
        ensures stays { SameLoan self.old self.new }
    {
        let found = open_stage(self, stage)?;
        put(&mut self.areas.stages, stage, Stage { marks, ..found });
        Ok(stage)
    }

    fn lay(&mut self, leaves: usize, minutes: u32, enters: usize) -> Result<usize, EditFault>
        ensures does { LayDone self.old leaves minutes enters result self.new }
        ensures tidy { KeepsTidy self.old self.new }
        ensures kept { tray_room self.new ≡ tray_room self.old }
        ensures stays { SameLoan self.old self.new }
    {
        let laid = allowed_move(self, self.move_capacity(), leaves, minutes, enters)?;
        let n = self.move_count;
        put(&mut self.areas.moves, n, laid);
        self.move_count = n + 1;
        Ok(n)
    }

    fn cut(&mut self, k: usize, place: u32) -> Result<usize, EditFault>
        ensures does { CutDone self.old k place result self.new }
        ensures tidy { KeepsTidy self.old self.new }
        ensures kept { tray_room self.new ≡ tray_room self.old }
        ensures stays { SameLoan self.old self.new }
    {
        let pieces = allowed_pieces(self, self.stage_capacity(), self.move_capacity(), k, place)?;
        let n = self.move_count;
        put(&mut self.areas.moves, k, pieces.first);
        put(&mut self.areas.moves, n, pieces.second);
        self.move_count = n + 1;
        let stage = self.stage_count;
        put(&mut self.areas.stages, stage, SILENT);
        self.stage_count = stage + 1;
        Ok(stage)
    }

    fn join(&mut self) -> Result<usize, EditFault>
        ensures does { JoinDone self.old result self.new }
        ensures tidy { KeepsTidy self.old self.new }
        ensures kept { tray_room self.new ≡ tray_room self.old }
        ensures stays { SameLoan self.old self.new }
    {
        let joint = find_joint(self).ok_or(EditFault::NothingToJoin)?;
        let stages = self.stage_count;
        let n = self.move_count;
        put(&mut self.areas.moves, joint.into, joint.whole);
        take_out(&mut self.areas.moves, MOVE_BYTES, n, joint.out_of);
        self.move_count = n - 1;
        take_out(&mut self.areas.stages, STAGE_BYTES, stages, joint.stage);
        self.stage_count = joint.stage;
        Ok(joint.stage)
    }
}
