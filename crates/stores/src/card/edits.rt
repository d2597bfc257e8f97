// How a card is made, read and edited.
ghost use Rattle.std.specs.Prelude.{◌≡◌, ◌<◌, ◌≤◌};
ghost use Rattle.program.specs.Meaning.{empty, prog};
ghost use Rattle.stores.specs.Cards.{card_caps};
ghost use Rattle.std.proofs.Common.{arith};

use crate::allowed::{SILENT, allowed_move, allowed_pieces, allowed_stage, open_stage};
use crate::card::Card;
use crate::card::tables::{CARD_MOVES, CARD_STAGES, Table};
use crate::joint::find_joint;
use program::{EditFault, Move, NO_MOVE, NO_STAGE, Program, Stage, Store};

impl Card {
    // A card with no stage and no move.
    pub fn new() -> Card
        ensures { prog result.stages result.moves ≡ empty }
    {
        Card {
            stages: Table::new(NO_STAGE),
            moves: Table::new(NO_MOVE),
        }
    }
}

impl Program for Card {
    ghost meaning = { λ c. prog c.stages c.moves };

    ghost limits = { λ x. record {
      few_stages = omega arith;
      few_moves = omega arith;
      ends = x.ends;
    } };

    fn stage_count(&self) -> usize {
        self.stages.count()
    }

    fn move_count(&self) -> usize {
        self.moves.count()
    }

    fn stage(&self, s: usize) -> Stage {
        self.stages.in_use().get(s).copied().unwrap_or(NO_STAGE)
    }

    fn move_at(&self, k: usize) -> Move {
        self.moves.in_use().get(k).copied().unwrap_or(NO_MOVE)
    }
}

// Writes the marks of the one record that a table lends.
fn set_marks(lent: &mut Stage, marks: u16)
    ensures { lent.new ≡ record { marks = marks; kind = lent.old.kind } }
{
    lent.marks = marks;
}

impl Store for Card {
    ghost room = { λ _. card_caps };

    ghost rooms = { λ _. (omega arith, omega arith) };

    fn stage_capacity(&self) -> usize {
        CARD_STAGES
    }

    fn move_capacity(&self) -> usize {
        CARD_MOVES
    }

    fn open(&mut self, marks: u16) -> Result<usize, EditFault> {
        let opened = allowed_stage(self, CARD_STAGES, marks)?;
        Ok(self.stages.push(opened))
    }

    fn mark(&mut self, stage: usize, marks: u16) -> Result<usize, EditFault> {
        open_stage(self, stage)?;
        let stages = &mut self.stages;
        set_marks(&mut stages.table.records[stage], marks);
        Ok(stage)
    }

    fn lay(&mut self, leaves: usize, minutes: u32, enters: usize) -> Result<usize, EditFault> {
        let laid = allowed_move(self, CARD_MOVES, leaves, minutes, enters)?;
        Ok(self.moves.push(laid))
    }

    fn cut(&mut self, k: usize, place: u32) -> Result<usize, EditFault> {
        let pieces = allowed_pieces(self, CARD_STAGES, CARD_MOVES, k, place)?;
        self.moves.replace(k, pieces.first);
        self.moves.push(pieces.second);
        Ok(self.stages.push(SILENT))
    }

    fn join(&mut self) -> Result<usize, EditFault> {
        let joint = find_joint(self).ok_or(EditFault::NothingToJoin)?;
        self.moves.replace(joint.into, joint.whole);
        self.moves.take_out(joint.out_of);
        self.stages.take_out(joint.stage);
        Ok(joint.stage)
    }
}
