// A card: a small store with room of its own for 64 stages and 256 moves.
// The ghost fields hold between any two calls.
pub mod edits;
pub mod tables;

ghost use Rattle.std.specs.Prelude.{◌≤◌, length};
ghost use Rattle.program.specs.Meaning.{prog};
ghost use Rattle.stores.specs.Allowed.{Ends};
ghost use Rattle.stores.specs.Cards.{card_stages, card_moves};

use program::{Move, Stage};
use tables::{CARD_MOVES, CARD_STAGES, Table};

#[derive(Drop)]
pub struct Card {
    stages: Table<Stage, CARD_STAGES>,
    moves: Table<Move, CARD_MOVES>,
    ghost stage_room: { length stages ≤ card_stages },
    ghost move_room: { length moves ≤ card_moves },
    ghost ends: { Ends (prog stages moves) },
}
