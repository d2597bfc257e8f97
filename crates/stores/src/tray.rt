// A tray: a store whose records lie in two byte areas that its user lends, one for stages and one for moves.
// The areas hold the bytes of the records in use and zeros behind them, between any two calls.
// They are lent together, in one loan: of a struct that a call makes of two, the lender does not learn what it left.
pub mod areas;
pub mod edits;
mod records;

ghost use Rattle.std.specs.Prelude.{◌≤◌, vec_len};
ghost use Rattle.stores.specs.Allowed.{Ends};
ghost use Rattle.stores.specs.Areas.{Holds};
ghost use Rattle.stores.specs.Records.{stage_layout, move_layout};
ghost use Rattle.stores.specs.Trays.{room_for_stages, room_for_moves, areas_prog};

use areas::Areas;

#[derive(Drop)]
pub struct Tray<'a> {
    areas: &'a mut Areas,
    stage_count: usize,
    move_count: usize,
    ghost stage_area: { Holds stage_layout stage_count areas.now.stages.items },
    ghost move_area: { Holds move_layout move_count areas.now.moves.items },
    ghost stage_room: { stage_count ≤ room_for_stages (vec_len areas.now.stages) },
    ghost move_room: { move_count ≤ room_for_moves (vec_len areas.now.moves) },
    ghost ends: { Ends (areas_prog stage_count move_count areas.now) },
}
