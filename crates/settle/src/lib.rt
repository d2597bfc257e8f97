// The fast inner engine of a check, with no heap: tables of tallies by a few passes over all moves or by a queue of
// the stages whose value changed, and the endless part of a set by watched moves, over moves chained by their ends.
// Rests on `program` and `tally`, and on the endless part as `tctl` defines it.

#![tactic(auto)]

pub mod endless;
pub mod links;
mod queue;
mod removal;
pub mod table;
