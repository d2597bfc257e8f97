// The sheet of a check: word s has bit k exactly for the lines k that hold at stage s.
// Rests on `program`, `rules`, the tallies and how they are settled, and the checker that `tctl` proves right.

#![tactic(auto)]

pub mod parts;
pub mod paths;
pub mod sheets;
mod stage_set;
pub mod tables;
pub mod told;
mod untils;
