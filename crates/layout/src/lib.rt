// The layout of a console page: lines with stages, then lines with moves, then lines with rules. Says what each line is
// read as, and lays stages and moves into any store, line by line, up to the first line that is out of form or refused.
// Rests on `program`.

#![tactic(auto)]

pub mod faults;
pub mod line;
pub mod loading;
pub mod marks;
pub mod number;
mod split;
