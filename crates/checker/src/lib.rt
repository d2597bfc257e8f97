// The check of a rule on any readable program: `check` reads the text, tests program and memory, and names on the sheet
// the stages at which each line of the rule holds. Rests on the reader, on the sheet of a check, and, below them, on
// tallies, rules, programs and the theory of runs.

#![tactic(auto)]

pub mod desk;
pub mod faults;
pub mod rows;
pub mod run;
pub mod tests;
pub mod theorems;

pub use crate::desk::Desk;
pub use crate::faults::CheckFault;
pub use crate::run::check;
