// Makes of store of a program: a card, with tables of its own, a tray, in memory that its user lends, and a plain store
// over any other. Each keeps the promises of `program::Store`; none takes heap memory.

#![tactic(auto)]

mod allowed;
pub mod card;
mod joint;
pub mod plain;
pub mod tray;
