// Sessions: any list of calls on any store. What their answers promise, that a check names exactly what holds minute by
// minute and that cutting changes no verdict, is on the contract of `perform`. Rests on the check and on `cutting`.

#![tactic(auto)]

pub mod calls;
pub mod session;

pub use crate::session::perform;
