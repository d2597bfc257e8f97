// Readable programs that are not stores: a schedule, worked out from a list of segments, and the minute by minute view
// of any readable program. Neither takes heap memory.

#![tactic(auto)]

pub mod minute;
pub mod schedule;
#[cfg(test)]
mod tests;
