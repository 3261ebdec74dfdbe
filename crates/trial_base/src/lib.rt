// What the trial stands on: the tally of a kind of comparison, the way in which tables are lent, and the logs that are tried.
#![tactic(auto)]

pub mod calls;
pub mod line;
pub mod logs;
pub mod tally;
pub mod way;
