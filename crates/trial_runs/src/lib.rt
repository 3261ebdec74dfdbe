// The kinds of comparison: all small logs and files, and long logs.
#![tactic(auto)]

pub mod long;
pub mod small;
