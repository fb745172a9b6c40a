// The program's input (document 01, "The program"): question 13, and the request that the bytes hold.
#![tactic(auto)]

mod input;

pub use input::{Head, Input};

// Group, two dates, A and list length.
pub const HEAD_LENGTH: usize = 15;

// The longest input.
pub const LONGEST_INPUT: usize = 65_536;

// One entry more than a list may have: question 9 asks about no later one.
pub const LIST_ROOM: usize = 401;
