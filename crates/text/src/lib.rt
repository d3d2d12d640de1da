// The parts of a policy text: lines and fields, numbers, and the kind words.
#![tactic(auto)]

pub mod kind;
pub mod number;
pub mod parts;
