// Checks 6 to 9 of a line, each on the little that it needs of the lines before it.
#![tactic(auto)]

pub mod formula;
mod mask;
pub mod rising;
pub mod shape;
