// A line of a policy text taken apart: its kind and its numbers, and the rule that its words are.
#![tactic(auto)]

pub mod head;
pub mod rule;
