// The policy value that every call is handed, the limits that it keeps to, and the refusals that calls give.
#![tactic(auto)]

pub mod limits;
pub mod refusal;
pub mod stored;
pub mod value;
