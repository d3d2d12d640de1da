// What the lister writes for a text, its report.
#![tactic(auto)]

pub mod chunks;
mod counts;
mod cursor;
mod lines;
mod listed;
mod runs;

pub use cursor::{Chunk, Cursor};
