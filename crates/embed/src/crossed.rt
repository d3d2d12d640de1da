// The answers as they cross to C and Rust: numbers beside their values.
use board::Board;
use policy::value::PolicyValue;

// The answer of reading: refusal 0 is an accepted text. Beside a refusal stand its line and the blank value, which check 11 refuses.
#[repr(C)]
#[derive(Clone, Copy)]
pub struct CrossedReading {
    pub refusal: u32,
    pub line: usize,
    pub policy: PolicyValue,
}

// How much was stored, or the refusal; refusal 0 is that it was stored.
#[repr(C)]
#[derive(Clone, Copy)]
pub struct Counted {
    pub refusal: u32,
    pub count: usize,
}

// NU and NO, or the refusal; refusal 0 is that they were found.
#[repr(C)]
#[derive(Clone, Copy)]
pub struct CrossedCounts {
    pub refusal: u32,
    pub users: u32,
    pub objects: u32,
}

// Answer 0 alike, 1 apart by this action and this object set, else the refusal.
#[repr(C)]
#[derive(Clone, Copy)]
pub struct Separation {
    pub answer: u32,
    pub action: u32,
    pub object: u32,
}

// The answer of a session call and the board after it.
#[repr(C)]
#[derive(Clone, Copy)]
pub struct CrossedStep {
    pub answer: u32,
    pub board: Board,
}
