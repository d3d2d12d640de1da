// What the engine gives for a line of a case file, as numbers, and whether it is what is stored there.
use formula::Decision;
use policy::refusal::Refusal;

// The answer; a count beside it; and the first place of a buffer that is not as stored. An answer is a number, as the
// stored cases have it.
#[derive(Clone, Copy, PartialEq, Eq)]
pub struct Found {
    pub answer: u32,
    pub count: usize,
    pub place: Option<usize>,
}

// The numbers of answers that are no refusals; the last two are for an unfounded `apart` and for a line of no kind.
pub const DONE: u32 = 0;

pub const GRANTED: u32 = 1;

pub const DENIED: u32 = 2;

pub const ALIKE: u32 = 3;

pub const APART: u32 = 4;

pub const UNFOUNDED: u32 = 98;

pub const NO_KIND: u32 = 99;

// An answer with nothing beside it.
pub fn bare(answer: u32) -> Found {
    counted(answer, 0)
}

// An answer with a count beside it.
pub fn counted(answer: u32, count: usize) -> Found {
    Found {
        answer,
        count,
        place: None,
    }
}

// A count, or the number of a refusal.
pub fn of_count(answer: Result<usize, Refusal>, place: Option<usize>) -> Found {
    match answer {
        Ok(count) => Found {
            answer: DONE,
            count,
            place,
        },
        Err(why) => Found {
            answer: u32::from(why),
            count: 0,
            place,
        },
    }
}

pub fn of_decision(decision: Result<Decision, Refusal>) -> u32 {
    match decision {
        Ok(Decision::Granted) => GRANTED,
        Ok(Decision::Denied) => DENIED,
        Err(why) => u32::from(why),
    }
}
