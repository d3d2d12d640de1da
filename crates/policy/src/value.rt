// The policy value: what the text says, line by line and in text order; every place past a count is blank. It crosses to
// C as it is: a count beside each array, numbers for forms and words, and any bytes may come in, so no invariants.
ghost use Rattle.std.specs.Prelude.{◌≡◌, []};
ghost use Rattle.policy.specs.Policy.{blank_side, blank};
ghost use Rattle.policy.specs.Value.{side_value, register, value_of};

use crate::limits;
use crate::refusal::Refusal;
use seniority::Direct;

// The places of each array of a policy value.
pub const WIDTH_PLACES: usize = limits::MOST_VALUES;

pub const LINE_PLACES: usize = limits::MOST_LINES;

pub const ENTRY_PLACES: usize = limits::OBJECT_NUMBERS as usize;

pub const CONFLICT_PLACES: usize = limits::MOST_CONFLICTS;

pub const WORD_PLACES: usize = limits::MOST_WORDS;

pub const RULE_PLACES: usize = limits::MOST_ACTIONS;

pub const PAIR_PLACES: usize = limits::MOST_PAIRS;

// One side, users or objects: the widths of its attributes and its direct seniorities.
#[repr(C)]
#[derive(Clone, Copy)]
pub struct SideValue {
    pub attributes: usize,
    pub widths: [u32; WIDTH_PLACES],
    pub lines: usize,
    pub seniority: [Direct; LINE_PLACES],
}

// A registered user or object: its number and its set.
#[repr(C)]
#[derive(Clone, Copy, Default)]
pub struct Entry {
    pub number: u32,
    pub set: u32,
}

// The registered users, or objects; of users there are fewer than places.
#[repr(C)]
#[derive(Clone, Copy)]
pub struct Register {
    pub count: usize,
    pub entries: [Entry; ENTRY_PLACES],
}

// A conflict line: a set of user values, and how many of them a session may hold at most.
#[repr(C)]
#[derive(Clone, Copy, Default)]
pub struct Conflict {
    pub set: u32,
    pub most: u32,
}

#[repr(C)]
#[derive(Clone, Copy)]
pub struct Conflicts {
    pub count: usize,
    pub entries: [Conflict; CONFLICT_PLACES],
}

// A rule: its action and the words of its formula, each by its number.
#[repr(C)]
#[derive(Clone, Copy, Default)]
pub struct RuleValue {
    pub action: u32,
    pub count: usize,
    pub words: [u8; WORD_PLACES],
}

#[repr(C)]
#[derive(Clone, Copy)]
pub struct Rules {
    pub count: usize,
    pub entries: [RuleValue; RULE_PLACES],
}

// A pair line: its action, a user value and an object value.
#[repr(C)]
#[derive(Clone, Copy, Default)]
pub struct Pair {
    pub action: u32,
    pub user: u32,
    pub object: u32,
}

#[repr(C)]
#[derive(Clone, Copy)]
pub struct Pairs {
    pub count: usize,
    pub entries: [Pair; PAIR_PLACES],
}

#[repr(C)]
#[derive(Clone, Copy)]
pub struct PolicyValue {
    pub form: u32,
    pub user: SideValue,
    pub object: SideValue,
    pub users: Register,
    pub objects: Register,
    pub conflicts: Conflicts,
    pub rules: Rules,
    pub pairs: Pairs,
}

// A side with no line.
fn blank_side() -> SideValue
    ensures { result ≡ side_value blank_side }
{
    SideValue {
        attributes: 0,
        widths: [0; WIDTH_PLACES],
        lines: 0,
        seniority: [Direct::default(); LINE_PLACES],
    }
}

// No user and no object.
fn blank_register() -> Register
    ensures { result ≡ register [] }
{
    Register {
        count: 0,
        entries: [Entry::default(); ENTRY_PLACES],
    }
}

// The blank value, which crosses to C beside a refusal: no line of any kind. Check 11 refuses it.
pub fn blank() -> PolicyValue
    ensures { result ≡ value_of blank }
{
    // No derived `Default`: arrays have it up to 32 places, and a side's lines, a register and the pairs have more.
    // Each side and each register is made in its place, so that it is not copied there.
    PolicyValue {
        form: 0,
        user: blank_side(),
        object: blank_side(),
        users: blank_register(),
        objects: blank_register(),
        conflicts: Conflicts {
            count: 0,
            entries: [Conflict::default(); CONFLICT_PLACES],
        },
        rules: Rules {
            count: 0,
            entries: [RuleValue::default(); RULE_PLACES],
        },
        pairs: Pairs {
            count: 0,
            entries: [Pair::default(); PAIR_PLACES],
        },
    }
}

// Why reading refuses a text: the refusal, and the line that breaks it.
#[derive(Clone, Copy, PartialEq, Eq)]
pub struct Rejection {
    pub refusal: Refusal,
    pub line: usize,
}
