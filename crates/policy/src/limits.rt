// The limits of documents 01 and 02, each in one place; every array's length and every bound follows from these, by
// name.
ghost use Rattle.std.specs.Prelude.{◌≡◌};
ghost use Rattle.policy.specs.Limits as limits;

// The most bytes of a text.
pub const TEXT_BYTES: usize = 8192;

// The forms. The second has more actions than the first, the third more values than both. A form stays a number in
// the policy value, which crosses to C and may hold any.
const FORM_1: u32 = 1;

const FORM_2: u32 = 2;

const FORM_3: u32 = 3;

const FORM_1_VALUES: u32 = 7;

const FORM_3_VALUES: u32 = 9;

const FORM_1_ACTIONS: u32 = 8;

const FORM_2_ACTIONS: u32 = 16;

// The most of any form, for which arrays have places.
pub const MOST_VALUES: usize = 9;

pub const MOST_ACTIONS: usize = 16;

pub const USER_NUMBERS: u32 = 32;

pub const OBJECT_NUMBERS: u32 = 64;

pub const SESSION_NUMBERS: u32 = 32;

// The most words of a formula.
pub const MOST_WORDS: usize = 32;

// The most conflict lines, and the greatest number of values that one may allow together.
pub const MOST_CONFLICTS: usize = 16;

pub const MOST_TOGETHER: u32 = 7;

// The most pair lines.
pub const MOST_PAIRS: usize = 64;

// The most sets of a side, and the most tuples: one for each user set and object set.
pub const MOST_SETS: usize = 1 << MOST_VALUES;

pub const MOST_TUPLES: usize = MOST_SETS * MOST_SETS;

// The most seniority lines of a side: one for each two values.
pub const MOST_LINES: usize = MOST_VALUES * (MOST_VALUES - 1) / 2;

// In how many bits a label is stored, and a table's entry.
#[derive(Clone, Copy, PartialEq, Eq)]
pub struct Widths {
    pub label: u32,
    pub entry: u32,
}

// The stored widths that calls are made for.
pub const WIDTHS_8_8: Widths = Widths { label: 8, entry: 8 };

pub const WIDTHS_8_16: Widths = Widths {
    label: 8,
    entry: 16,
};

pub const WIDTHS_16_16: Widths = Widths {
    label: 16,
    entry: 16,
};

// The width of what is stored in a byte.
pub const BYTE: u32 = 8;

// The stored widths of tuples.
pub const TUPLE_16: u32 = 16;

pub const TUPLE_32: u32 = 32;

pub fn is_form(form: u32) -> bool
    ensures { result ≡ limits.is_form form }
{
    matches!(form, FORM_1 | FORM_2 | FORM_3)
}

// The greatest width and sum of a side.
#[tactic(auto, unfolding(crate::specs::Limits::values))]
pub fn values(form: u32) -> u32
    ensures { result ≡ limits.values form }
{
    if form == FORM_3 {
        FORM_3_VALUES
    } else {
        FORM_1_VALUES
    }
}

#[tactic(auto, unfolding(crate::specs::Limits::actions))]
pub fn actions(form: u32) -> u32
    ensures { result ≡ limits.actions form }
{
    if form == FORM_1 {
        FORM_1_ACTIONS
    } else {
        FORM_2_ACTIONS
    }
}

// The stored widths of a form.
#[tactic(auto, unfolding(crate::specs::Limits::stored_widths))]
fn stored_widths(form: u32) -> Widths
    ensures { result ≡ limits.stored_widths form }
{
    match form {
        FORM_1 => WIDTHS_8_8,
        FORM_3 => WIDTHS_16_16,
        _ => WIDTHS_8_16,
    }
}

// In how many bits a form stores a tuple.
#[tactic(auto, unfolding(crate::specs::Limits::tuple_bits))]
pub fn tuple_bits(form: u32) -> u32
    ensures { result ≡ limits.tuple_bits form }
{
    if form == FORM_3 { TUPLE_32 } else { TUPLE_16 }
}

// Whether a call that is made for these widths is made for the form's own.
#[tactic(auto, unfolding(crate::specs::Limits::own_widths))]
pub fn own_widths(form: u32, asked: Widths) -> bool
    ensures { result ≡ limits.own_widths form asked }
{
    asked == stored_widths(form)
}
