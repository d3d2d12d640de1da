// The eleven words that a line may start with, and which kind may follow which.
ghost use Rattle.std.specs.Prelude.{◌≡◌};
ghost use Rattle.text.specs.Kind.{named, layout_of, place_of, follows};

#[derive(Clone, Copy, PartialEq, Eq)]
pub enum Kind {
    Policy,
    Uattr,
    Oattr,
    Usen,
    Osen,
    User,
    Object,
    Conflict,
    Rule,
    Pair,
    End,
}

// The word of each kind, which the reader compares and the writer writes.
pub const POLICY: [u8; 6] = *b"policy";

pub const UATTR: [u8; 5] = *b"uattr";

pub const OATTR: [u8; 5] = *b"oattr";

pub const USEN: [u8; 4] = *b"usen";

pub const OSEN: [u8; 4] = *b"osen";

pub const USER: [u8; 4] = *b"user";

pub const OBJECT: [u8; 6] = *b"object";

pub const CONFLICT: [u8; 8] = *b"conflict";

pub const RULE: [u8; 4] = *b"rule";

pub const PAIR: [u8; 4] = *b"pair";

pub const END: [u8; 3] = *b"end";

// What stands behind a kind's word: nothing, one, two or three numbers, or an action and the words of a formula.
#[derive(Clone, Copy)]
pub enum Layout {
    Bare,
    One,
    Two,
    Three,
    Formula,
}

// The kind that a first field names.
#[tactic(auto, using(crate::proofs::Naming::same_pointwise), unfolding(crate::specs::Kind::named_in))]
pub fn parse(f: &[u8]) -> Option<Kind>
    ensures { result ≡ named f.now }
{
    // Tests in turn, and no patterns: of a pattern that did not fit, the check knows too little.
    let kind = match f {
        _ if f == POLICY.as_slice() => Kind::Policy,
        _ if f == UATTR.as_slice() => Kind::Uattr,
        _ if f == OATTR.as_slice() => Kind::Oattr,
        _ if f == USEN.as_slice() => Kind::Usen,
        _ if f == OSEN.as_slice() => Kind::Osen,
        _ if f == USER.as_slice() => Kind::User,
        _ if f == OBJECT.as_slice() => Kind::Object,
        _ if f == CONFLICT.as_slice() => Kind::Conflict,
        _ if f == RULE.as_slice() => Kind::Rule,
        _ if f == PAIR.as_slice() => Kind::Pair,
        _ if f == END.as_slice() => Kind::End,
        _ => return None,
    };
    Some(kind)
}

// A kind's place in the list of eleven. A function, whose clause says what the discriminants are.
fn place(k: Kind) -> usize
    ensures { result ≡ place_of k }
{
    k as usize
}

pub fn layout_of(k: Kind) -> Layout
    ensures { result ≡ layout_of k }
{
    match k {
        Kind::Policy | Kind::Uattr | Kind::Oattr => Layout::One,
        Kind::Usen | Kind::Osen | Kind::User | Kind::Object | Kind::Conflict => Layout::Two,
        Kind::Rule => Layout::Formula,
        Kind::Pair => Layout::Three,
        Kind::End => Layout::Bare,
    }
}

const KINDS: usize = 11;

// Each as wide as the other, so that the table's columns stand below each other.
const YES: bool = true;

const NOT: bool = false;

// Row by the kind before, column by the kind after.
const FOLLOWS: [[bool; KINDS]; KINDS] = [
    [NOT, YES, NOT, NOT, NOT, NOT, NOT, NOT, NOT, NOT, NOT],
    [NOT, YES, YES, NOT, NOT, NOT, NOT, NOT, NOT, NOT, NOT],
    [NOT, NOT, YES, YES, YES, YES, YES, YES, YES, YES, YES],
    [NOT, NOT, NOT, YES, YES, YES, YES, YES, YES, YES, YES],
    [NOT, NOT, NOT, NOT, YES, YES, YES, YES, YES, YES, YES],
    [NOT, NOT, NOT, NOT, NOT, YES, YES, YES, YES, YES, YES],
    [NOT, NOT, NOT, NOT, NOT, NOT, YES, YES, YES, YES, YES],
    [NOT, NOT, NOT, NOT, NOT, NOT, NOT, YES, YES, YES, YES],
    [NOT, NOT, NOT, NOT, NOT, NOT, NOT, NOT, YES, YES, YES],
    [NOT, NOT, NOT, NOT, NOT, NOT, NOT, NOT, NOT, YES, YES],
    [NOT; KINDS],
];

// Whether a line of kind k may follow one of kind j.
pub fn may_follow(j: Kind, k: Kind) -> bool
    ensures { result ≡ follows j k }
{
    let row = place(j);
    let column = place(k);
    FOLLOWS[row][column]
}
