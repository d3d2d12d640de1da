// The words of a formula.
#![tactic(auto)]

ghost use Rattle.std.specs.Prelude.{true, ◌≡◌, cond, get_or};
ghost use Rattle.text.specs.Number.{is_digit, digit_of};
ghost use Rattle.words.specs.Inner.{in_digits};
ghost use Rattle.words.specs.Word as word;

// A side and a value of it.
#[derive(Clone, Copy)]
pub enum Holding {
    User(u8),
    Object(u8),
}

// A user attribute and an object attribute: the first covers each place held in the second, or both hold the same.
#[derive(Clone, Copy)]
pub enum Comparison {
    Dominates(u8, u8),
    Equals(u8, u8),
}

#[derive(Clone, Copy)]
pub enum Word {
    True,
    False,
    Holds(Holding),
    Compares(Comparison),
    Not,
    And,
    Or,
}

// The number that a digit writes.
fn digit(c: u8) -> Option<u8>
    ensures { result ≡ cond (is_digit c) (Some (digit_of c)) None }
{
    if c.is_ascii_digit() {
        Some(c - b'0')
    } else {
        None
    }
}

#[tactic(auto, unfolding(crate::specs::Word::letter))]
fn parse_letter(c: u8) -> Option<Word>
    ensures { result ≡ word.letter c }
{
    match c {
        b't' => Some(Word::True),
        b'f' => Some(Word::False),
        b'n' => Some(Word::Not),
        b'a' => Some(Word::And),
        b'r' => Some(Word::Or),
        _ => None,
    }
}

#[tactic(auto, unfolding(crate::specs::Word::holding))]
fn parse_holding(c: u8, v: u8) -> Option<Word>
    ensures { result ≡ word.holding c v }
{
    let value = digit(v)?;
    match c {
        b'u' => Some(Word::Holds(Holding::User(value))),
        b'o' => Some(Word::Holds(Holding::Object(value))),
        _ => None,
    }
}

#[tactic(auto, unfolding(crate::specs::Word::comparison))]
fn parse_comparison(c: u8, i: u8, j: u8) -> Option<Word>
    ensures { result ≡ word.comparison c i j }
{
    let user = digit(i)?;
    let object = digit(j)?;
    match c {
        b'd' => Some(Word::Compares(Comparison::Dominates(user, object))),
        b'q' => Some(Word::Compares(Comparison::Equals(user, object))),
        _ => None,
    }
}

// The word that a field is.
pub fn parse(f: &[u8]) -> Option<Word>
    ensures { result ≡ word.parsed f.now }
{
    match f {
        [c] => parse_letter(*c),
        [c, v] => parse_holding(*c, *v),
        [c, i, j] => parse_comparison(*c, *i, *j),
        _ => None,
    }
}

impl Word {
    // The number of a word, a byte for each. No `From`, since a word that names more than a digit has none.
    #[tactic(auto, unfolding(crate::specs::Word::word_number, crate::specs::Inner::in_digits))]
    pub fn number(self) -> u8
        requires { in_digits self ≡ true }
        ensures { result ≡ word.word_number self }
    {
        match self {
            Word::True => 0,
            Word::False => 1,
            Word::Not => 2,
            Word::And => 3,
            Word::Or => 4,
            Word::Holds(Holding::User(v)) => 10 + v,
            Word::Holds(Holding::Object(v)) => 20 + v,
            Word::Compares(Comparison::Dominates(i, j)) => 50 + 10 * i + j,
            Word::Compares(Comparison::Equals(i, j)) => 150 + 10 * i + j,
        }
    }
}

// What stands for a number which is no word's.
const MISSING: Word = Word::Holds(Holding::User(255));

fn letter_of(n: u8) -> Word
    ensures { result ≡ get_or word.letters n word.missing }
{
    match n {
        0 => Word::True,
        1 => Word::False,
        2 => Word::Not,
        3 => Word::And,
        4 => Word::Or,
        _ => MISSING,
    }
}

// The word of a number. By tens, since evaluating does this for every word: the compiler then has one jump.
impl From<u8> for Word {
    ghost from_gives = { λ n w. w ≡ word.numbered n };

    fn from(n: u8) -> Word {
        let tens = n / 10;
        match tens {
            0 => letter_of(n),
            1 => Word::Holds(Holding::User(n % 10)),
            2 => Word::Holds(Holding::Object(n % 10)),
            3..=4 => MISSING,
            5..=14 => Word::Compares(Comparison::Dominates(tens - 5, n % 10)),
            15..=24 => Word::Compares(Comparison::Equals(tens - 15, n % 10)),
            _ => MISSING,
        }
    }
}
