// Number fields.
ghost use Rattle.std.specs.Prelude.{◌≡◌, ◌≤◌, cond, length};
ghost use Rattle.basis.specs.Lists.{all};
ghost use Rattle.text.specs.Number.{numeral, is_digit, value_of, most_digits};

// The most digits of a number field.
pub const MOST_DIGITS: usize = 5;

// The numbers of a line, in the order of its fields; 0 where it has none.
#[derive(Clone, Copy, Default)]
pub struct Numbers {
    pub first: u32,
    pub second: u32,
    pub third: u32,
}

// The value of a run of few enough digits.
fn digits(f: &[u8]) -> Option<u32>
    requires { length f.now ≤ most_digits }
    ensures { result ≡ cond (all is_digit f.now) (Some (value_of f.now)) None }
{
    let mut v: u32 = 0;
    for d in f {
        if !d.is_ascii_digit() {
            return None;
        }
        v = v * 10 + u32::from(d - b'0');
    }
    Some(v)
}

// What a number field says.
pub fn parse(f: &[u8]) -> Option<u32>
    ensures { result ≡ numeral f.now }
{
    let needless_zero = f.len() > 1 && f[0] == b'0';
    if f.is_empty() || MOST_DIGITS < f.len() || needless_zero {
        return None;
    }
    digits(f)
}
