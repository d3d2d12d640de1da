// A set of user values with all their juniors.
ghost use Rattle.std.specs.Prelude.{◌≡◌, ℕ, ◌<◌};
ghost use Rattle.sets.specs.Set.{has};
ghost use Rattle.seniority.specs.Seniority.{held_or_senior};
ghost use Rattle.seniority.specs.Inner.{Ordered, extended, word_bits};

use seniority::Direct;

// s, with value b where it holds value a.
fn extend(s: u32, a: u32, b: u32) -> u32
    requires { b < word_bits }
    ensures { result ≡ extended s a b }
{
    if sets::holds(s, a) { s | (1 << b) } else { s }
}

// s and all juniors of its values. Lines rise, so the last comes first: each senior is settled before its juniors.
pub fn with_juniors(lines: &[Direct], s: u32) -> u32
    requires { Ordered word_bits lines.now }
    ensures { (v : ℕ) → has result v ≡ held_or_senior lines.now s v }
{
    let mut r = s;
    for l in lines.iter().rev() {
        r = extend(r, l.senior, l.junior);
    }
    r
}
