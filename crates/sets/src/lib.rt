// Sets of values, each the sum of 2^k over the values k in it.
#![tactic(auto)]

ghost use Rattle.std.specs.Prelude.{◌≡◌};
ghost use Rattle.sets.specs.Set as set;

// Whether value v is in s.
pub fn holds(s: u32, v: u32) -> bool
    ensures { result ≡ set.has s v }
{
    v < 32 && (s >> v) % 2 == 1
}

// The values of a and of b.
pub fn union(a: u32, b: u32) -> u32
    ensures { result ≡ set.union a b }
{
    a | b
}

// The values of a that are not in b.
pub fn minus(a: u32, b: u32) -> u32
    ensures { result ≡ set.minus a b }
{
    a ^ (a & b)
}

// Whether each value of a is in b.
pub fn within(a: u32, b: u32) -> bool
    ensures { result ≡ set.within a b }
{
    (a & b) == a
}
