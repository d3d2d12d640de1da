// The vectors of 64 sets of one side: bit k of vector v says whether set k holds value v, and bit k of vector
// MOST_VALUES + v whether it does with its juniors (users) or its seniors (objects) taken in.
ghost use Rattle.std.specs.Prelude.{ℕ, ◌+◌, ◌*◌, ◌/◌, ◌%◌, ◌^◌, ◌≤◌, ◌<◌, ◌≡◌};
ghost use Rattle.sets.specs.Set.{has};
ghost use Rattle.seniority.specs.Seniority.{held_or_senior, held_or_junior};
ghost use Rattle.seniority.specs.Inner.{Ordered};
ghost use Rattle.policy.specs.Value.{side_of};
ghost use Rattle.policy.specs.Limits.{most_values};
ghost use Rattle.formula.specs.Inner.Fits.{SideFits};
ghost use Rattle.formula.specs.Inner.Lane.{lanes, vector_places, within, Plain, Stands, extended_lanes, grown_by};

use policy::limits::MOST_VALUES;
use policy::value::SideValue;
use seniority::Direct;

// True in every lane.
pub const ALL: u64 = 18446744073709551615;

// A lane is one of 64, the number of so many bits.
pub const LANE_BITS: u32 = 6;

pub const LANES: usize = 1 << LANE_BITS;

// A vector for each value, twice.
pub const VECTORS: usize = 2 * MOST_VALUES;

// For each value below LANE_BITS, which of the sets 0 to 63 hold it.
const LOW: [u64; LANE_BITS as usize] = [
    12297829382473034410,
    14757395258967641292,
    17361641481138401520,
    18374966859414961920,
    18446462603027742720,
    18446744069414584320,
];

// The same in every lane.
fn splat(b: bool) -> u64
    ensures { (k : ℕ) → k < lanes → has result k ≡ b }
{
    if b { ALL } else { 0 }
}

// Which of the sets 64b to 64b + 63 hold v.
fn holders(b: u32, v: u32) -> u64
    ensures { (k : ℕ) → k < lanes → has result k ≡ has (b * lanes + k) v }
{
    if v < LANE_BITS {
        return LOW[v as usize];
    }
    splat(sets::holds(b, v - LANE_BITS))
}

// Vectors without seniority, the same in both halves: the one of each value.
fn twice<F: Fn(u32) -> u64>(vector: F) -> [u64; VECTORS]
    requires { (v : ℕ) → v < most_values → F.pre vector v }
    ensures { (v : ℕ) → v < most_values → F.post vector v (within result v) × (within result (most_values + v) ≡ within result v) }
{
    let mut r = [0u64; VECTORS];
    for v in 0..MOST_VALUES {
        let x = vector(v as u32);
        r[v] = x;
        r[MOST_VALUES + v] = x;
    }
    r
}

// One set in every lane, without seniority.
pub fn spread(set: u32) -> [u64; VECTORS]
    requires { set < 2 ^ most_values }
    ensures { (k : ℕ) → k < lanes → Plain result k set }
{
    twice(|v| splat(sets::holds(set, v)))
}

// Which of the numbers 64b to 64b + 63 have v among their n bits from `from` on.
fn column(b: u32, from: u32, n: u32, v: u32) -> u64
    requires { (from ≤ most_values) × (n ≤ most_values) }
    ensures { (k : ℕ) → k < lanes → has result k ≡ has ((b * lanes + k) / 2 ^ from % 2 ^ n) v }
{
    if n <= v { 0 } else { holders(b, from + v) }
}

// The sets that the numbers 64b to 64b + 63 have in their n bits from `from` on, without seniority.
pub fn part(b: u32, from: u32, n: u32) -> [u64; VECTORS]
    requires { (from ≤ most_values) × (n ≤ most_values) }
    ensures { (k : ℕ) → k < lanes → Plain result k ((b * lanes + k) / 2 ^ from % 2 ^ n) }
{
    twice(|v| column(b, from, n, v))
}

// Value b, with seniority, where value a is held so.
fn extend(vectors: &mut [u64; VECTORS], a: u32, b: u32)
    requires { (a < most_values) × (b < most_values) }
    ensures { vectors.new ≡ extended_lanes vectors.old a b }
{
    let from = MOST_VALUES + a as usize;
    let to = MOST_VALUES + b as usize;
    vectors[to] = vectors[to] | vectors[from];
}

// User sets with all juniors of their values. The last line comes first: each senior is settled before its juniors.
pub fn with_juniors(plain: [u64; VECTORS], lines: &[Direct]) -> [u64; VECTORS]
    requires { Ordered most_values lines.now }
    ensures { (k s : ℕ) → Plain plain k s → Stands (held_or_senior lines.now) (within result) k s }
{
    let mut r = plain;
    for line in lines.iter().rev() {
        extend(&mut r, line.senior, line.junior);
    }
    r
}

// Object sets with all seniors of their values: each junior is settled before its seniors. Two functions, since this
// one goes through the lines in the opposite direction and exchanges senior and junior.
pub fn with_seniors(plain: [u64; VECTORS], lines: &[Direct]) -> [u64; VECTORS]
    requires { Ordered most_values lines.now }
    ensures { (k s : ℕ) → Plain plain k s → Stands (held_or_junior lines.now) (within result) k s }
{
    let mut r = plain;
    for line in lines {
        extend(&mut r, line.junior, line.senior);
    }
    r
}

// The sets of a side as seniority makes them: user sets with all juniors of their values, object sets with all seniors. A
// flag and no closure: the definition is over it too (`grown_by`), once for both sides.
pub fn closed(plain: [u64; VECTORS], side: SideValue, user: bool) -> [u64; VECTORS]
    requires { SideFits side }
    ensures { (k s : ℕ) → Plain plain k s → Stands (grown_by user (side_of side).lines) (within result) k s }
{
    let lines = &side.seniority[..side.lines];
    if user {
        with_juniors(plain, lines)
    } else {
        with_seniors(plain, lines)
    }
}
