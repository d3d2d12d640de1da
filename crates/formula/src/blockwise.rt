// Numbers in places: each place has n of them, one for each of the blocks that are worked on at once. One block is the
// most frequent case, and has no loop.
ghost use Rattle.std.specs.Prelude.{ℕ, ◌+◌, ◌*◌, ◌≤◌, ◌<◌, ◌≡◌, not, length};
ghost use Rattle.sets.specs.Set.{has};
ghost use Rattle.formula.specs.Inner.Lane.{lanes, in_block, Placed, combined};

use crate::side::ALL;

// Puts the same number on a place, for every block.
pub fn fill(to: &mut [u64], i: usize, n: usize, x: u64)
    requires { i * n + n ≤ length to.old }
    ensures { Placed n i (λ b y. y ≡ x) to.old to.new }
{
    if n == 1 {
        to[i] = x;
        return;
    }
    let start = i * n;
    for b in 0..n {
        to[start + b] = x;
    }
}

// Puts on place j what other numbers have on place i.
pub fn copy(from: &[u64], i: usize, n: usize, to: &mut [u64], j: usize)
    requires { (i * n + n ≤ length from.now) × (j * n + n ≤ length to.old) }
    ensures { Placed n j (λ b y. y ≡ in_block from.now n b i) to.old to.new }
{
    if n == 1 {
        to[j] = from[i];
        return;
    }
    let source = i * n;
    let start = j * n;
    for b in 0..n {
        to[start + b] = from[source + b];
    }
}

// Makes true false and false true on a place.
pub fn negate(to: &mut [u64], i: usize, n: usize)
    requires { i * n + n ≤ length to.old }
    ensures { Placed n i (λ b y. (k : ℕ) → k < lanes → has y k ≡ not (has (in_block to.old n b i) k)) to.old to.new }
{
    if n == 1 {
        to[i] = to[i] ^ ALL;
        return;
    }
    let start = i * n;
    for b in 0..n {
        to[start + b] = to[start + b] ^ ALL;
    }
}

// Both of two numbers, lane by lane, or else either.
fn taken_together(x: u64, y: u64, both: bool) -> u64
    ensures { (k : ℕ) → has result k ≡ combined both (has x k) (has y k) }
{
    if both { x & y } else { x | y }
}

// Takes a place and the next together, there.
pub fn combine(to: &mut [u64], i: usize, n: usize, both: bool)
    requires { (i + 1) * n + n ≤ length to.old }
    ensures { Placed n i (λ b y. (k : ℕ) → has y k ≡ combined both (has (in_block to.old n b i) k) (has (in_block to.old n b (i + 1)) k)) to.old to.new }
{
    if n == 1 {
        to[i] = taken_together(to[i], to[i + 1], both);
        return;
    }
    let start = i * n;
    let next = start + n;
    for b in 0..n {
        to[start + b] = taken_together(to[start + b], to[next + b], both);
    }
}
