// Table entries eight lanes at a time. A square is a number of 64 bits, a byte for each of its eight rows. One that has a
// row for each action and a column for each lane is turned, and then has a row for each lane.
ghost use Rattle.std.specs.Prelude.{ℕ, ◌+◌, ◌*◌, ◌^◌, ◌≤◌, ◌<◌, ◌≡◌, get_or};
ghost use Rattle.std.specs.Int.Bits.{bit_and};
ghost use Rattle.sets.specs.Set.{has, set_of};
ghost use Rattle.policy.specs.Limits.{most_actions};
ghost use Rattle.formula.specs.Inner.Lane.{lanes};
ghost use Rattle.formula.specs.Inner.Group.{group_size, grouped};
ghost use Rattle.formula.specs.Inner.Square.{swap_from, row_of};

use policy::limits::MOST_ACTIONS;

// A square has so many rows and so many columns: actions of a group, and lanes.
pub const GROUP: usize = 8;

// A row is below this.
const ROW: u64 = 256;

// The upper right bit of each square of two by two.
const ONES: u64 = 0x00aa00aa00aa00aa;

// The upper right two by two of each square of four by four.
const TWOS: u64 = 0x0000cccc0000cccc;

// The upper right four by four.
const FOURS: u64 = 0x00000000f0f0f0f0;

// Each bit of the mask changes places with the bit so many above it.
fn swapped(x: u64, by: u32, mask: u64) -> u64
    requires { (by < lanes) × (bit_and mask (mask * 2 ^ by) ≡ 0) }
    ensures { (p : ℕ) → p < lanes → has result p ≡ has x (swap_from by mask p) }
{
    let unlike = mask & (x ^ (x >> by));
    x ^ unlike ^ (unlike << by)
}

// The square with rows for columns: what is upper right changes places with what is lower left, in ever larger squares.
fn turned(square: u64) -> u64
    ensures { (i j : ℕ) → i < group_size → j < group_size → has result (group_size * i + j) ≡ has square (group_size * j + i) }
{
    let ones = swapped(square, 7, ONES);
    let twos = swapped(ones, 14, TWOS);
    swapped(twos, 28, FOURS)
}

// The lanes 8q to 8q + 7 of the eight actions from one on, a row for each action.
fn by_action(granted: &[u64; MOST_ACTIONS], from: usize, q: usize) -> u64
    requires { (from + group_size ≤ most_actions) × (q < group_size) }
    ensures { (a j : ℕ) → a < group_size → j < group_size → has result (group_size * a + j) ≡ has (get_or granted.now (from + a) 0) (group_size * q + j) }
{
    let mut r: u64 = 0;
    for a in 0..GROUP {
        let row = (granted[from + a] >> (GROUP * q)) % ROW;
        r = r | (row << (GROUP * a));
    }
    r
}

// The same with a row for each lane.
fn eight(granted: &[u64; MOST_ACTIONS], from: usize, q: usize) -> u64
    requires { (from + group_size ≤ most_actions) × (q < group_size) }
    ensures { (j a : ℕ) → j < group_size → a < group_size → has result (group_size * j + a) ≡ has (get_or granted.now (from + a) 0) (group_size * q + j) }
{
    turned(by_action(granted, from, q))
}

// The rows of one square, each with the same row of another above it.
fn joined(low: u64, high: u64) -> [u16; GROUP]
    ensures { (j : ℕ) → j < group_size → get_or result j 0 ≡ row_of low j + row_of high j * 2 ^ group_size }
{
    let mut r = [0u16; GROUP];
    for j in 0..GROUP {
        let below = (low >> (GROUP * j)) % ROW;
        let above = (high >> (GROUP * j)) % ROW;
        r[j] = (below + above * ROW) as u16;
    }
    r
}

// The table entries of the lanes 8q to 8q + 7: bit a is set where action a is granted. Past so many actions none is, and
// the groups behind them are not looked at.
pub fn entries(granted: &[u64; MOST_ACTIONS], actions: u32, q: usize) -> [u16; GROUP]
    requires { q < group_size }
    ensures { (j : ℕ) → j < group_size → get_or result j 0 ≡ set_of (λ a. has (get_or granted.now a 0) (group_size * q + j)) (grouped actions) }
{
    let low = eight(granted, 0, q);
    if actions <= GROUP as u32 {
        return joined(low, 0);
    }
    joined(low, eight(granted, GROUP, q))
}
