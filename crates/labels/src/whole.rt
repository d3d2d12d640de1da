// A grid of all entries. The entry of two sets stands where their stored number says, so the lanes of a block of numbers
// are neighbours in the grid, and a block may have several user sets.
ghost use Rattle.std.specs.Prelude.{ℕ, ◌+◌, ◌*◌, ◌≤◌, ◌<◌, ◌≡◌, true, length, get_or};
ghost use Rattle.policy.specs.Limits.{most_actions};
ghost use Rattle.policy.specs.Policy.{Policy};
ghost use Rattle.formula.specs.Inner.Lane.{lanes, within, in_block};
ghost use Rattle.labels.specs.Inner.Rows.{RowsOf, lane_entry};
ghost use Rattle.labels.specs.Inner.Grid.{grid_places, ViewOf, Kept};

use crate::grid;
use crate::grid::{PLACES, View};
use crate::rows::Rows;
use formula::blocks::SIDE_VECTORS;
use formula::both::Blocks;
use formula::entries::GRANTED;
use formula::side::LANES;
use formula::turn::GROUP;
use formula::{attributes, blocks, entries, side, turn};
use policy::limits::MOST_ACTIONS;

// Puts the entries of the first `count` lanes of a block from a place on, eight at a time.
fn put_lanes(
    places: &mut [u16],
    granted: &[u64; MOST_ACTIONS],
    actions: u32,
    start: usize,
    count: usize,
)
    requires { (count ≤ lanes) × (start + count ≤ length places.old) }
    ensures { (length places.new ≡ length places.old) × ((f : ℕ → ℕ) → ((i : ℕ) → i < start → get_or places.old i 0 ≡ f i) → ((k : ℕ) → k < count → lane_entry (within granted.now) actions k ≡ f (start + k)) → (i : ℕ) → i < start + count → get_or places.new i 0 ≡ f i) }
{
    for q in 0..count.div_ceil(GROUP) {
        let done = q * GROUP;
        let eight = turn::entries(granted, actions, q);
        let m = GROUP.min(count - done);
        grid::put(places, start + done, &eight[..m]);
    }
}

// Puts the entries of `count` pairs of sets from a place on, which are in n blocks.
pub fn put_blocks(
    places: &mut [u16],
    granted: &[u64],
    n: usize,
    actions: u32,
    start: usize,
    count: usize,
)
    requires { (count ≤ n * lanes) × (start + count ≤ length places.old) × (most_actions * n ≤ length granted.now) }
    ensures { (length places.new ≡ length places.old) × ((f : ℕ → ℕ) → ((i : ℕ) → i < start → get_or places.old i 0 ≡ f i) → ((b k : ℕ) → b < n → k < lanes → b * lanes + k < count → lane_entry (in_block granted.now n b) actions k ≡ f (start + (b * lanes + k))) → (i : ℕ) → i < start + count → get_or places.new i 0 ≡ f i) }
{
    for b in 0..count.div_ceil(LANES) {
        let done = b * LANES;
        let block = entries::in_block(granted, n, b);
        let m = LANES.min(count - done);
        put_lanes(places, &block, actions, start + done, m);
    }
}

// Fills a grid that has room for all entries of a policy.
pub fn fill(grid: &mut [u16; PLACES], from: &Rows, view: View)
    requires { (from.now.user ≡ true) × ((p : Policy) × RowsOf p from.now × ViewOf p view) × (view.rows * view.columns ≤ grid_places) }
    ensures { (p : Policy) → RowsOf p from.now → ViewOf p view → Kept p grid.new view }
{
    let user_values = attributes::total(from.sides.user);
    let object_values = attributes::total(from.sides.object);
    let n = from.blocks;
    let places = view.rows * view.columns;
    let mut users = [0u64; SIDE_VECTORS];
    let mut granted = [0u64; GRANTED];
    let row = n * LANES;
    for q in 0..places.div_ceil(row) {
        let start = q * row;
        let b = (q * n) as u32;
        let part = side::part(b, object_values, user_values);
        let block = side::closed(part, from.side, true);
        blocks::put_over(&block, n, &mut users);
        let pairs = Blocks {
            sides: from.sides,
            users: &users,
            objects: &from.others,
            count: n,
        };
        pairs.put_granted(from.grants, &mut granted);
        let m = row.min(places - start);
        put_blocks(grid, &granted, n, from.actions, start, m);
    }
}
