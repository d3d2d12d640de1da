// A grid: rows one after the other, as many entries as are kept at once.
ghost use Rattle.std.specs.Prelude.{ℕ, ◌+◌, ◌*◌, ◌≤◌, ◌<◌, ◌≡◌, not, leb, length, get_or};
ghost use Rattle.policy.specs.Limits.{most_sets};
ghost use Rattle.policy.specs.Policy.{Policy, sets};
ghost use Rattle.formula.specs.Inner.Lane.{AttributesOf, side_at};
ghost use Rattle.labels.specs.Inner.Rows.{RowsOf, entry_in};
ghost use Rattle.labels.specs.Inner.Grid.{grid_places, cell, turned_view, ViewOf, Inside};

use crate::rows::Rows;
use formula::attributes;
use formula::attributes::Attributes;
use policy::limits::MOST_SETS;

// 32 KiB: all entries of a policy with seven values a side.
pub const PLACES: usize = 16384;

// A grid as seen from one side: its sets are the rows and those of the other side the columns. A row starts `down`
// places after the one before, and in it a column lies `along` places after the one before.
#[derive(Clone, Copy)]
pub struct View {
    pub rows: usize,
    pub columns: usize,
    pub down: usize,
    pub along: usize,
}

impl View {
    // The view of all entries from the user side, in rows of user sets.
    pub fn of(sides: &Attributes) -> View
        requires { (p : Policy) × AttributesOf p sides.now }
        ensures { (p : Policy) → AttributesOf p sides.now → ViewOf p result }
    {
        let columns = attributes::sets(sides.object) as usize;
        View {
            rows: attributes::sets(sides.user) as usize,
            columns,
            down: columns,
            along: 1,
        }
    }

    // The same grid as seen from the other side.
    pub fn turned(self) -> View
        ensures { result ≡ turned_view self }
    {
        View {
            rows: self.columns,
            columns: self.rows,
            down: self.along,
            along: self.down,
        }
    }

    // Whether a grid has room for all rows and columns.
    pub fn has_room(self) -> bool
        requires { (self.rows ≤ most_sets) × (self.columns ≤ most_sets) }
        ensures { result ≡ leb (self.rows * self.columns) grid_places }
    {
        self.rows * self.columns <= PLACES
    }

    // The entry in row u and column o.
    pub fn entry(self, grid: &[u16; PLACES], u: usize, o: usize) -> u16
        requires { Inside self × (u < self.rows) × (o < self.columns) }
        ensures { result ≡ cell grid.now self u o }
    {
        grid[u * self.down + o * self.along]
    }
}

// The first n sets, in order.
pub fn every(n: usize) -> [u16; MOST_SETS]
    requires { n ≤ most_sets }
    ensures { (i : ℕ) → i < n → get_or result i 0 ≡ i }
{
    let mut r = [0u16; MOST_SETS];
    for i in 0..n {
        r[i] = i as u16;
    }
    r
}

// Puts entries one after the other from a place on.
pub fn put(places: &mut [u16], start: usize, entries: &[u16])
    requires { start + length entries.now ≤ length places.old }
    ensures { (length places.new ≡ length places.old) × ((f : ℕ → ℕ) → ((i : ℕ) → i < start → get_or places.old i 0 ≡ f i) → ((k : ℕ) → k < length entries.now → get_or entries.now k 0 ≡ f (start + k)) → (i : ℕ) → i < start + length entries.now → get_or places.new i 0 ≡ f i) }
{
    places[start..start + entries.len()].copy_from_slice(entries);
}

// Fills a grid, which the caller owns because it is large, with the rows of the chosen sets at the n sets of the other
// side.
pub fn fill(grid: &mut [u16; PLACES], from: &Rows, chosen: &[u16], n: usize)
    requires { ((p : Policy) × RowsOf p from.now × (n ≤ sets (side_at (not from.now.user) p))) × (n ≤ most_sets) × (length chosen.now * n ≤ grid_places) × ((i : ℕ) → i < length chosen.now → get_or chosen.now i 0 < most_sets) }
    ensures { (p : Policy) → RowsOf p from.now → n ≤ sets (side_at (not from.now.user) p) → (i o : ℕ) → i < length chosen.now → o < n → get_or grid.new (i * n + o) 0 ≡ entry_in p from.now.user chosen.now o i }
{
    let mut row = [0u16; MOST_SETS];
    for (i, s) in chosen.iter().enumerate() {
        from.put_row(&mut row, *s as u32, n);
        put(grid, i * n, &row[..n]);
    }
}
