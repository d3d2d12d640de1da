// The labels of a side's sets by strips: as many rows of the other side as a grid holds are looked at, then the next, and
// each strip parts labels that are one so far.
ghost use Rattle.std.specs.Prelude.{ℕ, ◌≤◌, ◌<◌, ◌≡◌, not, length, get_or};
ghost use Rattle.policy.specs.Limits.{most_sets};
ghost use Rattle.policy.specs.Policy.{Policy, sets};
ghost use Rattle.formula.specs.Inner.Lane.{side_at};
ghost use Rattle.labels.specs.Rows.{rows_alike};
ghost use Rattle.labels.specs.Inner.Rows.{RowsOf, entry_in};
ghost use Rattle.labels.specs.Inner.Labels.{IsAlike, LabelledIn};

use crate::classify::Classes;
use crate::grid;
use crate::grid::{PLACES, View};
use crate::rows::Rows;

// Parts the labels of n sets, which are one so far, by the rows of the chosen sets of the other side.
pub fn part(classes: &mut Classes, grid: &mut [u16; PLACES], from: &Rows, chosen: &[u16], n: usize)
    requires { ((p : Policy) × RowsOf p from.now × (n ≡ sets (side_at (not from.now.user) p))) × (0 < n) × (n ≤ most_sets) × (length chosen.now ≤ most_sets) × ((i : ℕ) → i < length chosen.now → get_or chosen.now i 0 < most_sets) × IsAlike classes.old }
    ensures { (p : Policy) → RowsOf p from.now → n ≡ sets (side_at (not from.now.user) p) → LabelledIn (rows_alike (entry_in p from.now.user chosen.now) (length chosen.now)) n classes.new }
{
    let most = PLACES / n;
    for q in 0..chosen.len().div_ceil(most) {
        let start = q * most;
        let columns = most.min(chosen.len() - start);
        grid::fill(grid, from, &chosen[start..start + columns], n);
        let view = View {
            rows: n,
            columns,
            down: 1,
            along: n,
        };
        classes.part(grid, view);
    }
}
