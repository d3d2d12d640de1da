// The labels of one side's sets, which are the rows of a grid.
ghost use Rattle.std.specs.Prelude.{ℕ, ◌≤◌, ◌<◌, ◌≡◌, length, get_or};
ghost use Rattle.basis.specs.Numbers.{first};
ghost use Rattle.policy.specs.Limits.{most_sets};
ghost use Rattle.labels.specs.Inner.Grid.{like_still, Inside};
ghost use Rattle.labels.specs.Inner.Labels.{IsAlike, LabelledIn};

use crate::grid::{PLACES, View};
use policy::limits::MOST_SETS;

// The label of each set of a side, and of each label the lowest set that has it; and how many labels these are. Arrays and
// a count, since there is no heap.
#[derive(Drop)]
pub struct Classes {
    pub labels: [u16; MOST_SETS],
    pub leaders: [u16; MOST_SETS],
    pub count: usize,
}

impl Classes {
    // One label for all sets, before any column is looked at.
    pub fn alike() -> Classes
        ensures { IsAlike result }
    {
        Classes {
            labels: [0; MOST_SETS],
            leaders: [0; MOST_SETS],
            count: 1,
        }
    }

    // The lowest set of each label.
    pub fn leading(&self) -> &[u16]
        requires { self.now.count ≤ most_sets }
        ensures { (length result.now ≡ self.now.count) × ((l : ℕ) → l < self.now.count → get_or result.now l 0 ≡ get_or self.now.leaders l 0) }
    {
        &self.leaders[..self.count]
    }

    // The first label whose leader had one label with row u before, and is like it in the grid; or how many labels there
    // are where there is none.
    fn label_of(
        &self,
        grid: &[u16; PLACES],
        view: View,
        before: &[u16; MOST_SETS],
        u: usize,
    ) -> usize
        requires { Inside view × (u < view.rows) × (self.now.count ≤ most_sets) × ((l : ℕ) → l < self.now.count → get_or self.now.leaders l 0 < view.rows) }
        ensures { result ≡ first (λ l. like_still before.now grid.now view (get_or self.now.leaders l 0) u) self.now.count }
    {
        let count = self.count;
        'next: for l in 0..count {
            let v = self.leaders[l] as usize;
            if before[v] != before[u] {
                continue 'next;
            }
            for o in 0..view.columns {
                if view.entry(grid, v, o) != view.entry(grid, u, o) {
                    continue 'next;
                }
            }
            return l;
        }
        count
    }

    // Parts the labels so far by the rows of a grid: of two rows that had one label, only those keep one that are alike
    // in the grid.
    pub fn part(&mut self, grid: &[u16; PLACES], view: View)
        requires { Inside view }
        ensures { LabelledIn (like_still self.old.labels grid.now view) view.rows self.new }
    {
        let before = self.labels;
        self.count = 0;
        for u in 0..view.rows {
            let l = self.label_of(grid, view, &before, u);
            self.labels[u] = l as u16;
            if l == self.count {
                self.leaders[self.count] = u as u16;
                self.count += 1;
            }
        }
    }
}
