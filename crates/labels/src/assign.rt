// The labels of both sides of a policy.
ghost use Rattle.std.specs.Prelude.{◌*◌, ◌≤◌, ◌≡◌, true};
ghost use Rattle.policy.specs.Policy.{Policy, sets};
ghost use Rattle.labels.specs.Compile.{like_users};
ghost use Rattle.labels.specs.Inner.Rows.{RowsOf};
ghost use Rattle.labels.specs.Inner.Grid.{grid_places, ViewOf, Kept};
ghost use Rattle.labels.specs.Inner.Labels.{IsAlike, LabelledIn, LabelsOf};

use crate::classify::Classes;
use crate::grid::{PLACES, View};
use crate::rows::Rows;
use crate::{grid, strips, whole};

// Where the grid has room for all entries: the labels of its rows, and then those of its columns. This way and the one
// below are not inlined, so that compiling takes the stack of one of them and not of both.
#[inline(never)]
fn at_once(
    grid: &mut [u16; PLACES],
    from: &Rows,
    view: View,
    users: &mut Classes,
    objects: &mut Classes,
)
    requires { (from.now.user ≡ true) × ((p : Policy) × RowsOf p from.now × ViewOf p view) × (view.rows * view.columns ≤ grid_places) × IsAlike users.old × IsAlike objects.old }
    ensures { (p : Policy) → RowsOf p from.now → ViewOf p view → LabelsOf p users.new objects.new × Kept p grid.new view }
{
    whole::fill(grid, from, view);
    users.part(grid, view);
    objects.part(grid, view.turned());
}

// The labels of the user sets by strips, from the rows of all object sets.
fn users_by_strips(grid: &mut [u16; PLACES], from: &Rows, view: View, users: &mut Classes)
    requires { (from.now.user ≡ true) × ((p : Policy) × RowsOf p from.now × ViewOf p view) × IsAlike users.old }
    ensures { (p : Policy) → RowsOf p from.now → ViewOf p view → LabelledIn (like_users p) (sets p.user) users.new }
{
    let n = view.columns;
    let every = grid::every(n);
    let columns = from.turned();
    strips::part(users, grid, &columns, &every[..n], view.rows);
}

// By strips: the user sets by all object sets, and the object sets by one user set of each label, since those of one
// label have one row.
#[inline(never)]
fn by_strips(
    grid: &mut [u16; PLACES],
    from: &Rows,
    view: View,
    users: &mut Classes,
    objects: &mut Classes,
)
    requires { (from.now.user ≡ true) × ((p : Policy) × RowsOf p from.now × ViewOf p view) × IsAlike users.old × IsAlike objects.old }
    ensures { (p : Policy) → RowsOf p from.now → ViewOf p view → LabelsOf p users.new objects.new }
{
    users_by_strips(grid, from, view, users);
    strips::part(objects, grid, from, users.leading(), view.columns);
}

// The labels of both sides. Where a grid has room for all entries, they stand in it then.
pub fn label(
    grid: &mut [u16; PLACES],
    from: &Rows,
    view: View,
    users: &mut Classes,
    objects: &mut Classes,
)
    requires { (from.now.user ≡ true) × ((p : Policy) × RowsOf p from.now × ViewOf p view) × IsAlike users.old × IsAlike objects.old }
    ensures { (p : Policy) → RowsOf p from.now → ViewOf p view → LabelsOf p users.new objects.new × (view.rows * view.columns ≤ grid_places → Kept p grid.new view) }
{
    if view.has_room() {
        at_once(grid, from, view, users, objects);
    } else {
        by_strips(grid, from, view, users, objects);
    }
}
