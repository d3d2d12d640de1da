// The lent buffers: the labels of both sides and their table, written once all of them are known.
ghost use Rattle.std.specs.Prelude.{ℕ, ◌*◌, ◌/◌, ◌%◌, ◌^◌, ◌≤◌, ◌<◌, ◌≡◌, true, leb, length, get_or, map};
ghost use Rattle.basis.specs.Lists.{over};
ghost use Rattle.basis.specs.Numbers.{up_to};
ghost use Rattle.policy.specs.Limits.{bits, most_sets, own_widths};
ghost use Rattle.policy.specs.Policy.{Policy, sets};
ghost use Rattle.policy.specs.declared.value.PolicyValue.{PolicyValue};
ghost use Rattle.formula.specs.Truth.{at};
ghost use Rattle.labels.specs.Compile.{entry_of, NU, NO, lent, too_short, Compiles};
ghost use Rattle.labels.specs.Inner.Grid.{grid_places, ViewOf, Kept, Leading, Puts};
ghost use Rattle.labels.specs.Inner.Labels.{IsLabelled};
ghost use Rattle.labels.specs.Inner.Rows.{RowsOf, RowStands};

use crate::classify::Classes;
use crate::grid::{PLACES, View};
use crate::rows::Rows;
use crate::{Counts, ObjectLabel, UserLabel};
use policy::limits::MOST_SETS;
use policy::refusal::Refusal;
use policy::stored;
use policy::stored::Stored;

// Puts labels at the start of a lent buffer.
fn put_labels<L: Stored>(labels: &[u16], buffer: &mut [L])
    requires { (length labels.now ≤ length buffer.old) × ((u : ℕ) → u < length labels.now → get_or labels.now u 0 < 2 ^ L.BITS) }
    ensures { Puts labels.now (length labels.now) (map L.number buffer.old) (map L.number buffer.new) }
{
    for (u, label) in labels.iter().enumerate() {
        stored::put(buffer, u, *label as u32);
    }
}

// Puts the row of user set u, unless all rows are kept in the grid. `kept` says where the row is, as the clause does: a
// closure would be handed the grid and the row, too.
fn take_row(row: &mut [u16; MOST_SETS], kept: bool, from: &Rows, u: usize, n: usize)
    requires { (from.now.user ≡ true) × ((p : Policy) × RowsOf p from.now × (n ≡ sets p.object)) × (u < most_sets) }
    ensures { (p : Policy) → RowsOf p from.now → n ≡ sets p.object → RowStands p kept row.new u n }
{
    if !kept {
        from.put_row(row, u as u32, n);
    }
}

// The entry of user set u and object set o, out of the grid or else out of the row of u.
fn entry_of(
    kept: bool,
    grid: &[u16; PLACES],
    view: View,
    row: &[u16; MOST_SETS],
    u: usize,
    o: usize,
) -> u16
    requires { (kept ≡ leb (view.rows * view.columns) grid_places) × ((p : Policy) × ViewOf p view) × (u < view.rows) × (o < view.columns) }
    ensures { (p : Policy) → (view.rows * view.columns ≤ grid_places → Kept p grid.now view) → RowStands p kept row.now u view.columns → result ≡ entry_of p (at u o) }
{
    if kept { view.entry(grid, u, o) } else { row[o] }
}

// Puts the table at the start of a lent buffer: at two labels, the entry of their leaders.
fn put_table<E: Stored>(
    table: &mut [E],
    grid: &[u16; PLACES],
    from: &Rows,
    view: View,
    users: &Classes,
    objects: &Classes,
)
    requires user_value { (from.now.user ≡ true) × ((p : Policy) × RowsOf p from.now × ViewOf p view × (view.rows * view.columns ≤ grid_places → Kept p grid.now view)) × (users.now.count ≤ most_sets) × (objects.now.count ≤ most_sets) × (users.now.count * objects.now.count ≤ length table.old) × (from.now.actions ≤ E.BITS) }
    requires leading { Leading view.rows users.now.labels users.now.leaders users.now.count × Leading view.columns objects.now.labels objects.now.leaders objects.now.count }
    ensures { (p : Policy) → RowsOf p from.now → ViewOf p view → (view.rows * view.columns ≤ grid_places → Kept p grid.now view) → (f : ℕ → ℕ → ℕ) → ((ul ol : ℕ) → ul < users.now.count → ol < objects.now.count → entry_of p (at (get_or users.now.leaders ul 0) (get_or objects.now.leaders ol 0)) ≡ f ul ol) → map E.number table.new ≡ over (up_to (λ i. f (i / objects.now.count) (i % objects.now.count)) (users.now.count * objects.now.count)) (map E.number table.old) }
{
    let nu = users.count;
    let no = objects.count;
    let kept = view.has_room();
    let mut row = [0u16; MOST_SETS];
    for k in 0..nu {
        let u = users.leaders[k] as usize;
        let ul = UserLabel(users.labels[u] as u32);
        take_row(&mut row, kept, from, u, view.columns);
        for l in 0..no {
            let o = objects.leaders[l] as usize;
            let ol = ObjectLabel(objects.labels[o] as u32);
            let at = crate::place(ul, ol, no as u32);
            let x = entry_of(kept, grid, view, &row, u, o);
            stored::put(table, at, x as u32);
        }
    }
}

// Whether some buffer is shorter than what is to be put there.
fn too_short<L: Stored, E: Stored>(
    view: View,
    counts: Counts,
    users: &[L],
    objects: &[L],
    table: &[E],
) -> bool
    ensures { (p : Policy) → ViewOf p view → counts.users ≡ NU p → counts.objects ≡ NO p → result ≡ too_short p (lent (bits L.BITS E.BITS) (map L.number users.now) (map L.number objects.now) (map E.number table.now)) }
{
    users.len() < view.rows
        || objects.len() < view.columns
        || table.len() < counts.users as usize * counts.objects as usize
}

// The labels of a valid policy and their table, into the three buffers if these are long enough.
pub fn store<L: Stored, E: Stored>(
    grid: &[u16; PLACES],
    from: &Rows,
    users: &Classes,
    objects: &Classes,
    user_labels: &mut [L],
    object_labels: &mut [L],
    table: &mut [E],
) -> Result<Counts, Refusal>
    requires { (v : PolicyValue) × IsLabelled v from.now grid.now users.now objects.now × (own_widths v.form (bits L.BITS E.BITS) ≡ true) }
    ensures { (v : PolicyValue) → IsLabelled v from.now grid.now users.now objects.now → own_widths v.form (bits L.BITS E.BITS) ≡ true → Compiles v (lent (bits L.BITS E.BITS) (map L.number user_labels.old) (map L.number object_labels.old) (map E.number table.old)) result (lent (bits L.BITS E.BITS) (map L.number user_labels.new) (map L.number object_labels.new) (map E.number table.new)) }
{
    let view = View::of(&from.sides);
    let counts = Counts::of(users, objects);
    if too_short(view, counts, user_labels, object_labels, table) {
        return Err(Refusal::BufferTooShort);
    }
    put_labels(&users.labels[..view.rows], user_labels);
    put_labels(&objects.labels[..view.columns], object_labels);
    put_table(table, grid, from, view, users, objects);
    Ok(counts)
}
