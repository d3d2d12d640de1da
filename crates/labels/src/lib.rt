// Labels: sets that no formula and no pair parts share one.
#![tactic(auto)]

ghost use Rattle.std.specs.Prelude.{◌+◌, ◌*◌, ◌≤◌, ◌≡◌, true, map};
ghost use Rattle.policy.specs.Limits.{bits, most_sets};
ghost use Rattle.policy.specs.Valid.{valid};
ghost use Rattle.policy.specs.Answers.{answer_of};
ghost use Rattle.labels.specs.Compile.{lent, used, Compiles};
ghost use Rattle.labels.specs.Apart.{Tells};
ghost use Rattle.labels.specs.Inner.Labels.{IsAlike, IsLabelled};

mod assign;
mod buffers;
mod classify;
mod grid;
mod rows;
mod strips;
mod telling;
mod whole;

use crate::classify::Classes;
use crate::grid::{PLACES, View};
use crate::rows::Rows;
use policy::limits;
use policy::limits::Widths;
use policy::refusal::Refusal;
use policy::stored::Stored;
use policy::value::PolicyValue;

// The label of a user set, and that of an object set: two sorts, so that neither stands where the other is due.
#[derive(Clone, Copy)]
pub struct UserLabel(pub u32);

#[derive(Clone, Copy)]
pub struct ObjectLabel(pub u32);

// How many labels are used on each side: NU and NO.
#[derive(Clone, Copy)]
pub struct Counts {
    pub users: u32,
    pub objects: u32,
}

impl Counts {
    // How many labels the sets of each side have.
    fn of(users: &Classes, objects: &Classes) -> Counts
        requires { (users.now.count ≤ most_sets) × (objects.now.count ≤ most_sets) }
        ensures { (result.users ≡ users.now.count) × (result.objects ≡ objects.now.count) }
    {
        Counts {
            users: users.count as u32,
            objects: objects.count as u32,
        }
    }
}

// An action and an object set at which one of two user sets is granted and the other denied.
#[derive(Clone, Copy)]
pub struct Witness {
    pub action: u32,
    pub object: u32,
}

// Where the table has the entry of two labels, with `objects` object labels to a row; any numbers will do. No `From`: a
// place needs the length of a row, too.
pub fn place(user: UserLabel, object: ObjectLabel, objects: u32) -> usize
    ensures { result ≡ user.0 * objects + object.0 }
{
    user.0 as usize * objects as usize + object.0 as usize
}

// Labels the sets of both sides of a valid policy. Says what the rows of its user sets are worked out from.
fn label(
    policy: &PolicyValue,
    grid: &mut [u16; PLACES],
    users: &mut Classes,
    objects: &mut Classes,
) -> Rows
    requires { (valid policy.now ≡ true) × IsAlike users.old × IsAlike objects.old }
    ensures { IsLabelled policy.now result grid.new users.new objects.new }
{
    let from = Rows::of(policy);
    assign::label(grid, &from, View::of(&from.sides), users, objects);
    from
}

// Fills the three lent buffers with the user labels, the object labels and the table of a policy, whose form has these
// widths.
pub fn compile<L: Stored, E: Stored>(
    policy: PolicyValue,
    users: &mut [L],
    objects: &mut [L],
    table: &mut [E],
) -> Result<Counts, Refusal>
    ensures { Compiles policy (lent (bits L.BITS E.BITS) (map L.number users.old) (map L.number objects.old) (map E.number table.old)) result (lent (bits L.BITS E.BITS) (map L.number users.new) (map L.number objects.new) (map E.number table.new)) }
{
    let widths = Widths {
        label: L::BITS,
        entry: E::BITS,
    };
    // Checked before the scratch is cleared: a refusal costs the check alone.
    if !limits::own_widths(policy.form, widths) || !validity::check(policy) {
        return Err(Refusal::InvalidState);
    }
    let mut grid = [0u16; PLACES];
    let mut user_classes = Classes::alike();
    let mut object_classes = Classes::alike();
    let from = label(&policy, &mut grid, &mut user_classes, &mut object_classes);
    buffers::store(
        &grid,
        &from,
        &user_classes,
        &object_classes,
        users,
        objects,
        table,
    )
}

// How many labels the sets of each side have, without a buffer.
pub fn used(policy: PolicyValue) -> Result<Counts, Refusal>
    ensures { answer_of result ≡ used policy }
{
    if !validity::check(policy) {
        return Err(Refusal::InvalidState);
    }
    let mut grid = [0u16; PLACES];
    let mut users = Classes::alike();
    let mut objects = Classes::alike();
    label(&policy, &mut grid, &mut users, &mut objects);
    Ok(Counts::of(&users, &objects))
}

// What tells two user sets apart, the lowest object set and at it the lowest action; or nothing does.
pub fn apart(policy: PolicyValue, u: u32, w: u32) -> Result<Option<Witness>, Refusal>
    ensures { Tells policy u w result }
{
    if !validity::check(policy) {
        return Err(Refusal::InvalidState);
    }
    let from = Rows::of(&policy);
    let view = View::of(&from.sides);
    if view.rows <= u as usize || view.rows <= w as usize {
        return Err(Refusal::SetOutOfReach);
    }
    Ok(telling::tell(&from, view.columns, u, w))
}
