// The set of a registered user or object, and a user's reach.
ghost use Rattle.std.specs.Prelude.{◌≡◌, ◌≤◌, ◌<◌};
ghost use Rattle.basis.specs.Choice.{given};
ghost use Rattle.policy.specs.Policy as policy;
ghost use Rattle.policy.specs.Value.{entry_places, entries_of, side_of};
ghost use Rattle.board.specs.Inner.{reach_if, covered, Rising, Reachable};

use crate::juniors;
use policy::value::{Register, SideValue};

// The set of a number, where it is registered.
pub fn set_of(register: &Register, number: u32) -> Option<u32>
    requires { register.now.count ≤ entry_places }
    ensures { result ≡ policy.set_of_number (entries_of register.now) number }
{
    register.entries[..register.count]
        .iter()
        .find(|e| e.number == number)
        .map(|e| e.set)
}

// The reach of a registered user: the assigned values and all juniors of them.
pub fn of(users: &Register, side: &SideValue, user: u32) -> Option<u32>
    requires { Reachable side.now users.now }
    ensures { (p : policy.Policy) → p.users ≡ entries_of users.now → p.user ≡ side_of side.now → result ≡ reach_if p user }
{
    let set = set_of(users, user)?;
    Some(juniors::with_juniors(&side.seniority[..side.lines], set))
}

// Whether a number is registered and the set within the reach of what it is assigned. Assigned values need no look at
// seniority.
pub fn covers(assigned: Option<u32>, side: &SideValue, set: u32) -> bool
    requires { Rising side.now × (given assigned 0 (λ s. s) < policy.sets (side_of side.now)) }
    ensures { result ≡ covered side.now assigned set }
{
    let Some(assigned) = assigned else {
        return false;
    };
    if sets::within(set, assigned) {
        return true;
    }
    let reach = juniors::with_juniors(&side.seniority[..side.lines], assigned);
    sets::within(set, reach)
}
