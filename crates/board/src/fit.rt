// Check 11: a valid policy value, and no session whose user is not registered, whose set is out of reach or which holds
// too many values of a conflict.
ghost use Rattle.std.specs.Prelude.{◌≡◌, true, ◌<◌};
ghost use Rattle.basis.specs.Choice.{given};
ghost use Rattle.policy.specs.Policy as policy;
ghost use Rattle.policy.specs.Value.{entries_of, side_of};
ghost use Rattle.board.specs.Board.{entry_of, fits};
ghost use Rattle.board.specs.Inner.{reached, all_reached, Rising, Reachable};

use crate::{Board, SESSION_PLACES, Session, assigned, conflicts, reach};
use policy::value::{PolicyValue, Register, SideValue};

// Whether an entry is closed, or its user registered and its set in the user's reach, by what its user is assigned.
fn entry_reached(assigned: Option<u32>, side: &SideValue, entry: Session) -> bool
    requires { Rising side.now × (given assigned 0 (λ s. s) < policy.sets (side_of side.now)) }
    ensures { (p : policy.Policy) → p.user ≡ side_of side.now → assigned ≡ policy.set_of_number p.users entry.user → result ≡ given (entry_of entry) true (reached p) }
{
    entry.live == 0 || reach::covers(assigned, side, entry.held)
}

// Whether that holds of each entry.
fn all_reached(users: &Register, side: &SideValue, sessions: &[Session; SESSION_PLACES]) -> bool
    requires { Reachable side.now users.now }
    ensures { (p : policy.Policy) → p.users ≡ entries_of users.now → p.user ≡ side_of side.now → result ≡ all_reached p sessions.now }
{
    let table = assigned::table(users);
    for entry in sessions {
        let assigned = table[assigned::place(entry.user)];
        if !entry_reached(assigned, side, *entry) {
            return false;
        }
    }
    true
}

// Whether the policy value is valid, and each entry of the board in reach and within every conflict.
pub fn fits(policy: &PolicyValue, board: &Board) -> bool
    ensures { result ≡ fits policy.now board.now }
{
    if !validity::lent::check(policy) {
        return false;
    }
    if !all_reached(&policy.users, &policy.user, &board.sessions) {
        return false;
    }
    // Most policies have no conflict, and then the sets need not be gathered.
    policy.conflicts.count == 0
        || !conflicts::over(&policy.conflicts, &conflicts::held(&board.sessions))
}
