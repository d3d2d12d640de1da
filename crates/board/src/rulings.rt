// The refusals of the calls that change a session, 13 to 19 and 23, by the session's entry, what is found for the user
// and whether the set that the session would hold is over a conflict. These stay parameters: close names no set, and
// open's ruling needs no user, so that a struct of all would have fields that not every call fills.
ghost use Rattle.std.specs.Prelude.{◌≡◌, not, ℕ};
ghost use Rattle.basis.specs.Choice.{there, first_broken};
ghost use Rattle.sets.specs.Set.{union};
ghost use Rattle.policy.specs.Policy as policy;
ghost use Rattle.board.specs.Machine.{opens, adds, drops, closes, too_many, checks};
ghost use Rattle.board.specs.Board.{entry_of};
ghost use Rattle.board.specs.Inner.{refusal_of, reach_if, set_checks, change_checks};

use crate::Session;
use policy::limits::SESSION_NUMBERS;
use policy::refusal::Refusal;

// The refusals of a set: 19 of the one that a call names, then 23 of the one that its session would hold.
fn of_set(inside: bool, over: bool) -> Result<(), Refusal>
    ensures { refusal_of result ≡ first_broken (set_checks (not inside) over) }
{
    if !inside {
        return Err(Refusal::SetOutOfReach);
    }
    if over {
        return Err(Refusal::TooManyHeld);
    }
    Ok(())
}

// The refusals of open, where the set is over a conflict or not.
pub fn of_open(
    entry: Session,
    reach: Option<u32>,
    over: bool,
    session: u32,
    set: u32,
) -> Result<(), Refusal>
    ensures { (p : policy.Policy) (u : ℕ) → reach ≡ reach_if p u → over ≡ too_many p set → refusal_of result ≡ first_broken (checks p (opens u session set) (entry_of entry)) }
{
    if SESSION_NUMBERS <= session {
        return Err(Refusal::UnknownSession);
    }
    let Some(reach) = reach else {
        return Err(Refusal::UnregisteredUser);
    };
    if entry.live != 0 {
        return Err(Refusal::SessionOpen);
    }
    of_set(sets::within(set, reach), over)
}

// The refusals of close.
pub fn of_close(entry: Session, registered: bool, user: u32, session: u32) -> Result<(), Refusal>
    ensures { (p : policy.Policy) → registered ≡ there (policy.set_of_number p.users user) → refusal_of result ≡ first_broken (checks p (closes user session) (entry_of entry)) }
{
    if SESSION_NUMBERS <= session {
        return Err(Refusal::UnknownSession);
    }
    if !registered {
        return Err(Refusal::UnregisteredUser);
    }
    if entry.live == 0 {
        return Err(Refusal::SessionNotOpen);
    }
    if entry.user != user {
        return Err(Refusal::SessionOfAnother);
    }
    Ok(())
}

// The refusals that add and drop share: those of close, then those of a set.
fn of_change(
    entry: Session,
    reach: Option<u32>,
    over: bool,
    user: u32,
    session: u32,
    set: u32,
) -> Result<(), Refusal>
    ensures { (p : policy.Policy) → reach ≡ reach_if p user → refusal_of result ≡ first_broken (change_checks p user session set over (entry_of entry)) }
{
    of_close(entry, reach.is_some(), user, session)?;
    // The user is registered by now, and has a reach.
    of_set(sets::within(set, reach.unwrap_or(0)), over)
}

// The refusals of add, where the set that is held after it is over a conflict or not.
pub fn of_add(
    entry: Session,
    reach: Option<u32>,
    over: bool,
    user: u32,
    session: u32,
    set: u32,
) -> Result<(), Refusal>
    ensures { (p : policy.Policy) → reach ≡ reach_if p user → over ≡ too_many p (union entry.held set) → refusal_of result ≡ first_broken (checks p (adds user session set) (entry_of entry)) }
{
    of_change(entry, reach, over, user, session, set)
}

// The refusals of drop: what a session holds is within every conflict, and so is less of it.
pub fn of_drop(
    entry: Session,
    reach: Option<u32>,
    user: u32,
    session: u32,
    set: u32,
) -> Result<(), Refusal>
    ensures { (p : policy.Policy) → reach ≡ reach_if p user → refusal_of result ≡ first_broken (checks p (drops user session set) (entry_of entry)) }
{
    of_change(entry, reach, false, user, session, set)
}
