// What a request comes to before any label is looked up: the sets that it is about, or one of refusals 11 to 17.
ghost use Rattle.std.specs.Prelude.{◌≡◌, ℕ};
ghost use Rattle.policy.specs.Limits as limits;
ghost use Rattle.policy.specs.Policy as policy;
ghost use Rattle.board.specs.Machine.{requests};
ghost use Rattle.board.specs.Board.{entry_of, Labels, board_step};
ghost use Rattle.board.specs.Inner.{asked_of, asked, answered};

use crate::{Board, Session, entries, fit, reach};
use policy::limits;
use policy::limits::{SESSION_NUMBERS, Widths};
use policy::refusal::Refusal;
use policy::value::PolicyValue;

// The set that the session holds and the object's set.
#[derive(Clone, Copy)]
pub struct Asked {
    pub held: u32,
    pub object: u32,
}

// A request, by how many actions there are, the session's entry and the object's set, if it is registered.
fn judge(
    actions: u32,
    entry: Session,
    set: Option<u32>,
    session: u32,
    action: u32,
) -> Result<Asked, Refusal>
    ensures { (p : policy.Policy) (n : ℕ) → actions ≡ limits.actions p.form → set ≡ policy.set_of_number p.objects n → asked_of result ≡ asked p session action n (entry_of entry) }
{
    if actions <= action {
        return Err(Refusal::UnknownAction);
    }
    if SESSION_NUMBERS <= session {
        return Err(Refusal::UnknownSession);
    }
    let Some(object) = set else {
        return Err(Refusal::UnregisteredObject);
    };
    if entry.live == 0 {
        return Err(Refusal::SessionNotOpen);
    }
    Ok(Asked {
        held: entry.held,
        object,
    })
}

// A request that is made for these widths: check 11, then the others.
pub fn of(
    board: &Board,
    policy: &PolicyValue,
    widths: Widths,
    session: u32,
    action: u32,
    object: u32,
) -> Result<Asked, Refusal>
    ensures { (l : Labels) → l.buffers.widths ≡ widths → record { reply = answered l action (asked_of result); state = board.now } ≡ board_step policy.now l (requests session action object) board.now }
{
    if !limits::own_widths(policy.form, widths) {
        return Err(Refusal::InvalidState);
    }
    if !fit::fits(policy, board) {
        return Err(Refusal::InvalidState);
    }
    let actions = limits::actions(policy.form);
    let entry = entries::at(&board.sessions, session);
    let set = reach::set_of(&policy.objects, object);
    judge(actions, entry, set, session, action)
}
