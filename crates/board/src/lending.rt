// A call as a value, as a list of calls has it.
ghost use Rattle.std.specs.Prelude.{◌≡◌, map};
ghost use Rattle.policy.specs.Limits.{bits};
ghost use Rattle.labels.specs.Compile.{lent as lent_as};
ghost use Rattle.board.specs.Board.{labels_of, call_of, out_of, board_step};

use crate::{Board, Call, Lent, Step};
use policy::stored::Stored;
use policy::value::PolicyValue;

// One call, by its case.
pub fn take<L: Stored, E: Stored>(
    board: Board,
    policy: PolicyValue,
    lent: Lent<L, E>,
    call: Call,
) -> Step
    ensures { out_of result ≡ board_step policy (labels_of lent.entry.counts (lent_as (bits L.BITS E.BITS) (map L.number lent.entry.users.now) (map L.number lent.entry.objects.now) (map E.number lent.entry.table.now))) (call_of call) board }
{
    match call {
        Call::Open(user, session, set) => crate::open(board, policy, user, session, set),
        Call::Add(user, session, set) => crate::add(board, policy, user, session, set),
        Call::Drop(user, session, set) => crate::drop(board, policy, user, session, set),
        Call::Close(user, session) => crate::close(board, policy, user, session),
        Call::Request(session, action, object) => {
            crate::request(board, policy, lent, session, action, object)
        }
    }
}
