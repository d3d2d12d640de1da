// What a call makes of the board: refused, the old one; done, the board with the entry that the call's session gets.
ghost use Rattle.std.specs.Prelude.{◌≡◌, ◌<◌};
ghost use Rattle.policy.specs.Limits.{session_numbers};
ghost use Rattle.board.specs.Board.{out_of};
ghost use Rattle.board.specs.Inner.{refusal_of, invalid, settled};

use crate::{Board, Reply, Session, Step};
use policy::refusal::Refusal;

// The step of a call that check 11 refuses.
pub fn invalid(board: Board) -> Step
    ensures { out_of result ≡ invalid board }
{
    Step {
        answer: Err(Refusal::InvalidState),
        board,
    }
}

// The step of a call that changes a session, by its ruling and the entry that the session gets.
pub fn settle(board: Board, session: u32, ruling: Result<(), Refusal>, entry: Session) -> Step
    requires { refusal_of ruling ≡ None → session < session_numbers }
    ensures { out_of result ≡ settled board session (refusal_of ruling) entry }
{
    match ruling {
        Ok(()) => {
            let mut after = board;
            after.sessions[session as usize] = entry;
            Step {
                answer: Ok(Reply::Done),
                board: after,
            }
        }
        Err(why) => Step {
            answer: Err(why),
            board,
        },
    }
}
