// The sessions of a board: an entry for each session number.
ghost use Rattle.std.specs.Prelude.{◌≡◌, get_or};
ghost use Rattle.board.specs.Board.{closed};

use crate::{SESSION_PLACES, Session};

// The entry of a session that is not open.
pub const CLOSED: Session = Session {
    live: 0,
    user: 0,
    held: 0,
};

// The entry of a session number; a closed one past the last.
pub fn at(sessions: &[Session; SESSION_PLACES], session: u32) -> Session
    ensures { result ≡ get_or sessions.now session closed }
{
    sessions.get(session as usize).copied().unwrap_or(CLOSED)
}
