// The board of staff sessions: its five calls.
#![tactic(auto)]

ghost use Rattle.std.specs.Prelude.{◌≡◌, map};
ghost use Rattle.policy.specs.Answers.{reply_number};
ghost use Rattle.policy.specs.Limits.{bits};
ghost use Rattle.labels.specs.Compile.{lent as lent_as};
ghost use Rattle.board.specs.Machine.{opens, adds, drops, closes, requests};
ghost use Rattle.board.specs.Board.{Labels, labels_of, replied, reply_of, out_of, fresh, board_step};

mod asking;
mod assigned;
mod buffers;
mod conflicts;
mod entries;
mod fit;
mod juniors;
pub mod lending;
mod reach;
mod rulings;
mod steps;

pub use buffers::Lent;
use policy::limits::{SESSION_NUMBERS, Widths};
use policy::refusal::Refusal;
use policy::stored::Stored;
use policy::value::PolicyValue;

// A board has a place for each session number.
const SESSION_PLACES: usize = SESSION_NUMBERS as usize;

// The entry of a session number: while it is live, which document 01 calls open, its user and the set it holds. It is
// live at every number but 0; the calls store 1. A number and no Option, since C lays the entry out and may hand over any
// number.
#[repr(C)]
#[derive(Clone, Copy)]
pub struct Session {
    pub live: u32,
    pub user: u32,
    pub held: u32,
}

// An entry for each session number.
#[repr(C)]
#[derive(Clone, Copy)]
pub struct Board {
    pub sessions: [Session; SESSION_PLACES],
}

// A call, with its arguments in document 01's order.
#[derive(Clone, Copy)]
pub enum Call {
    Open(u32, u32, u32),
    Add(u32, u32, u32),
    Drop(u32, u32, u32),
    Close(u32, u32),
    Request(u32, u32, u32),
}

// What a call answers that is not refused, by its number.
#[derive(Clone, Copy, PartialEq, Eq)]
pub enum Reply {
    Denied = 0,
    Granted = 1,
    Done = 2,
}

impl From<Reply> for u32 {
    ghost from_gives = { λ reply n. n ≡ reply_number (replied reply) };

    fn from(reply: Reply) -> u32 {
        reply as u32
    }
}

// What a call answers, or why it is refused, and the board after it; after a refusal, the old board.
#[derive(Clone, Copy)]
pub struct Step {
    pub answer: Result<Reply, Refusal>,
    pub board: Board,
}

// The number of an answer: its reply's, or its refusal's. No `From`, since neither type is of this crate alone.
pub fn number_of(answer: Result<Reply, Refusal>) -> u32
    ensures { result ≡ reply_number (reply_of answer) }
{
    match answer {
        Ok(reply) => u32::from(reply),
        Err(why) => u32::from(why),
    }
}

// A board that holds no session.
pub fn fresh() -> Board
    ensures { result ≡ fresh }
{
    Board {
        sessions: [entries::CLOSED; SESSION_PLACES],
    }
}

// The calls take what document 01 names, in its order.
// Each of these four begins by check 11 and the session's entry. One function of these lines for all would save none of
// them, since its answer would be taken apart again.

// Opens a session of the user that holds the set.
pub fn open(board: Board, policy: PolicyValue, user: u32, session: u32, set: u32) -> Step
    ensures { (l : Labels) → out_of result ≡ board_step policy l (opens user session set) board }
{
    if !fit::fits(&policy, &board) {
        return steps::invalid(board);
    }
    let entry = entries::at(&board.sessions, session);
    let reach = reach::of(&policy.users, &policy.user, user);
    let over = conflicts::over(&policy.conflicts, &[set]);
    let ruling = rulings::of_open(entry, reach, over, session, set);
    let next = Session {
        live: 1,
        user,
        held: set,
    };
    steps::settle(board, session, ruling, next)
}

// The session's held set gains these values.
pub fn add(board: Board, policy: PolicyValue, user: u32, session: u32, set: u32) -> Step
    ensures { (l : Labels) → out_of result ≡ board_step policy l (adds user session set) board }
{
    if !fit::fits(&policy, &board) {
        return steps::invalid(board);
    }
    let entry = entries::at(&board.sessions, session);
    let reach = reach::of(&policy.users, &policy.user, user);
    let held = sets::union(entry.held, set);
    let over = conflicts::over(&policy.conflicts, &[held]);
    let ruling = rulings::of_add(entry, reach, over, user, session, set);
    let next = Session {
        live: 1,
        user: entry.user,
        held,
    };
    steps::settle(board, session, ruling, next)
}

// The session's held set loses these values.
pub fn drop(board: Board, policy: PolicyValue, user: u32, session: u32, set: u32) -> Step
    ensures { (l : Labels) → out_of result ≡ board_step policy l (drops user session set) board }
{
    if !fit::fits(&policy, &board) {
        return steps::invalid(board);
    }
    let entry = entries::at(&board.sessions, session);
    let reach = reach::of(&policy.users, &policy.user, user);
    let ruling = rulings::of_drop(entry, reach, user, session, set);
    let held = sets::minus(entry.held, set);
    let next = Session {
        live: 1,
        user: entry.user,
        held,
    };
    steps::settle(board, session, ruling, next)
}

// Closes the session: its entry goes, and its number may be opened again.
pub fn close(board: Board, policy: PolicyValue, user: u32, session: u32) -> Step
    ensures { (l : Labels) → out_of result ≡ board_step policy l (closes user session) board }
{
    if !fit::fits(&policy, &board) {
        return steps::invalid(board);
    }
    let entry = entries::at(&board.sessions, session);
    let found = reach::set_of(&policy.users, user);
    let ruling = rulings::of_close(entry, found.is_some(), user, session);
    steps::settle(board, session, ruling, entries::CLOSED)
}

// Grants or denies by the labels of the held set and the object's set, of a policy whose form stores labels and entries
// as they are lent: reads one number of each lent buffer.
pub fn request<L: Stored, E: Stored>(
    board: Board,
    policy: PolicyValue,
    lent: Lent<L, E>,
    session: u32,
    action: u32,
    object: u32,
) -> Step
    ensures { out_of result ≡ board_step policy (labels_of lent.entry.counts (lent_as (bits L.BITS E.BITS) (map L.number lent.entry.users.now) (map L.number lent.entry.objects.now) (map E.number lent.entry.table.now))) (requests session action object) board }
{
    let widths = Widths {
        label: L::BITS,
        entry: E::BITS,
    };
    let asked = asking::of(&board, &policy, widths, session, action, object);
    let answer = buffers::answer(lent, action, asked);
    Step { answer, board }
}
