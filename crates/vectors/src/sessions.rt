// Sessions: lists of calls on a fresh board, their answers, and the sessions that the board holds after them.
ghost use Rattle.std.specs.Prelude.{◌*◌, ◌<◌, ◌^◌};
ghost use Rattle.std.specs.Mem.{type_size};

use crate::buffers::{Blank, ENTRIES};
use crate::cursor::NUMBERS;
use crate::found::Found;
use crate::labelling::SETS;
use crate::texts::policy_of;
use crate::{buffers, cursor, found};
use board::{Board, Lent};
use labels::Counts;
use runner::Ran;

// The sessions of a board.
const SESSIONS: usize = 32;

// More calls than a list has.
const CALLS: usize = 64;

// The first session at which a board does not hold exactly the sessions due, each as its number, user and set; counted
// on from the answers' buffer.
fn unlike(board: &Board, due: &[u32]) -> Option<usize> {
    let mut left = due;
    for (i, session) in board.sessions.iter().enumerate() {
        if session.live != 0 {
            let [number, user, held, rest @ ..] = left else {
                return Some(CALLS + i);
            };
            if cursor::size(*number) != i || *user != session.user || *held != session.held {
                return Some(CALLS + i);
            }
            left = rest;
        }
    }
    if left.is_empty() {
        None
    } else {
        Some(CALLS + SESSIONS - 1)
    }
}

// Compares what a run left with the answers due, which stand from `from` on, and the sessions due behind them.
fn compared(ran: Ran, answers: &[u8; CALLS], a: &[u32; NUMBERS], from: usize, n: usize) -> Found {
    let end = from.wrapping_add(cursor::size(a[7]));
    let place = match buffers::unlike(cursor::part(a, from, end), answers) {
        Some(i) => Some(i),
        None => unlike(&ran.board, cursor::part(a, end, n)),
    };
    found::of_count(ran.answered, place)
}

// A list of calls, with parts of the compiler's buffers.
pub fn played<L: Blank, E: Blank>(a: &[u32; NUMBERS], n: usize, text: &[u8]) -> Found
    requires labels { SETS * type_size L.row < 2 ^ 63 }
    requires table { ENTRIES * type_size E.row < 2 ^ 63 }
{
    let policy = policy_of(text);
    let mut users = [L::BLANK; SETS];
    let mut objects = [L::BLANK; SETS];
    let mut table = [E::BLANK; ENTRIES];
    // A refused compilation leaves the buffers blank, and what the calls are lent is that.
    let _ = labels::compile(policy, &mut users, &mut objects, &mut table);
    let lent = Lent {
        counts: Counts {
            users: a[2],
            objects: a[3],
        },
        users: buffers::lent(&users, a[4]),
        objects: buffers::lent(&objects, a[5]),
        table: buffers::lent(&table, a[6]),
    };
    let to = 8 + 4 * cursor::size(a[7]);
    let mut answers = [u8::BLANK; CALLS];
    let ran = runner::run(policy, lent, cursor::part(a, 8, to), &mut answers);
    compared(ran, &answers, a, to, n)
}
