// A list of calls on a fresh board: calls in, answers out.
#![tactic(auto)]

ghost use Rattle.std.specs.Prelude.{◌≡◌, map};
ghost use Rattle.policy.specs.Answers.{reply_number};
ghost use Rattle.policy.specs.Limits.{bits};
ghost use Rattle.labels.specs.Compile.{lent as lent_as};
ghost use Rattle.board.specs.Board.{labels_of, reply_of, out_of, board_step};
ghost use Rattle.runner.specs.Calls.{item_of};
ghost use Rattle.runner.specs.Run.{RunsAs};
ghost use Rattle.runner.specs.Inner.{item_step};

mod list;

use board::{Board, Call, Lent, Reply, Step, lending};
use policy::refusal::Refusal;
use policy::stored::Stored;
use policy::value::PolicyValue;

// How many answers a run stored, or why it stored none, and the board after the list; beside a refusal stands the fresh
// board.
#[derive(Clone, Copy)]
pub struct Ran {
    pub answered: Result<usize, Refusal>,
    pub board: Board,
}

// One item on a board: what is no call answers 5 and leaves the board.
fn answer<L: Stored, E: Stored>(
    board: Board,
    policy: PolicyValue,
    lent: Lent<L, E>,
    item: Option<Call>,
) -> Step
    ensures { out_of result ≡ item_step (board_step policy (labels_of lent.entry.counts (lent_as (bits L.BITS E.BITS) (map L.number lent.entry.users.now) (map L.number lent.entry.objects.now) (map E.number lent.entry.table.now)))) (item_of item) board }
{
    match item {
        Some(call) => lending::take(board, policy, lent, call),
        None => Step {
            answer: Err(Refusal::MalformedField),
            board,
        },
    }
}

// An answer's number as a byte. No `From`, since neither type is of this crate.
fn byte_of(answer: Result<Reply, Refusal>) -> u8
    ensures { result ≡ reply_number (reply_of answer) }
{
    board::number_of(answer) as u8
}

// Runs a list of calls from a fresh board, four numbers to a call, and stores a byte for each answer.
pub fn run<L: Stored, E: Stored>(
    policy: PolicyValue,
    lent: Lent<L, E>,
    calls: &[u32],
    answers: &mut [u8],
) -> Ran
    ensures { RunsAs policy (labels_of lent.entry.counts (lent_as (bits L.BITS E.BITS) (map L.number lent.entry.users.now) (map L.number lent.entry.objects.now) (map E.number lent.entry.table.now))) calls.now answers.old result answers.new }
{
    let n = list::count_of(calls.len());
    let mut board = board::fresh();
    if answers.len() < n {
        return Ran {
            answered: Err(Refusal::BufferTooShort),
            board,
        };
    }
    for i in 0..n {
        let step = answer(board, policy, lent, list::item_at(calls, i));
        answers[i] = byte_of(step.answer);
        board = step.board;
    }
    Ran {
        answered: Ok(n),
        board,
    }
}
