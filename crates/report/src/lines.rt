// The lines of a report, each put at the start of a lent buffer.
ghost use Rattle.std.specs.Prelude.{◌≡◌, ◌+◌, ◌*◌, ◌/◌, ◌%◌, ◌^◌, ◌<◌, ◌≤◌, length};
ghost use Rattle.policy.specs.Limits.{most_tuples};
ghost use Rattle.formula.specs.Inner.Lane.{lanes};
ghost use Rattle.tuples.specs.Inner.Marks.{marked};
ghost use Rattle.writer.specs.Inner.Put.{Put};
ghost use Rattle.report.specs.Report.{refusal_line, labels_line, action_line};
ghost use Rattle.report.specs.Inner.Lines.{line_room, ended, tuple_text, Some};
ghost use Rattle.report.specs.Inner.Cursor.{marks_end};

use crate::cursor::Tuples;
use crate::runs;
use crate::runs::{Ends, Start};
use formula::side::LANES;
use writer::line;

// Room for any of these lines: a word of at most 7 bytes, three numbers of at most 10 digits, each after a comma, and a
// line feed.
pub const ROOM: usize = 7 + 3 * (10 + 1) + 1;

// Where the lines put end, and from which number on the lines of tuples are left.
#[derive(Clone, Copy)]
pub struct Lines {
    pub at: usize,
    pub next: usize,
}

// The line of a refused text.
pub fn refusal_line(number: u32, line: u32, buf: &mut [u8]) -> usize
    requires { line_room ≤ length buf.old }
    ensures { Put (ended (refusal_line number line)) 0 buf.old buf.new result }
{
    line::put(b"refused", &[number, line], buf)
}

// The line of the numbers of labels.
pub fn labels_line(users: u32, objects: u32, buf: &mut [u8]) -> usize
    requires { line_room ≤ length buf.old }
    ensures { Put (ended (labels_line users objects)) 0 buf.old buf.new result }
{
    line::put(b"labels", &[users, objects], buf)
}

// The line of an action with its number of tuples.
pub fn action_line(action: u32, count: u32, buf: &mut [u8]) -> usize
    requires { line_room ≤ length buf.old }
    ensures { Put (ended (action_line action count)) 0 buf.old buf.new result }
{
    line::put(b"action", &[action, count], buf)
}

// The user set of a stored tuple, where the object side has `values` values.
fn user_set(n: u32, values: u32) -> u32
    requires { values < 32 }
    ensures { result ≡ n / 2 ^ values }
{
    n >> values
}

// Its object set.
fn object_set(n: u32, values: u32) -> u32
    requires { values < 32 }
    ensures { result ≡ n % 2 ^ values }
{
    n % (1 << values)
}

// How many numbers from t on have the user set of t and their bits in the word of bit x.
fn run_length(values: u32, t: u32, x: usize) -> usize
    requires { values < 32 }
    ensures { (0 < result) × (t % 2 ^ values + result ≤ 2 ^ values) × (x % lanes + result ≤ lanes) }
{
    let of_set = (1 << values) - object_set(t, values);
    (of_set as usize).min(LANES - x % LANES)
}

// The lines of the tuples that are left of a strip, as long as there is room for a line. They are put run by run, since
// the lines of a run start alike.
pub fn tuple_lines(tuples: &Tuples, buf: &mut [u8]) -> Lines
    requires { (tuples.now.values < 32) × (tuples.now.first * lanes ≤ most_tuples) × (tuples.now.from ≤ marks_end tuples.now) }
    ensures { Some (λ k. tuple_text tuples.now.action tuples.now.values (tuples.now.first * lanes + k)) (marked tuples.now.marks.words) (marks_end tuples.now) tuples.now.from buf.old buf.new result }
{
    let values = tuples.values;
    let start = tuples.first * LANES;
    let end = tuples.marks.count * LANES;
    let ends = Ends::of(values, buf.len() / ROOM);
    let mut head = Start::of(tuples.action, 0);
    let mut at = 0;
    let mut next = tuples.from;
    // No `for`: a run ends where its user set or its word does.
    while next < end {
        if buf.len() - at < ROOM {
            return Lines { at, next };
        }
        let x = tuples.marks.next(next);
        if end <= x {
            return Lines { at, next: x };
        }
        let t = (start + x) as u32;
        head = head.for_user(user_set(t, values));
        let count = run_length(values, t, x);
        let w = tuples.marks.word_from(x);
        let object = object_set(t, values);
        let lines = runs::run_lines(&head, &ends, object, w, count, &mut buf[at..]);
        at += lines.at;
        next = x + lines.next;
    }
    Lines { at, next }
}
