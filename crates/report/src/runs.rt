// Runs of tuples' lines: those of the tuples that one word marks for one user set. Such lines start alike, so that
// their start is worked out once, and most of their ends stand in a table.
ghost use Rattle.std.specs.Prelude.{◌+◌, ◌*◌, ◌^◌, ◌≤◌, ◌<◌, ◌≡◌, ◌∷◌, [], ◌++◌, length, take};
ghost use Rattle.formula.specs.Inner.Lane.{lanes};
ghost use Rattle.tuples.specs.Inner.Marks.{marked};
ghost use Rattle.basis.specs.Bytes.{bytes as codes};
ghost use Rattle.writer.specs.Inner.Put.{Room, Put, start_line, end_line};
ghost use Rattle.report.specs.Inner.Lines.{Some};
ghost use Rattle.report.specs.Inner.Runs.{start_room, most_tabled, EndsTo};

use crate::lines::{Lines, ROOM};
use writer::{bytes, line};

// Room for the start of a line, up to its object set: 7 + 2 * (10 + 1) + 1 bytes, and two more, since 32 are copied faster.
const START: usize = 32;

// The table has room for the ends of the numbers of three digits below this one, four bytes each.
const TABLED: usize = 512;

const ENDS: usize = TABLED * 4;

// The start of the lines of an action and a user set: so many bytes of the text, and no fewer than are copied at once.
#[derive(Clone, Copy)]
pub struct Start {
    pub action: u32,
    pub user: u32,
    pub count: usize,
    pub text: [u8; START],
    ghost least: { 8 ≤ count },
    ghost most: { count ≤ start_room },
    ghost long: { start_room ≤ length text },
    ghost are: { take count text ≡ start_line (codes "tuple") (action ∷ user ∷ []) },
}

impl Start {
    // That of an action and a user set.
    pub fn of(action: u32, user: u32) -> Start
        ensures { (result.action ≡ action) × (result.user ≡ user) }
    {
        let mut text = [0u8; START];
        let count = line::put_start(b"tuple", &[action, user], &mut text);
        Start {
            action,
            user,
            count,
            text,
        }
    }

    // That of the same action and a user set, which is mostly the same too.
    pub fn for_user(self, user: u32) -> Start
        ensures { (result.action ≡ self.action) × (result.user ≡ user) }
    {
        if self.user == user {
            self
        } else {
            Start::of(self.action, user)
        }
    }

    // Puts it. One of up to 16 bytes is put as its first eight bytes and its last eight, which may overlap: copies of a
    // length that is known take no loop.
    fn put(&self, buf: &mut [u8], at: usize) -> usize
        requires { Room (take self.now.count self.now.text) at buf.old }
        ensures { Put (take self.now.count self.now.text) at buf.old buf.new result }
    {
        let count = self.count;
        if 16 < count {
            return bytes::put(&self.text[..count], buf, at);
        }
        bytes::put(&self.text[..8], buf, at);
        let last = count - 8;
        bytes::put(&self.text[last..count], buf, at + last)
    }
}

// A table of the ends of lines, with those of the numbers of three digits below `count`.
#[derive(Clone, Copy)]
pub struct Ends {
    pub count: usize,
    pub bytes: [u8; ENDS],
    ghost few: { count ≤ most_tabled },
    ghost long: { most_tabled * 4 ≤ length bytes },
    ghost stand: { EndsTo count bytes },
}

impl Ends {
    // Those of the numbers that sets of so many values have. There are no more of them than there is room for lines,
    // since more would not pay.
    pub fn of(values: u32, lines: usize) -> Ends
        requires { values < 32 }
    {
        let count = (1 << values).min(TABLED).min(lines);
        let mut bytes = [0u8; ENDS];
        for n in 100..count {
            line::put_end(n as u32, &mut bytes, n * 4);
        }
        Ends { count, bytes }
    }

    // Puts the end of a line, with an object set.
    fn put(&self, object: u32, buf: &mut [u8], at: usize) -> usize
        requires { Room (end_line object) at buf.old }
        ensures { Put (end_line object) at buf.old buf.new result }
    {
        let n = object as usize;
        if n < 100 || self.count <= n {
            return line::put_end(object, buf, at);
        }
        let from = n * 4;
        let to = from + 4;
        bytes::put(&self.bytes[from..to], buf, at)
    }
}

// The lines of the first `count` numbers from an object set on that w marks, as long as there is room for a line.
pub fn run_lines(
    head: &Start,
    ends: &Ends,
    object: u32,
    w: u64,
    count: usize,
    buf: &mut [u8],
) -> Lines
    requires { (count ≤ lanes) × (object + count ≤ 2 ^ 32) }
    ensures { Some (λ k. take head.now.count head.now.text ++ end_line (object + k)) (marked (w ∷ [])) count 0 buf.old buf.new result }
{
    // A copy of its own: what stands behind a reference may be read again after each byte that is stored.
    let head = *head;
    let mut at = 0;
    let mut k: usize = 0;
    let mut rest = w;
    // No `for`: from one marked number to the next, however far that is.
    while rest != 0 {
        if buf.len() - at < ROOM {
            return Lines { at, next: k };
        }
        let zeros = rest.trailing_zeros();
        let next = k + zeros as usize;
        if count <= next {
            return Lines { at, next: count };
        }
        let end = head.put(buf, at);
        at = ends.put(object + next as u32, buf, end);
        rest = (rest >> zeros) >> 1;
        k = next + 1;
    }
    Lines { at, next: count }
}
