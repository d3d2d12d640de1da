// A place in a report: what is left of it from there on, and how that is handed out.
ghost use Rattle.std.specs.Prelude.{◌+◌, ◌≤◌, ◌<◌, ◌≡◌, false, length};
ghost use Rattle.policy.specs.Policy.{Policy};
ghost use Rattle.report.specs.Inner.Lines.{line_room};
ghost use Rattle.report.specs.Inner.Cursor.{Standing, Handed, Same, up_to, marks_end, numbers_end, next_number, is_over, remaining};

use crate::lines;
use crate::lines::ROOM;
use crate::listed::Listed;
use formula::grant;
use formula::grant::Grants;
use formula::side::LANES;
use tuples::blocks::Pairs;
use tuples::marks::Marks;
use tuples::strips;
use writer::bytes;

// Bytes that were worked out and not yet handed out: those from `from` on and before `to`. An array and where its bytes
// stand, since there is no heap.
#[derive(Clone, Copy)]
pub struct Held {
    pub from: usize,
    pub to: usize,
    pub bytes: [u8; ROOM],
}

// The tuples of an action whose lines are left: of the strip that starts at block `first`, those marked from `from` on,
// and those of the strips behind it, up to block `end`. `values` is that of the object side.
#[derive(Clone, Copy)]
pub struct Tuples {
    pub action: u32,
    pub values: u32,
    pub first: usize,
    pub end: usize,
    pub from: usize,
    pub marks: Marks,
}

// What is left: the bytes held, then the lines of these tuples, then the blocks of the listed actions from `done` on.
#[derive(Clone, Copy)]
pub struct Cursor {
    pub pairs: Pairs,
    pub grants: Grants,
    pub listed: Listed,
    pub done: usize,
    pub tuples: Tuples,
    pub held: Held,
}

// How many bytes were handed out, and the place behind them.
#[derive(Clone, Copy)]
pub struct Chunk {
    pub count: usize,
    pub next: Cursor,
}

// Room for a line.
pub fn blank() -> [u8; ROOM]
    ensures { line_room ≡ length result }
{
    [0; ROOM]
}

impl Cursor {
    // Whether nothing is left.
    pub(crate) fn is_over(&self) -> bool
        requires { (p : Policy) × Standing p self.now }
        ensures { result ≡ is_over self.now }
    {
        self.held.to <= self.held.from
            && self.tuples.end * LANES <= self.tuples.first * LANES + self.tuples.from
            && self.listed.count <= self.done
    }

    // As many of the bytes held as the buffer has room for.
    fn hand_held(&mut self, buf: &mut [u8]) -> usize
        requires { ((p : Policy) × Standing p self.old) × (self.old.held.from < self.old.held.to) × (0 < length buf.old) }
        ensures { ((p : Policy) → Standing p self.old → Handed p self.old buf.old buf.new (up_to result self.new)) × (remaining self.new < remaining self.old) }
    {
        let from = self.held.from;
        let end = from + (self.held.to - from).min(buf.len());
        let count = bytes::put(&self.held.bytes[from..end], buf, 0);
        self.held.from = end;
        count
    }

    // The lines of the tuples that are left, as long as there is room for a line.
    fn hand_tuples(&mut self, buf: &mut [u8]) -> usize
        requires { ((p : Policy) × Standing p self.old) × (self.old.held.to ≤ self.old.held.from) × (self.old.tuples.from < marks_end self.old.tuples) × (line_room ≤ length buf.old) }
        ensures { ((p : Policy) → Standing p self.old → Handed p self.old buf.old buf.new (up_to result self.new)) × (remaining self.new + line_room < remaining self.old) × (self.new.held ≡ self.old.held) }
    {
        let lines = lines::tuple_lines(&self.tuples, buf);
        self.tuples.from = lines.next;
        lines.at
    }

    // The same, with a line held back for a buffer that has no room for it.
    fn hold_tuples(&mut self)
        requires { ((p : Policy) × Standing p self.old) × (self.old.held.to ≤ self.old.held.from) × (self.old.tuples.from < marks_end self.old.tuples) }
        ensures { ((p : Policy) → Standing p self.old → Same p self.old self.new) × (remaining self.new < remaining self.old) }
    {
        let mut line = blank();
        let lines = lines::tuple_lines(&self.tuples, &mut line);
        self.tuples.from = lines.next;
        self.held = Held {
            from: 0,
            to: lines.at,
            bytes: line,
        };
    }

    // The tuples of the next strip.
    fn to_strip(&mut self)
        requires { ((p : Policy) × Standing p self.old) × (marks_end self.old.tuples ≤ self.old.tuples.from) × (self.old.tuples.first + self.old.tuples.marks.count < self.old.tuples.end) }
        ensures { ((p : Policy) → Standing p self.old → Same p self.old self.new) × (remaining self.new < remaining self.old) }
    {
        let first = self.tuples.first + self.tuples.marks.count;
        let grant = grant::of_action(self.grants, self.tuples.action);
        let marks = self.pairs.marks(grant, first);
        self.tuples.first = first;
        self.tuples.from = 0;
        self.tuples.marks = marks;
    }

    // The tuples of the next action, with the action's line held back.
    fn to_action(&mut self)
        requires { ((p : Policy) × Standing p self.old) × (self.old.held.to ≤ self.old.held.from) × (numbers_end self.old.tuples ≤ next_number self.old.tuples) × (self.old.done < self.old.listed.count) }
        ensures { ((p : Policy) → Standing p self.old → Same p self.old self.new) × (remaining self.new < remaining self.old) }
    {
        let action = self.listed.actions[self.done];
        let grant = grant::of_action(self.grants, action);
        let marks = self.pairs.marks(grant, 0);
        let count = strips::count(&self.pairs, grant, &marks);
        let mut line = blank();
        let to = lines::action_line(action, count as u32, &mut line);
        self.done += 1;
        self.tuples.action = action;
        self.tuples.first = 0;
        self.tuples.from = 0;
        self.tuples.marks = marks;
        self.held = Held {
            from: 0,
            to,
            bytes: line,
        };
    }

    // The tuples of the next strip, or of the next action.
    fn to_more(&mut self)
        requires { ((p : Policy) × Standing p self.old) × (is_over self.old ≡ false) × (self.old.held.to ≤ self.old.held.from) × (marks_end self.old.tuples ≤ self.old.tuples.from) }
        ensures { ((p : Policy) → Standing p self.old → Same p self.old self.new) × (remaining self.new < remaining self.old) }
    {
        if self.tuples.first + self.tuples.marks.count < self.tuples.end {
            self.to_strip();
        } else {
            self.to_action();
        }
    }

    // Hands out the next bytes, or none and stands where more are handed out.
    pub(crate) fn step(&mut self, buf: &mut [u8]) -> usize
        requires { ((p : Policy) × Standing p self.old) × (is_over self.old ≡ false) × (0 < length buf.old) }
        ensures { ((p : Policy) → Standing p self.old → Handed p self.old buf.old buf.new (up_to result self.new)) × (remaining self.new < remaining self.old) }
    {
        if self.held.from < self.held.to {
            return self.hand_held(buf);
        }
        if self.tuples.marks.count * LANES <= self.tuples.from {
            self.to_more();
            return 0;
        }
        if buf.len() < ROOM {
            self.hold_tuples();
            return 0;
        }
        self.hand_tuples(buf)
    }
}
