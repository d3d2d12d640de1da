// The lines of a list in order, from a place on: each line is put into the rest of the buffer.
ghost use Rattle.std.specs.Prelude.{ℕ, ◌≡◌, Bool, true, List};
ghost use Rattle.basis.specs.Lists.{all};
ghost use Rattle.writer.specs.Inner.Put.{Room, Put, each};

use crate::line;
use policy::value::{Conflict, Entry, Pair, RuleValue};
use seniority::Direct;

// What has a line of its own, behind the word of its kind.
pub trait Line {
    // whether it can be written, and its line
    ghost writable: { Self → Bool };

    ghost line: { List ℕ → Self → List ℕ };

    fn put(&self, word: &[u8], buf: &mut [u8]) -> usize
        requires can { writable self.now ≡ true }
        requires room { Room (line word.now self.now) 0 buf.old }
        ensures { Put (line word.now self.now) 0 buf.old buf.new result };
}

// A width.
impl Line for u32 {
    ghost use Rattle.writer.specs.Inner.Put.{always, one_line};

    ghost writable = { always };

    ghost line = { one_line };

    fn put(&self, word: &[u8], buf: &mut [u8]) -> usize {
        line::put(word, &[*self], buf)
    }
}

impl Line for Direct {
    ghost use Rattle.writer.specs.Inner.Put.{always, direct_line};

    ghost writable = { always };

    ghost line = { direct_line };

    fn put(&self, word: &[u8], buf: &mut [u8]) -> usize {
        line::put(word, &[self.senior, self.junior], buf)
    }
}

// A user or an object.
impl Line for Entry {
    ghost use Rattle.writer.specs.Inner.Put.{always, entry_line};

    ghost writable = { always };

    ghost line = { entry_line };

    fn put(&self, word: &[u8], buf: &mut [u8]) -> usize {
        line::put(word, &[self.number, self.set], buf)
    }
}

impl Line for Conflict {
    ghost use Rattle.writer.specs.Inner.Put.{always, conflict_line};

    ghost writable = { always };

    ghost line = { conflict_line };

    fn put(&self, word: &[u8], buf: &mut [u8]) -> usize {
        line::put(word, &[self.set, self.most], buf)
    }
}

impl Line for RuleValue {
    ghost use Rattle.writer.specs.Inner.Put.{rule_line, rule_writable};

    ghost writable = { rule_writable };

    ghost line = { rule_line };

    fn put(&self, word: &[u8], buf: &mut [u8]) -> usize {
        line::put_formula(word, self.action, &self.words[..self.count], buf)
    }
}

impl Line for Pair {
    ghost use Rattle.writer.specs.Inner.Put.{always, pair_line};

    ghost writable = { always };

    ghost line = { pair_line };

    fn put(&self, word: &[u8], buf: &mut [u8]) -> usize {
        line::put(word, &[self.action, self.user, self.object], buf)
    }
}

// The lines of some elements.
pub fn put_each<T: Line>(word: &[u8], items: &[T], buf: &mut [u8], start: usize) -> usize
    requires can { all T.writable items.now ≡ true }
    requires room { Room (each (T.line word.now) items.now) start buf.old }
    ensures { Put (each (T.line word.now) items.now) start buf.old buf.new result }
{
    let mut at = start;
    for item in items {
        at += item.put(word, &mut buf[at..]);
    }
    at
}
