// Decisions: by the policy and by tuples; listings; Apart.
ghost use Rattle.std.specs.Prelude.{◌*◌, ◌<◌, ◌^◌};
ghost use Rattle.std.specs.Mem.{type_size};

use crate::buffers::{Blank, ENTRIES};
use crate::cursor::NUMBERS;
use crate::found::Found;
use crate::texts::policy_of;
use crate::{buffers, cursor, found};
use labels::Witness;

fn decide(text: &[u8], action: u32, user: u32, object: u32) -> u32 {
    found::of_decision(formula::decide(policy_of(text), action, user, object))
}

// `F`: by the formula and the pairs.
pub fn by_formula(a: &[u32; NUMBERS], text: &[u8]) -> Found {
    found::bare(decide(text, a[2], a[3], a[4]))
}

// By tuples, in a buffer of so many entries.
pub fn by_tuples<S: Blank>(a: &[u32; NUMBERS], text: &[u8], entries: u32) -> Found
    requires { ENTRIES * type_size S.row < 2 ^ 63 }
{
    let policy = policy_of(text);
    let mut buffer = [S::BLANK; ENTRIES];
    let lent = buffers::first(&mut buffer, entries);
    // A refused listing leaves the buffer blank, and what is decided on is that.
    let _ = tuples::list(policy, a[2], lent);
    let decision = tuples::decide(policy, a[3], a[4], lent, cursor::size(a[5]));
    found::bare(found::of_decision(decision))
}

// What Apart answers, where what it names does tell the two user sets apart: one is granted and the other denied.
fn told(text: &[u8], witness: Witness, one: u32, other: u32) -> u32 {
    let x = decide(text, witness.action, one, witness.object);
    let y = decide(text, witness.action, other, witness.object);
    match (x, y) {
        (found::GRANTED, found::DENIED) | (found::DENIED, found::GRANTED) => found::APART,
        _ => found::UNFOUNDED,
    }
}

// `P`: Apart.
pub fn apart(a: &[u32; NUMBERS], text: &[u8]) -> Found {
    let answer = match labels::apart(policy_of(text), a[2], a[3]) {
        Ok(None) => found::ALIKE,
        Ok(Some(witness)) => told(text, witness, a[2], a[3]),
        Err(why) => u32::from(why),
    };
    found::bare(answer)
}

// `D`: whether an action and an object set tell two user sets apart.
pub fn tells(a: &[u32; NUMBERS], text: &[u8]) -> Found {
    let witness = Witness {
        action: a[4],
        object: a[5],
    };
    found::bare(told(text, witness, a[2], a[3]))
}

// A tuple in 32 bits; a blank is a blank.
fn widened<S: Blank>(x: S) -> u32 {
    let n = x.number();
    if n == S::BLANK.number() {
        u32::BLANK
    } else {
        n
    }
}

// The first place at which a buffer is not these runs of tuples, each as its first and last, with blanks behind them.
// Behind the runs both ends are blank. Runs that the buffer has no places for differ behind its end.
fn unlike_runs<S: Blank>(runs: &[u32], buffer: &[S]) -> Option<usize> {
    let mut k = 0usize;
    let mut due = cursor::at(runs, 0, u32::BLANK);
    for (i, &x) in buffer.iter().enumerate() {
        if widened(x) != due {
            return Some(i);
        }
        if due == cursor::at(runs, k.wrapping_add(1), u32::BLANK) {
            k = k.wrapping_add(2);
            due = cursor::at(runs, k, u32::BLANK);
        } else {
            due = due.wrapping_add(1);
        }
    }
    if k < runs.len() {
        Some(buffer.len())
    } else {
        None
    }
}

// A listing.
pub fn listed<S: Blank>(a: &[u32; NUMBERS], n: usize, text: &[u8]) -> Found
    requires { ENTRIES * type_size S.row < 2 ^ 63 }
{
    let mut buffer = [S::BLANK; ENTRIES];
    let count = tuples::list(policy_of(text), a[2], buffers::first(&mut buffer, a[3]));
    found::of_count(count, unlike_runs(cursor::part(a, 4, n), &buffer))
}
