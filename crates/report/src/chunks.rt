// The report of a text, handed out in chunks: `start` gives a cursor, and `next` a chunk and the cursor behind it.
// What a cursor stands for is an inner condition, which the one gives and the other asks: they serve the program.
ghost use Rattle.std.specs.Prelude.{ℕ, ◌<◌, ◌≡◌, List, length};
ghost use Rattle.basis.specs.Lists.{over};
ghost use Rattle.policy.specs.Answers.{ReadAs};
ghost use Rattle.policy.specs.Read.{read_text};
ghost use Rattle.report.specs.Report as spec;
ghost use Rattle.report.specs.Inner.Lines.{ended, first_line};
ghost use Rattle.report.specs.Inner.Cursor.{held_bytes, HeldFits, Left, remaining};

use crate::cursor::{Chunk, Cursor, Held, Tuples};
use crate::{counts, cursor, lines, listed};
use formula::{attributes, grant};
use policy::value::{PolicyValue, Rejection};
use policy::{limits, value};
use tuples::blocks::Pairs;
use tuples::marks::Marks;

// The first line, held back: the numbers of labels, or the refusal.
fn first_line(read: Result<PolicyValue, Rejection>) -> Held
    requires { (t : List ℕ) × ReadAs (read_text t) read }
    ensures { HeldFits result × ((t : List ℕ) → ReadAs (read_text t) read → held_bytes result ≡ ended (first_line (read_text t))) }
{
    let mut bytes = cursor::blank();
    match read {
        Ok(policy) => {
            let counts = counts::count_labels(policy);
            let to = lines::labels_line(counts.users, counts.objects, &mut bytes);
            Held { from: 0, to, bytes }
        }
        Err(rejection) => {
            let number = u32::from(rejection.refusal);
            let to = lines::refusal_line(number, rejection.line as u32, &mut bytes);
            Held { from: 0, to, bytes }
        }
    }
}

// The start of the report of a text that was read so: what all chunks need of the text is worked out here, once. Of a
// refused text no action is listed, as of a policy with no line.
fn started(read: Result<PolicyValue, Rejection>) -> Cursor
    requires { (t : List ℕ) × ReadAs (read_text t) read }
    ensures { (t : List ℕ) → ReadAs (read_text t) read → Left result (spec.report (read_text t)) }
{
    let held = first_line(read);
    let policy = read.unwrap_or_else(|_| value::blank());
    let pairs = Pairs::of(policy.user, policy.object);
    let end = pairs.blocks();
    let tuples = Tuples {
        action: 0,
        values: attributes::total(pairs.source.sides.object),
        first: end,
        end,
        from: 0,
        marks: Marks::none(),
    };
    let grants = grant::of_policy(policy);
    let listed = listed::of_grants(grants, limits::actions(policy.form));
    Cursor {
        pairs,
        grants,
        listed,
        done: 0,
        tuples,
        held,
    }
}

// The start of a text's report.
pub fn start(text: &[u8]) -> Cursor
    ensures { Left result (spec.report (read_text text.now)) }
{
    started(reader::read(text))
}

// Stores the next chunk of a report at the start of a buffer: as many bytes as it has room for, and fewer only where
// nothing is left behind them. Says how many they are, and gives the cursor behind them.
pub fn next(cursor: Cursor, buffer: &mut [u8]) -> Chunk
    requires { (left : List ℕ) × Left cursor left }
    ensures counted { (left : List ℕ) → Left cursor left → result.count ≡ length (spec.chunk (length buffer.old) left) }
    ensures stored { (left : List ℕ) → Left cursor left → buffer.new ≡ over (spec.chunk (length buffer.old) left) buffer.old }
    ensures left_behind { (left : List ℕ) → Left cursor left → Left result.next (spec.behind (length buffer.old) left) }
    ensures falls { 0 < result.count → remaining result.next < remaining cursor }
{
    let mut next = cursor;
    let mut count: usize = 0;
    // No `for`: a step hands out as many bytes as it has, or none.
    while count < buffer.len() {
        if next.is_over() {
            return Chunk { count, next };
        }
        count += next.step(&mut buffer[count..]);
    }
    Chunk { count, next }
}
