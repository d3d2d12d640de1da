// A word field, put into a buffer from a place on.
ghost use Rattle.std.specs.Prelude.{◌≡◌, true};
ghost use Rattle.words.specs.Word.{written};
ghost use Rattle.words.specs.Inner.{in_digits};
ghost use Rattle.writer.specs.Inner.Put.{Room, Put, field};

use crate::bytes::put_field;
use words::{Comparison, Holding, Word};

// A comma and the word.
#[tactic(auto, unfolding(words::specs::Word::written, words::specs::Inner::in_digits))]
pub fn put(w: Word, buf: &mut [u8], at: usize) -> usize
    requires spelt { in_digits w ≡ true }
    requires room { Room (field (written w)) at buf.old }
    ensures { Put (field (written w)) at buf.old buf.new result }
{
    match w {
        Word::True => put_field(b"t", buf, at),
        Word::False => put_field(b"f", buf, at),
        Word::Holds(Holding::User(v)) => put_field(&[b'u', b'0' + v], buf, at),
        Word::Holds(Holding::Object(v)) => put_field(&[b'o', b'0' + v], buf, at),
        Word::Compares(Comparison::Dominates(i, j)) => {
            put_field(&[b'd', b'0' + i, b'0' + j], buf, at)
        }
        Word::Compares(Comparison::Equals(i, j)) => {
            put_field(&[b'q', b'0' + i, b'0' + j], buf, at)
        }
        Word::Not => put_field(b"n", buf, at),
        Word::And => put_field(b"a", buf, at),
        Word::Or => put_field(b"r", buf, at),
    }
}
