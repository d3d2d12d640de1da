// The three lent buffers of a request: each is read at one place.
ghost use Rattle.std.specs.Prelude.{◌≡◌, map};
ghost use Rattle.policy.specs.Limits.{bits};
ghost use Rattle.policy.specs.Answers.{answer_of};
ghost use Rattle.labels.specs.Compile.{lent as lent_as};
ghost use Rattle.board.specs.Board.{labels_of, reply_of};
ghost use Rattle.board.specs.Inner.{sets_of, asked_of, answered, read_at, looked_up};

use crate::Reply;
use crate::asking::Asked;
use labels::{Counts, ObjectLabel, UserLabel};
use policy::refusal::Refusal;
use policy::stored;
use policy::stored::Stored;

// What a request is lent: how many labels are used on each side, the label of each set, and the table of entries.
#[derive(Clone, Copy)]
pub struct Lent<'a, L, E> {
    pub counts: Counts,
    pub users: &'a [L],
    pub objects: &'a [L],
    pub table: &'a [E],
}

// The number at a place of a lent buffer, where the place is in it.
fn at<S: Stored>(buffer: &[S], place: usize) -> Result<u32, Refusal>
    ensures { answer_of result ≡ read_at (map S.number buffer.now) place }
{
    stored::get(buffer, place).ok_or(Refusal::BufferTooShort)
}

// What the labels of two sets say of an action.
fn look_up<L: Stored, E: Stored>(
    lent: Lent<L, E>,
    action: u32,
    asked: Asked,
) -> Result<Reply, Refusal>
    ensures { reply_of result ≡ looked_up (labels_of lent.entry.counts (lent_as (bits L.BITS E.BITS) (map L.number lent.entry.users.now) (map L.number lent.entry.objects.now) (map E.number lent.entry.table.now))) action (sets_of asked) }
{
    let user = at(lent.users, asked.held as usize)?;
    let user = UserLabel(user);
    let object = at(lent.objects, asked.object as usize)?;
    let object = ObjectLabel(object);
    let place = labels::place(user, object, lent.counts.objects);
    let entry = at(lent.table, place)?;
    if sets::holds(entry, action) {
        Ok(Reply::Granted)
    } else {
        Ok(Reply::Denied)
    }
}

// The answer to a request: what the labels of its two sets say, or why it is refused.
pub fn answer<L: Stored, E: Stored>(
    lent: Lent<L, E>,
    action: u32,
    asked: Result<Asked, Refusal>,
) -> Result<Reply, Refusal>
    ensures { reply_of result ≡ answered (labels_of lent.entry.counts (lent_as (bits L.BITS E.BITS) (map L.number lent.entry.users.now) (map L.number lent.entry.objects.now) (map E.number lent.entry.table.now))) action (asked_of asked) }
{
    look_up(lent, action, asked?)
}
