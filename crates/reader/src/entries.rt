// Registered users or objects.
ghost use Rattle.std.specs.Prelude.{◌≡◌, ◌≤◌, []};
ghost use Rattle.policy.specs.Inner.Sound.{number_in};
ghost use Rattle.policy.specs.Limits.{most_values};
ghost use Rattle.policy.specs.Value.{entry_places, register};
ghost use Rattle.reader.specs.Inner.Cursor.{Stands};
ghost use Rattle.reader.specs.Inner.Lists.{entry_in, EntriesRead};

use crate::cursor::Cursor;
use crate::lines::Lines;
use checks::shape::Shape;
use policy::refusal::Refusal;
use policy::value::{Entry, Register, Rejection};
use text::kind::Kind;
use text::number::Numbers;

// With numbers below `most` and sets of a side's values.
#[derive(Clone, Copy)]
struct EntryLines {
    most: u32,
    side: Shape,
    ghost small: { side.total ≤ most_values },
}

impl Lines for EntryLines {
    type Element = Entry;

    ghost says = { entry_in };

    ghost passes = { λ s. number_in s.most s.side.total };

    fn said(&self, numbers: Numbers) -> Entry {
        Entry {
            number: numbers.first,
            set: numbers.second,
        }
    }

    fn fits(&self, e: &Entry) -> bool {
        self.side.entry_fits(self.most, e)
    }
}

// The lines of this kind from the cursor on, with numbers below `most` and sets of this side's values, into a list with
// none.
pub fn read(
    text: &[u8],
    cursor: Cursor,
    kind: Kind,
    most: u32,
    side: &Shape,
    list: &mut Register,
) -> Result<Cursor, Rejection>
    requires { Stands text.now cursor × (most ≤ entry_places) × (side.now.total ≤ most_values) × (list.old ≡ register []) }
    ensures { EntriesRead text.now kind most side.now.total cursor list.new result }
{
    let lines = EntryLines { most, side: *side };
    // As numbers rise, no list has too many: the refusal is never given.
    let full = Refusal::OutOfRange;
    let (count, c) = crate::lines::read(text, cursor, kind, &lines, full, &mut list.entries)?;
    list.count = count;
    Ok(c)
}
