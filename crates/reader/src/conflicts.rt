// The conflicts of a text.
ghost use Rattle.std.specs.Prelude.{◌≡◌, ◌≤◌, []};
ghost use Rattle.policy.specs.Checks.{conflict_in, conflict_fits};
ghost use Rattle.policy.specs.Limits.{most_values};
ghost use Rattle.policy.specs.Value.{conflicts_value};
ghost use Rattle.reader.specs.Inner.Cursor.{Stands};
ghost use Rattle.reader.specs.Inner.Lists.{ConflictsRead};

use crate::cursor::Cursor;
use crate::lines::Lines;
use checks::shape::Shape;
use policy::refusal::Refusal;
use policy::value::{Conflict, Conflicts, Rejection};
use text::kind::Kind;
use text::number::Numbers;

// Of the user side.
#[derive(Clone, Copy)]
struct ConflictLines {
    user: Shape,
    ghost small: { user.total ≤ most_values },
}

impl Lines for ConflictLines {
    type Element = Conflict;

    ghost says = { conflict_in };

    ghost passes = { λ s x. conflict_fits s.user.total x };

    fn said(&self, numbers: Numbers) -> Conflict {
        Conflict {
            set: numbers.first,
            most: numbers.second,
        }
    }

    fn fits(&self, x: &Conflict) -> bool {
        self.user.conflict_fits(x)
    }
}

// The conflicts from the cursor on, of values of this user side, into a list with none.
pub fn read(
    text: &[u8],
    cursor: Cursor,
    user: &Shape,
    list: &mut Conflicts,
) -> Result<Cursor, Rejection>
    requires { Stands text.now cursor × (user.now.total ≤ most_values) × (list.old ≡ conflicts_value []) }
    ensures { ConflictsRead text.now user.now.total cursor list.new result }
{
    let lines = ConflictLines { user: *user };
    let (count, c) = crate::lines::read(
        text,
        cursor,
        Kind::Conflict,
        &lines,
        Refusal::TooManyConflicts,
        &mut list.entries,
    )?;
    list.count = count;
    Ok(c)
}
