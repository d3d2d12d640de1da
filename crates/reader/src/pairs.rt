// The pairs of a text.
ghost use Rattle.std.specs.Prelude.{◌≡◌, []};
ghost use Rattle.policy.specs.Checks.{pair_in, pair_fits};
ghost use Rattle.policy.specs.Value.{pairs_value};
ghost use Rattle.reader.specs.Inner.Cursor.{Stands};
ghost use Rattle.reader.specs.Inner.Lists.{PairsRead};

use crate::cursor::Cursor;
use crate::lines::Lines;
use checks::shape::Shapes;
use policy::refusal::Refusal;
use policy::value::{Pair, Pairs, Rejection};
use text::kind::Kind;
use text::number::Numbers;

// Of so many actions, and values of both sides.
#[derive(Clone, Copy)]
struct PairLines {
    actions: u32,
    shapes: Shapes,
}

impl Lines for PairLines {
    type Element = Pair;

    ghost says = { pair_in };

    ghost passes = { λ s x. pair_fits s.actions s.shapes.user.total s.shapes.object.total x };

    fn said(&self, numbers: Numbers) -> Pair {
        Pair {
            action: numbers.first,
            user: numbers.second,
            object: numbers.third,
        }
    }

    fn fits(&self, x: &Pair) -> bool {
        self.shapes.pair_fits(self.actions, x)
    }
}

// The pairs from the cursor on, of so many actions, into a list with none.
pub fn read(
    text: &[u8],
    cursor: Cursor,
    actions: u32,
    shapes: &Shapes,
    list: &mut Pairs,
) -> Result<Cursor, Rejection>
    requires { Stands text.now cursor × (list.old ≡ pairs_value []) }
    ensures { PairsRead text.now actions shapes.now.user.total shapes.now.object.total cursor list.new result }
{
    let lines = PairLines {
        actions,
        shapes: *shapes,
    };
    let (count, c) = crate::lines::read(
        text,
        cursor,
        Kind::Pair,
        &lines,
        Refusal::TooManyPairs,
        &mut list.entries,
    )?;
    list.count = count;
    Ok(c)
}
