// The widths of a side's attributes.
ghost use Rattle.std.specs.Prelude.{◌≤◌};
ghost use Rattle.policy.specs.Limits.{most_values};
ghost use Rattle.reader.specs.Inner.Cursor.{Stands};
ghost use Rattle.reader.specs.Inner.Lists.{WidthsRead};

use crate::cursor::Cursor;
use checks::shape::Shape;
use policy::refusal::Refusal;
use policy::value::{Rejection, WIDTH_PLACES};
use text::kind::Kind;

// The shape that the lines of this kind from the cursor on say, and the cursor behind them.
pub fn read(
    text: &[u8],
    cursor: Cursor,
    kind: Kind,
    most: u32,
) -> Result<(Shape, Cursor), Rejection>
    requires { Stands text.now cursor × (most ≤ most_values) }
    ensures { WidthsRead text.now kind most cursor result }
{
    // A loop of its own, not `lines::read`: widths add up, and need not rise.
    let mut widths = [0; WIDTH_PLACES];
    let mut attributes = 0;
    let mut total = 0;
    let mut c = cursor;
    while c.is_at(kind) {
        let w = c.numbers.first;
        if !checks::shape::width_fits(most, total, w) {
            return Err(c.refused(Refusal::OutOfRange));
        }
        widths[attributes] = w;
        attributes += 1;
        total += w;
        c = c.next(text, kind)?;
    }
    Ok((Shape::of(widths, attributes), c))
}
