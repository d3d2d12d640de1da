// The direct seniorities of a side.
ghost use Rattle.std.specs.Prelude.{◌≡◌, ◌≤◌};
ghost use Rattle.policy.specs.Limits.{most_values};
ghost use Rattle.policy.specs.Policy.{blank_side};
ghost use Rattle.policy.specs.Inner.Sound.{line_in};
ghost use Rattle.policy.specs.Value.{side_value};
ghost use Rattle.checks.specs.Inner.{sizes_in};
ghost use Rattle.reader.specs.Inner.Cursor.{Stands};
ghost use Rattle.reader.specs.Inner.Lists.{direct_in, SenioritiesRead};

use crate::cursor::Cursor;
use crate::lines::Lines;
use checks::shape::Shape;
use policy::refusal::Refusal;
use policy::value::{Rejection, SideValue};
use seniority::Direct;
use text::kind::Kind;
use text::number::Numbers;

#[derive(Clone, Copy)]
struct DirectLines {
    side: Shape,
}

impl Lines for DirectLines {
    type Element = Direct;

    ghost says = { direct_in };

    ghost passes = { λ s. line_in (sizes_in s.side) };

    fn said(&self, numbers: Numbers) -> Direct {
        Direct {
            senior: numbers.first,
            junior: numbers.second,
        }
    }

    fn fits(&self, l: &Direct) -> bool {
        self.side.direct_fits(l)
    }
}

// The lines of this kind from the cursor on, into a side with no line, which is given its widths.
pub fn read(
    text: &[u8],
    cursor: Cursor,
    kind: Kind,
    shape: &Shape,
    side: &mut SideValue,
) -> Result<Cursor, Rejection>
    requires { Stands text.now cursor × (shape.now.total ≤ most_values) × (side.old ≡ side_value blank_side) }
    ensures { SenioritiesRead text.now kind shape.now cursor side.new result }
{
    let lines = DirectLines { side: *shape };
    // As seniorities rise, no list has too many: the refusal is never given.
    let full = Refusal::OutOfRange;
    let (count, c) = crate::lines::read(text, cursor, kind, &lines, full, &mut side.seniority)?;
    side.lines = count;
    side.attributes = shape.attributes;
    let widths = shape.widths;
    side.widths = widths;
    Ok(c)
}
