// The rules of a text.
ghost use Rattle.std.specs.Prelude.{◌≡◌, []};
ghost use Rattle.policy.specs.Value.{rules_value};
ghost use Rattle.reader.specs.Inner.Cursor.{Stands};
ghost use Rattle.reader.specs.Inner.Lists.{RulesRead};

use crate::cursor::Cursor;
use checks::shape::Shapes;
use policy::value::{Rejection, Rules};
use text::kind::Kind;

// The rules from the cursor on, into a list with none.
pub fn read(
    text: &[u8],
    cursor: Cursor,
    form: u32,
    shapes: &Shapes,
    list: &mut Rules,
) -> Result<Cursor, Rejection>
    requires { Stands text.now cursor × (list.old ≡ rules_value []) }
    ensures { RulesRead text.now form shapes.now cursor list.new result }
{
    // A loop of its own, not `lines::read`: a rule is read from the bytes of its line, and has refusals 5, 8 and 9 too.
    // The least action that rises above the last.
    let mut least = 0;
    let mut c = cursor;
    while c.is_at(Kind::Rule) {
        let action = c.numbers.first;
        let rule = match line::rule::admit(action, &text[c.at..c.end], least, form, shapes) {
            Ok(rule) => rule,
            Err(r) => return Err(c.refused(r)),
        };
        list.entries[list.count] = rule;
        list.count += 1;
        least = action + 1;
        c = c.next(text, Kind::Rule)?;
    }
    Ok(c)
}
