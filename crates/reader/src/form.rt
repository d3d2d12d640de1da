// The form of a text.
ghost use Rattle.std.specs.Prelude.{◌≡◌, Some};
ghost use Rattle.text.specs.declared.kind.Kind.TheVariants as kind;
ghost use Rattle.reader.specs.Inner.Cursor.{Stands};
ghost use Rattle.reader.specs.Inner.Lists.{FormRead};

use crate::cursor::Cursor;
use policy::refusal::Refusal;
use policy::value::Rejection;
use text::kind::Kind;

// The form that the policy line at the cursor says, and the cursor behind it.
pub fn read(text: &[u8], cursor: Cursor) -> Result<(u32, Cursor), Rejection>
    requires { Stands text.now cursor × (cursor.ahead ≡ Some kind.Policy) }
    ensures { FormRead text.now cursor result }
{
    let form = cursor.numbers.first;
    if !policy::limits::is_form(form) {
        return Err(cursor.refused(Refusal::OutOfRange));
    }
    let next = cursor.next(text, Kind::Policy)?;
    Ok((form, next))
}
