// The user side and the object side of a text.
ghost use Rattle.std.specs.Prelude.{◌≡◌};
ghost use Rattle.policy.specs.Policy.{blank};
ghost use Rattle.policy.specs.Value.{value_of};
ghost use Rattle.reader.specs.Inner.Lists.{FormFrom, SidesRead};
ghost use Rattle.reader.specs.declared.cursor.Cursor.{Cursor};

use crate::cursor::Cursor;
use checks::shape::Shapes;
use policy::value::{PolicyValue, Rejection};
use text::kind::Kind;

// The shapes of both sides, and the cursor behind their lines.
#[derive(Clone, Copy)]
pub struct Sides {
    pub shapes: Shapes,
    pub cursor: Cursor,
}

// The lines of the attributes and the seniorities behind this form, into a blank policy.
pub fn read(
    text: &[u8],
    cursor: Cursor,
    form: u32,
    policy: &mut PolicyValue,
) -> Result<Sides, Rejection>
    requires { ((c : Cursor) × FormFrom text.now c form cursor) × (policy.old ≡ value_of blank) }
    ensures { (c : Cursor) → FormFrom text.now c form cursor → SidesRead text.now c form policy.new result }
{
    policy.form = form;
    let most = policy::limits::values(form);
    let (user, cursor) = crate::widths::read(text, cursor, Kind::Uattr, most)?;
    let (object, cursor) = crate::widths::read(text, cursor, Kind::Oattr, most)?;
    let cursor = crate::seniorities::read(text, cursor, Kind::Usen, &user, &mut policy.user)?;
    let cursor = crate::seniorities::read(text, cursor, Kind::Osen, &object, &mut policy.object)?;
    let shapes = Shapes { user, object };
    Ok(Sides { shapes, cursor })
}
