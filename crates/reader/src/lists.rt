// The lists of a text behind its sides.
ghost use Rattle.reader.specs.Inner.Lists.{SidesFrom, ListsRead};
ghost use Rattle.reader.specs.declared.cursor.Cursor.{Cursor};

use crate::cursor::Cursor;
use crate::sides::Sides;
use policy::limits::{OBJECT_NUMBERS, USER_NUMBERS};
use policy::value::{PolicyValue, Rejection};
use text::kind::Kind;

// All lists behind these sides, each read where the one before it ends.
pub fn read(
    text: &[u8],
    sides: Sides,
    form: u32,
    policy: &mut PolicyValue,
) -> Result<Cursor, Rejection>
    requires { (c : Cursor) × SidesFrom text.now c form policy.old sides }
    ensures { (c : Cursor) → SidesFrom text.now c form policy.old sides → ListsRead text.now c policy.new result }
{
    let Sides { shapes, cursor } = sides;
    let user = &shapes.user;
    let object = &shapes.object;
    let c = crate::entries::read(
        text,
        cursor,
        Kind::User,
        USER_NUMBERS,
        user,
        &mut policy.users,
    )?;
    let c = crate::entries::read(
        text,
        c,
        Kind::Object,
        OBJECT_NUMBERS,
        object,
        &mut policy.objects,
    )?;
    let c = crate::conflicts::read(text, c, user, &mut policy.conflicts)?;
    let c = crate::rules::read(text, c, form, &shapes, &mut policy.rules)?;
    let actions = policy::limits::actions(form);
    crate::pairs::read(text, c, actions, &shapes, &mut policy.pairs)
}
