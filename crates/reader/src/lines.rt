// The lines of one kind whose elements rise: seniorities, users, objects, conflicts and pairs.
ghost use Rattle.std.specs.Prelude.{◌≡◌, Bool, List, Result, length};
ghost use Rattle.text.specs.declared.number.Numbers.{Numbers};
ghost use Rattle.policy.specs.declared.refusal.Refusal.{Refusal};
ghost use Rattle.reader.specs.Inner.Cursor.{Stands};
ghost use Rattle.reader.specs.Inner.Rising.{Roomy, RisingRead};

use crate::cursor::Cursor;
use checks::rising::Rising;
use policy::refusal::Refusal;
use policy::value::Rejection;
use text::kind::Kind;
use text::number::Numbers;

// What a line says, and check 6 of it.
pub trait Lines {
    type Element: Rising + Copy + Drop;

    ghost says: { Numbers → Self.Element };

    ghost passes: { Self → Self.Element → Bool };

    fn said(&self, numbers: Numbers) -> Self::Element
        ensures { result ≡ says numbers };

    fn fits(&self, x: &Self::Element) -> bool
        ensures { result ≡ passes self.now x.now };
}

// The lines of kind k from the cursor on, into the first places of a list: how many there are, and the cursor behind
// them. One that passes 6 and 7 and finds no place is refused as `full`.
pub fn read<L: Lines>(
    text: &[u8],
    cursor: Cursor,
    kind: Kind,
    lines: &L,
    full: Refusal,
    list: &mut [L::Element],
) -> Result<(usize, Cursor), Rejection>
    ghost room: { List L.Element → Result (Unit {0}) Refusal }
    requires { Stands text.now cursor }
    ensures { Roomy (L.passes lines.now) L.Element.above (length list.old) full room → RisingRead text.now kind L.says (L.passes lines.now) L.Element.above room cursor list.old list.new result }
{
    let mut count = 0;
    let mut c = cursor;
    while c.is_at(kind) {
        let x = lines.said(c.numbers);
        if !lines.fits(&x) {
            return Err(c.refused(Refusal::OutOfRange));
        }
        if !x.rises(list[..count].last()) {
            return Err(c.refused(Refusal::NotRising));
        }
        if count == list.len() {
            return Err(c.refused(full));
        }
        list[count] = x;
        count += 1;
        c = c.next(text, kind)?;
    }
    Ok((count, c))
}
