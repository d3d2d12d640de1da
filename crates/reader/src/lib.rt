// Reading a policy text: its value, or the first refusal and its line.
#![tactic(auto)]

ghost use Rattle.text.specs.Kind.{place_of};
ghost use Rattle.text.specs.declared.kind.Kind.TheVariants as kind;
ghost use Rattle.policy.specs.Answers.{ReadAs};
ghost use Rattle.policy.specs.Read.{read_text};
ghost use Rattle.reader.specs.Inner.Cursor.{Stands, Past, Finished};

mod conflicts;
mod cursor;
mod entries;
mod form;
mod lines;
mod lists;
mod pairs;
mod rules;
mod seniorities;
mod sides;
mod widths;

use crate::cursor::Cursor;
use policy::limits::TEXT_BYTES;
use policy::refusal::Refusal;
use policy::value::{PolicyValue, Rejection};
use text::kind::Kind;

// Nothing stands at a cursor behind all lists but the end line, and nothing behind that.
fn finish(text: &[u8], cursor: Cursor) -> Result<(), Rejection>
    requires { Stands text.now cursor × Past (place_of kind.End) cursor }
    ensures { Finished text.now cursor result }
{
    if !cursor.is_at(Kind::End) {
        return Ok(());
    }
    cursor.next(text, Kind::End)?;
    Ok(())
}

// The policy value of a text, or the refusal and its line.
pub fn read(text: &[u8]) -> Result<PolicyValue, Rejection>
    ensures { ReadAs (read_text text.now) result }
{
    if TEXT_BYTES < text.len() {
        return Err(Rejection {
            refusal: Refusal::TextTooLong,
            line: 0,
        });
    }
    let start = cursor::first(text)?;
    let (form, cursor) = form::read(text, start)?;
    // Each list is read into its place in the value, so that none is copied there.
    let mut policy = policy::value::blank();
    let sides = sides::read(text, cursor, form, &mut policy)?;
    let cursor = lists::read(text, sides, form, &mut policy)?;
    finish(text, cursor)?;
    Ok(policy)
}
