// A line's kind and its numbers: refusals 3 to 5, but for the words of a formula.
ghost use Rattle.std.specs.Prelude.{◌≡◌, ◌≤◌};
ghost use Rattle.text.specs.Kind.{layout_of};
ghost use Rattle.text.specs.Inner.{Found};
ghost use Rattle.text.specs.Parts.{fields, comma};
ghost use Rattle.text.specs.declared.kind.Layout.TheVariants as layout;
ghost use Rattle.policy.specs.Line.{allowed};
ghost use Rattle.policy.specs.Read.{kind_of};
ghost use Rattle.line.specs.Inner.Head.{numbers_as, layout_with, said_by, parsed_as};

use policy::refusal::Refusal;
use policy::value::WORD_PLACES;
use text::kind::{Kind, Layout};
use text::number::Numbers;

// A line's kind and numbers.
#[derive(Clone, Copy)]
pub struct Head {
    pub kind: Kind,
    pub numbers: Numbers,
}

// The numbers of three fields, if each is one.
fn said(values: [Option<u32>; 3]) -> Option<Numbers>
    ensures { result ≡ said_by values }
{
    Some(Numbers {
        first: values[0]?,
        second: values[1]?,
        third: values[2]?,
    })
}

// The numbers of a line with n number fields, whose first comma is at c: their count before their form.
fn plain(line: &[u8], c: usize, n: usize) -> Result<Numbers, Refusal>
    requires { Found line.now 0 comma c × (n ≤ 3) }
    ensures { result ≡ numbers_as (layout_with n) (fields line.now) }
{
    let mut values = [Some(0); 3];
    // The comma before the next field, or the line's end.
    let mut at = c;
    for value in &mut values[..n] {
        if at == line.len() {
            return Err(Refusal::WrongFieldCount);
        }
        let end = text::parts::find(line, at + 1, b',');
        *value = text::number::parse(&line[at + 1..end]);
        at = end;
    }
    if at < line.len() {
        return Err(Refusal::WrongFieldCount);
    }
    said(values).ok_or(Refusal::MalformedField)
}

// The most fields of a formula: its kind's word, its action and its words.
const MOST_FIELDS: usize = 2 + WORD_PLACES;

// The numbers of a line with an action and words: the action.
fn formula(line: &[u8], c: usize) -> Result<Numbers, Refusal>
    requires { Found line.now 0 comma c }
    ensures { result ≡ numbers_as layout.Formula (fields line.now) }
{
    let n = text::parts::count(line);
    if n < 3 || MOST_FIELDS < n {
        return Err(Refusal::WrongFieldCount);
    }
    let end = text::parts::find(line, c + 1, b',');
    let first = text::number::parse(&line[c + 1..end]).ok_or(Refusal::MalformedField)?;
    Ok(Numbers {
        first,
        second: 0,
        third: 0,
    })
}

// The numbers of a line of kind k whose first comma is at c.
fn numbers(k: Kind, line: &[u8], c: usize) -> Result<Numbers, Refusal>
    requires { Found line.now 0 comma c }
    ensures { result ≡ numbers_as (layout_of k) (fields line.now) }
{
    match text::kind::layout_of(k) {
        Layout::Bare => plain(line, c, 0),
        Layout::One => plain(line, c, 1),
        Layout::Two => plain(line, c, 2),
        Layout::Three => plain(line, c, 3),
        Layout::Formula => formula(line, c),
    }
}

fn may_stand(before: Option<Kind>, k: Kind) -> bool
    ensures { result ≡ allowed before k }
{
    match before {
        None => Kind::Policy == k,
        Some(j) => text::kind::may_follow(j, k),
    }
}

// The line that these bytes are after the line before.
pub fn parse(before: Option<Kind>, line: &[u8]) -> Result<Head, Refusal>
    ensures { result ≡ parsed_as before (kind_of line.now) (fields line.now) }
{
    let c = text::parts::find(line, 0, b',');
    let Some(kind) = text::kind::parse(&line[..c]) else {
        return Err(Refusal::KindNotAllowed);
    };
    if !may_stand(before, kind) {
        return Err(Refusal::KindNotAllowed);
    }
    let numbers = numbers(kind, line, c)?;
    Ok(Head { kind, numbers })
}
