// A place in a text, and what stands there.
ghost use Rattle.std.specs.Prelude.{◌≡◌, ◌≤◌, length, Some};
ghost use Rattle.policy.specs.Limits.{text_bytes};
ghost use Rattle.reader.specs.Inner.Cursor.{Stands, Looked, First, Next, ahead_is};

use policy::refusal::Refusal;
use policy::value::Rejection;
use text::kind::Kind;
use text::number::Numbers;

#[derive(Clone, Copy)]
pub struct Cursor {
    // Where the line starts, and its line feed.
    pub at: usize,
    pub end: usize,
    // How many lines stand before it.
    pub line: usize,
    // The kind of the line, which breaks nothing up to its numbers; none behind the end line, where the text is over.
    pub ahead: Option<Kind>,
    pub numbers: Numbers,
}

impl Cursor {
    // Whether a line of kind k is ahead.
    pub fn is_at(self, k: Kind) -> bool
        ensures { result ≡ ahead_is self.ahead k }
    {
        self.ahead == Some(k)
    }

    // The text is refused at the line ahead.
    pub fn refused(self, refusal: Refusal) -> Rejection
        ensures { result ≡ record { refusal = refusal; line = self.line } }
    {
        Rejection {
            refusal,
            line: self.line,
        }
    }

    // The cursor behind the line of kind k that is ahead.
    pub fn next(self, text: &[u8], k: Kind) -> Result<Cursor, Rejection>
        requires { Stands text.now self × (self.ahead ≡ Some k) }
        ensures { Next text.now self k result }
    {
        look(text, self.end + 1, self.line + 1, Some(k))
    }
}

// The end of a text of n lines.
fn end_of(text: &[u8], at: usize, n: usize, before: Option<Kind>) -> Result<Cursor, Rejection>
    requires { length text.now ≤ at }
    ensures { Looked text.now at n before result }
{
    if Some(Kind::End) != before {
        return Err(Rejection {
            refusal: Refusal::EndMissing,
            line: n,
        });
    }
    Ok(Cursor {
        at,
        end: at,
        line: n,
        ahead: None,
        numbers: Numbers::default(),
    })
}

// The cursor at a place where line n starts.
fn look(text: &[u8], at: usize, n: usize, before: Option<Kind>) -> Result<Cursor, Rejection>
    requires { (at ≤ length text.now) × (n ≤ at) }
    ensures { Looked text.now at n before result }
{
    if at == text.len() {
        return end_of(text, at, n, before);
    }
    let end = text::parts::find(text, at, b'\n');
    if end == text.len() {
        return Err(Rejection {
            refusal: Refusal::LineFeedMissing,
            line: n,
        });
    }
    match line::head::parse(before, &text[at..end]) {
        Ok(head) => Ok(Cursor {
            at,
            end,
            line: n,
            ahead: Some(head.kind),
            numbers: head.numbers,
        }),
        Err(refusal) => Err(Rejection { refusal, line: n }),
    }
}

// The cursor at the start of a text that is not too long.
pub fn first(text: &[u8]) -> Result<Cursor, Rejection>
    requires { length text.now ≤ text_bytes }
    ensures { First text.now result }
{
    look(text, 0, 0, None)
}
