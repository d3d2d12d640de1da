// Texts: reading and writing.
use crate::buffers::Blank;
use crate::cursor::NUMBERS;
use crate::found::Found;
use crate::{buffers, cursor, found};
use policy::limits::TEXT_BYTES;
use policy::refusal::Refusal;
use policy::value::PolicyValue;

// The policy value that a text is read as; for a refused text the blank value, which check 11 refuses.
pub fn policy_of(text: &[u8]) -> PolicyValue {
    reader::read(text).unwrap_or_else(|_| policy::value::blank())
}

// `Y` or `R`: reading.
pub fn read(text: &[u8]) -> Found {
    match reader::read(text) {
        Ok(_) => found::bare(found::DONE),
        Err(why) => found::counted(u32::from(why.refusal), why.line),
    }
}

// `V`: check 11 on what the text is read as.
pub fn checked(text: &[u8]) -> Found {
    if validity::check(policy_of(text)) {
        found::bare(found::DONE)
    } else {
        found::bare(u32::from(Refusal::InvalidState))
    }
}

// `W`: writing; so many bytes of the text stand in the buffer afterwards.
pub fn written(a: &[u32; NUMBERS], text: &[u8]) -> Found {
    let mut buffer = [u8::BLANK; TEXT_BYTES];
    let written = writer::write(policy_of(text), buffers::first(&mut buffer, a[2]));
    let due = cursor::part(text, 0, cursor::size(a[3]));
    found::of_count(written, buffers::unlike_text(due, &buffer))
}
