// Lent buffers: blank before a call, and compared after it.
use crate::cursor;
use policy::stored::Stored;

// The most entries that a line asks for in the buffer of a table or a listing.
pub const ENTRIES: usize = 16384;

// What stands in a buffer before a call: of 16 and 32 bits no number is so large.
pub trait Blank: Stored {
    const BLANK: Self;
}

impl Blank for u8 {
    const BLANK: u8 = 170;
}

impl Blank for u16 {
    const BLANK: u16 = u16::MAX;
}

impl Blank for u32 {
    const BLANK: u32 = u32::MAX;
}

// The first places of a buffer, to be lent; all where there are not so many.
pub fn first<T>(buffer: &mut [T], n: u32) -> &mut [T] {
    let end = usize::min(n as usize, buffer.len());
    &mut buffer[..end]
}

// The same of a buffer that is only read.
pub fn lent<T>(buffer: &[T], n: u32) -> &[T] {
    let end = usize::min(n as usize, buffer.len());
    &buffer[..end]
}

// The first place at which a buffer is not these numbers with blanks behind them. More numbers than the buffer has
// places differ behind its end.
pub fn unlike<S: Blank>(due: &[u32], buffer: &[S]) -> Option<usize> {
    for (i, x) in buffer.iter().enumerate() {
        if x.number() != cursor::at(due, i, S::BLANK.number()) {
            return Some(i);
        }
    }
    if buffer.len() < due.len() {
        Some(buffer.len())
    } else {
        None
    }
}

// The same for a text with blanks behind it.
pub fn unlike_text(text: &[u8], buffer: &[u8]) -> Option<usize> {
    for (i, &x) in buffer.iter().enumerate() {
        if x != cursor::at(text, i, u8::BLANK) {
            return Some(i);
        }
    }
    None
}
