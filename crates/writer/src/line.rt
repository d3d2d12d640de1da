// A line of each layout, put at the start of a buffer with its line feed.
ghost use Rattle.std.specs.Prelude.{◌≡◌, true, ◌++◌};
ghost use Rattle.writer.specs.Inner.Put.{Room, Put, all_in_digits, number_fields, word_fields, numbers_line, formula_line, start_line, end_line};

use crate::{bytes, number, word};
use words::Word;

// A word and numbers, up to the end of the last.
fn put_fields<const N: usize>(word: &[u8], numbers: &[u32; N], buf: &mut [u8]) -> usize
    requires { Room (word.now ++ number_fields numbers.now) 0 buf.old }
    ensures { Put (word.now ++ number_fields numbers.now) 0 buf.old buf.new result }
{
    let mut at = bytes::put(word, buf, 0);
    for &n in numbers {
        at = number::put(n, buf, at);
    }
    at
}

// A word and numbers.
pub fn put<const N: usize>(word: &[u8], numbers: &[u32; N], buf: &mut [u8]) -> usize
    requires { Room (numbers_line word.now numbers.now) 0 buf.old }
    ensures { Put (numbers_line word.now numbers.now) 0 buf.old buf.new result }
{
    let at = put_fields(word, numbers, buf);
    bytes::put_byte(b'\n', buf, at)
}

// The start of such a line that another number ends, up to the comma before it.
pub fn put_start<const N: usize>(word: &[u8], numbers: &[u32; N], buf: &mut [u8]) -> usize
    requires { Room (start_line word.now numbers.now) 0 buf.old }
    ensures { Put (start_line word.now numbers.now) 0 buf.old buf.new result }
{
    let at = put_fields(word, numbers, buf);
    bytes::put_byte(b',', buf, at)
}

// Its end: that number and the line feed.
pub fn put_end(n: u32, buf: &mut [u8], start: usize) -> usize
    requires { Room (end_line n) start buf.old }
    ensures { Put (end_line n) start buf.old buf.new result }
{
    let at = number::put_digits(n, buf, start);
    bytes::put_byte(b'\n', buf, at)
}

// Words, by their numbers, each with a comma before it.
fn put_words(numbers: &[u8], buf: &mut [u8], start: usize) -> usize
    requires spelt { all_in_digits numbers.now ≡ true }
    requires room { Room (word_fields numbers.now) start buf.old }
    ensures { Put (word_fields numbers.now) start buf.old buf.new result }
{
    let mut at = start;
    for &n in numbers {
        at = word::put(Word::from(n), buf, at);
    }
    at
}

// A word, an action and the words of its formula.
pub fn put_formula(word: &[u8], action: u32, words: &[u8], buf: &mut [u8]) -> usize
    requires spelt { all_in_digits words.now ≡ true }
    requires room { Room (formula_line word.now action words.now) 0 buf.old }
    ensures { Put (formula_line word.now action words.now) 0 buf.old buf.new result }
{
    let mut at = put_fields(word, &[action], buf);
    at = put_words(words, buf, at);
    bytes::put_byte(b'\n', buf, at)
}
