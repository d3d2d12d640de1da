// A number field, put into a buffer from a place on.
ghost use Rattle.std.specs.Prelude.{◌≡◌, ◌+◌, ◌%◌};
ghost use Rattle.text.specs.Number.{decimal};
ghost use Rattle.writer.specs.Inner.Put.{Room, Put, number_field, last_digit};

use crate::bytes;

// The last digit of n.
fn put_last(n: u32, buf: &mut [u8], at: usize) -> usize
    requires { Room (last_digit n) at buf.old }
    ensures { Put (last_digit n) at buf.old buf.new result }
{
    bytes::put_byte(b'0' + (n % 10) as u8, buf, at)
}

// The digits of a number: the last one behind the others.
fn put_many(n: u32, buf: &mut [u8], start: usize) -> usize
    requires { Room (decimal n) start buf.old }
    ensures { Put (decimal n) start buf.old buf.new result }
{
    if n < 10 {
        return put_last(n, buf, start);
    }
    let at = put_many(n / 10, buf, start);
    put_last(n, buf, at)
}

// The digits of a number. Up to three of them, as most numbers have, are put with no call for the others, which is
// faster.
pub fn put_digits(n: u32, buf: &mut [u8], at: usize) -> usize
    requires { Room (decimal n) at buf.old }
    ensures { Put (decimal n) at buf.old buf.new result }
{
    if n < 10 {
        return put_last(n, buf, at);
    }
    if n < 100 {
        let second = put_last(n / 10, buf, at);
        return put_last(n, buf, second);
    }
    if n < 1000 {
        let second = put_last(n / 10 / 10, buf, at);
        let third = put_last(n / 10, buf, second);
        return put_last(n, buf, third);
    }
    put_many(n, buf, at)
}

// A comma and a number.
pub fn put(n: u32, buf: &mut [u8], at: usize) -> usize
    requires { Room (number_field n) at buf.old }
    ensures { Put (number_field n) at buf.old buf.new result }
{
    let at = bytes::put_byte(b',', buf, at);
    put_digits(n, buf, at)
}
