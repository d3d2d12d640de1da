// A list of calls as numbers: four to a call.
ghost use Rattle.std.specs.Prelude.{◌≡◌, List, ℕ, ◌<◌, length, get_or};
ghost use Rattle.runner.specs.Calls.{item_of, call_in, items_in};

use board::Call;

// How many numbers a call is.
const NUMBERS: usize = 4;

// Four numbers as a call, if they are one: its kind, then its arguments; close has 0 for the third.
fn decode(kind: u32, a: u32, b: u32, c: u32) -> Option<Call>
    ensures { item_of result ≡ call_in kind a b c }
{
    match kind {
        0 => Some(Call::Open(a, b, c)),
        1 => Some(Call::Add(a, b, c)),
        2 => Some(Call::Drop(a, b, c)),
        3 => (c == 0).then_some(Call::Close(a, b)),
        4 => Some(Call::Request(a, b, c)),
        _ => None,
    }
}

// How many calls so many numbers are: the last one has what is left.
pub fn count_of(numbers: usize) -> usize
    ensures { (ns : List ℕ) → numbers ≡ length ns → result ≡ length (items_in ns) }
{
    if numbers % NUMBERS == 0 {
        numbers / NUMBERS
    } else {
        numbers / NUMBERS + 1
    }
}

// What stands at place i of a list: a call, or what is none.
pub fn item_at(numbers: &[u32], i: usize) -> Option<Call>
    requires { i < length (items_in numbers.now) }
    ensures { item_of result ≡ get_or (items_in numbers.now) i None }
{
    let from = i * NUMBERS;
    if numbers.len() - from < NUMBERS {
        return None;
    }
    decode(
        numbers[from],
        numbers[from + 1],
        numbers[from + 2],
        numbers[from + 3],
    )
}
