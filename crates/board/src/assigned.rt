// What each user number is assigned: the users by number, so that one pass over them serves a whole board.
ghost use Rattle.std.specs.Prelude.{◌≡◌, ◌≤◌};
ghost use Rattle.policy.specs.Value.{entry_places, entries_of};
ghost use Rattle.board.specs.Inner.{place_of, ByNumber};

use policy::limits::USER_NUMBERS;
use policy::value::Register;

// A place for each user number, and one for all other numbers, which no user has.
const PLACES: usize = USER_NUMBERS as usize + 1;

// The place of a number. No `From`: all numbers that no user has share the last place.
pub fn place(number: u32) -> usize
    ensures { result ≡ place_of number }
{
    number.min(USER_NUMBERS) as usize
}

// The set that each user number is assigned. From the last entry to the first, so that a number's first entry counts.
pub fn table(users: &Register) -> [Option<u32>; PLACES]
    requires { users.now.count ≤ entry_places }
    ensures { ByNumber (entries_of users.now) result }
{
    let mut found = [None; PLACES];
    for e in users.entries[..users.count].iter().rev() {
        if e.number < USER_NUMBERS {
            found[e.number as usize] = Some(e.set);
        }
    }
    found
}
