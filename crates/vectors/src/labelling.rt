// Labels: compiling into lent buffers, in each width of labels and table entries, and what stands in them afterwards.
ghost use Rattle.std.specs.Prelude.{◌*◌, ◌<◌, ◌^◌};
ghost use Rattle.std.specs.Mem.{type_size};

use crate::buffers::{Blank, ENTRIES};
use crate::cursor::NUMBERS;
use crate::found::Found;
use crate::texts::policy_of;
use crate::{buffers, cursor, found};
use policy::limits::MOST_SETS;

// The most sets of a side.
pub const SETS: usize = MOST_SETS;

// Which of the three buffers a line looks at.
#[derive(Clone, Copy)]
pub enum Looked {
    Users,
    Objects,
    Table,
}

// Compiles, and looks at a buffer; beside the answer stands NU for the user labels' buffer, else NO.
pub fn compiled<L: Blank, E: Blank>(
    looked: Looked,
    a: &[u32; NUMBERS],
    n: usize,
    text: &[u8],
) -> Found
    requires labels { SETS * type_size L.row < 2 ^ 63 }
    requires table { ENTRIES * type_size E.row < 2 ^ 63 }
{
    let mut users = [L::BLANK; SETS];
    let mut objects = [L::BLANK; SETS];
    let mut table = [E::BLANK; ENTRIES];
    let answer = labels::compile(
        policy_of(text),
        buffers::first(&mut users, a[2]),
        buffers::first(&mut objects, a[3]),
        buffers::first(&mut table, a[4]),
    );
    let due = cursor::part(a, 5, n);
    let place = match looked {
        Looked::Users => buffers::unlike(due, &users),
        Looked::Objects => buffers::unlike(due, &objects),
        Looked::Table => buffers::unlike(due, &table),
    };
    let count = answer.map(|counts| match looked {
        Looked::Users => cursor::size(counts.users),
        Looked::Objects | Looked::Table => cursor::size(counts.objects),
    });
    found::of_count(count, place)
}
