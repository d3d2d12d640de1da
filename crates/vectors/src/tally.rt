// How many lines of each kind agree, and what is printed.
use crate::found::Found;
use std::io;

// What comparisons are counted as, and its name: lists of calls by their number and by that of their calls, and lines
// that are wrong on purpose apart.
#[derive(Clone, Copy, PartialEq, Eq)]
enum Kind {
    Refused,
    Accepted,
    Checked,
    Written,
    Labels,
    Listings,
    Decisions,
    ByTuples,
    Apart,
    Lists,
    Calls,
    Wrong,
}

pub const KINDS: usize = 12;

const NAMES: [&str; KINDS] = [
    "texts refused alike",
    "texts accepted alike",
    "checks of what was read alike",
    "writings alike",
    "label buffers and tables alike",
    "listings alike",
    "decisions by policy alike",
    "decisions by tuples alike",
    "answers of Apart alike",
    "lists of calls alike",
    "calls in these lists",
    "lines wrong on purpose found different",
];

// The kind of a line, by the byte of the file.
fn kind_of(tag: u8) -> Kind {
    match tag {
        b'R' => Kind::Refused,
        b'Y' => Kind::Accepted,
        b'V' => Kind::Checked,
        b'W' => Kind::Written,
        b'u' | b'o' | b'g' | b'U' | b'O' | b'G' | b'v' | b'p' | b'h' => Kind::Labels,
        b'T' | b't' => Kind::Listings,
        b'F' => Kind::Decisions,
        b'B' | b'b' => Kind::ByTuples,
        b'P' | b'D' => Kind::Apart,
        _ => Kind::Lists,
    }
}

fn add(counts: &mut [u32; KINDS], kind: Kind, n: u32) {
    let k = kind as usize;
    counts[k] = counts[k].wrapping_add(n);
}

// Counts a line; n is the number of calls of a list.
pub fn count(counts: &mut [u32; KINDS], tag: u8, wrong: bool, n: u32) {
    if wrong {
        add(counts, Kind::Wrong, 1);
        return;
    }
    let kind = kind_of(tag);
    add(counts, kind, 1);
    if kind == Kind::Lists {
        add(counts, Kind::Calls, n);
    }
}

// Prints how many lines of each kind agree.
pub fn print_counts(rt: &impl Print, counts: &[u32; KINDS]) -> io::Result<()> {
    for (name, n) in NAMES.iter().zip(counts) {
        println!(rt; "{name}: {n}")?;
    }
    Ok(())
}

// Says what the engine gives instead of what a line says. Places are counted from 1.
pub fn print_found(rt: &impl Print, line: &[u8], found: Found) -> io::Result<()> {
    rt.write_all(line)?;
    let Found {
        answer,
        count,
        place,
    } = found;
    let place = place.map_or(0, |i| i.wrapping_add(1));
    println!(rt;
        "\nthe engine answers {answer}\nwith the count {count}\nand the first place that differs, or 0: {place}"
    )
}
