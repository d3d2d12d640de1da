// Plays stored cases on the engine and compares: the document's examples, and texts, decisions, labels and lists of
// calls with the answers of a second implementation. Prints how many lines of each kind agree, or the first that does
// not. Some lines are wrong on purpose: one that is not found different shows what this program does not compare.
#![tactic(auto)]

ghost use Rattle.std.specs.Io.{ReadsAtMost};
ghost use Rattle.std.specs.Prelude.{◌<◌, ◌≤◌};
ghost use Rattle.std.specs.Str.{IsUtf8};

use buffers::ENTRIES;
use cursor::NUMBERS;
use found::Found;
use labelling::Looked;
use std::io::Read;
use std::rt::Files;
use std::{fs, io, str};
use tally::KINDS;
use text::parts;

mod buffers;
mod cursor;
mod decisions;
mod found;
mod labelling;
mod sessions;
mod tally;
mod texts;

// Case files are numbered in two digits.
const FILES: u8 = 100;

// The most bytes of a case file.
const FILE_BYTES: usize = 65536;

// A case: its number, and where its text stands in the file.
#[derive(Clone, Copy)]
struct Case {
    number: u32,
    from: usize,
    to: usize,
}

// What the engine gives for a line. A line's kind is a byte of the file, which is matched where it is read.
fn answer(tag: u8, a: &[u32; NUMBERS], n: usize, text: &[u8]) -> Found {
    match tag {
        b'R' | b'Y' => texts::read(text),
        b'V' => texts::checked(text),
        b'W' => texts::written(a, text),
        b'u' => labelling::compiled::<u8, u8>(Looked::Users, a, n, text),
        b'o' => labelling::compiled::<u8, u8>(Looked::Objects, a, n, text),
        b'g' => labelling::compiled::<u8, u8>(Looked::Table, a, n, text),
        b'U' => labelling::compiled::<u8, u16>(Looked::Users, a, n, text),
        b'O' => labelling::compiled::<u8, u16>(Looked::Objects, a, n, text),
        b'G' => labelling::compiled::<u8, u16>(Looked::Table, a, n, text),
        b'v' => labelling::compiled::<u16, u16>(Looked::Users, a, n, text),
        b'p' => labelling::compiled::<u16, u16>(Looked::Objects, a, n, text),
        b'h' => labelling::compiled::<u16, u16>(Looked::Table, a, n, text),
        b'T' => decisions::listed::<u16>(a, n, text),
        b't' => decisions::listed::<u32>(a, n, text),
        b'F' => decisions::by_formula(a, text),
        b'B' => decisions::by_tuples::<u16>(a, text, ENTRIES as u32),
        b'b' => decisions::by_tuples::<u32>(a, text, a[6]),
        b'P' => decisions::apart(a, text),
        b'D' => decisions::tells(a, text),
        b'S' => sessions::played::<u8, u8>(a, n, text),
        b'Z' => sessions::played::<u8, u16>(a, n, text),
        b'X' => sessions::played::<u16, u16>(a, n, text),
        _ => found::bare(found::NO_KIND),
    }
}

// Plays a line, and says whether it agrees, or differs where it is wrong on purpose.
fn play_line(
    rt: &impl Print,
    line: &[u8],
    text: &[u8],
    counts: &mut [u32; KINDS],
) -> io::Result<bool> {
    let mut a = [0u32; NUMBERS];
    let n = cursor::numbers(line, &mut a);
    let tag = cursor::tag(line);
    let found = answer(tag, &a, n, text);
    let wrong = cursor::is_wrong(line);
    let stored = found::counted(a[0], cursor::size(a[1]));
    if (found == stored) == wrong {
        tally::print_found(rt, line, found)?;
        return Ok(false);
    }
    tally::count(counts, tag, wrong, a[1]);
    Ok(true)
}

// The case that a `C` line begins; its text stands at a place behind the line.
fn begin(line: &[u8], at: usize) -> Case
    requires { at ≤ 9223372036854775808 }
    ensures { (at ≤ result.to) × (result.to < 9223372041149743104) }
{
    let mut a = [0u32; NUMBERS];
    cursor::numbers(line, &mut a);
    Case {
        number: a[0],
        from: at,
        to: at + cursor::size(a[1]),
    }
}

// Plays the lines of a file.
fn play_lines(rt: &impl Print, file: &[u8], counts: &mut [u32; KINDS]) -> io::Result<bool> {
    let mut case = Case {
        number: 0,
        from: 0,
        to: 0,
    };
    let mut at = 0;
    while at < file.len() {
        let e = parts::find(file, at, 10);
        let line = &file[at..e];
        at = e + 1;
        if cursor::tag(line) == b'C' {
            case = begin(line, at);
            at = case.to + 1;
        } else if !play_line(rt, line, cursor::part(file, case.from, case.to), counts)? {
            println!(rt; "failed: a line of case {}", case.number)?;
            return Ok(false);
        }
    }
    Ok(true)
}

// Reads up to the end of a file or of the buffer, and says how many bytes there are. The lister has the same: the
// engine's crates do no input and output, so there is none for both.
fn read_full(file: &mut impl Read, buffer: &mut [u8]) -> io::Result<usize>
    ensures { ReadsAtMost result buffer.new }
{
    let mut at = 0;
    // No `for`: reads come in any lengths.
    while at < buffer.len() {
        let n = file.read(&mut buffer[at..])?;
        if n == 0 {
            break;
        }
        at += n;
    }
    Ok(at)
}

// Plays a file.
fn play_file(rt: &impl Print, file: &mut impl Read, counts: &mut [u32; KINDS]) -> io::Result<bool> {
    let mut bytes = [0u8; FILE_BYTES];
    let n = read_full(file, &mut bytes)?;
    play_lines(rt, &bytes[..n], counts)
}

// The name of a case file.
fn name(i: u8) -> [u8; 8]
    requires { i < 100 }
    ensures { IsUtf8 result }
{
    let mut name = *b"cases-00";
    name[6] += i / 10;
    name[7] += i % 10;
    name
}

// Opens a case file; there may be no such file.
fn open<R: Files>(rt: &R, i: u8) -> io::Result<Option<R::File>>
    requires { i < 100 }
{
    let name = name(i);
    match fs::open(rt, str::from_utf8(&name).unwrap()) {
        Ok(file) => Ok(Some(file)),
        Err(e) if e.kind() == io::ErrorKind::NotFound => Ok(None),
        Err(e) => Err(e),
    }
}

// Plays the files cases-00, cases-01 and so on, as many as there are.
fn play_files(rt: &(impl Files + Print), counts: &mut [u32; KINDS]) -> io::Result<bool> {
    for i in 0..FILES {
        let Some(mut file) = open(rt, i)? else {
            return Ok(true);
        };
        if !play_file(rt, &mut file, counts)? {
            println!(rt; "in the case file {i}")?;
            return Ok(false);
        }
    }
    Ok(true)
}

fn main(rt: HostRuntime) -> io::Result<()> {
    let mut counts = [0u32; KINDS];
    if play_files(&rt, &mut counts)? {
        tally::print_counts(&rt, &counts)?;
    }
    Ok(())
}
