// Reads a policy text from standard input and writes its report: the numbers of its labels and the tuples of each
// rule's action, or the refusal.
#![tactic(auto)]

ghost use Rattle.std.specs.Io.{ReadsAtMost};

use policy::limits::TEXT_BYTES;
use std::io;
use std::io::{ErrorKind, Read};

// One byte more than a text may have.
const INPUT: usize = TEXT_BYTES + 1;

// The most bytes of a chunk.
const CHUNK: usize = 65536;

// Reads up to the end of the input or of the buffer: how many bytes there are. The program that plays cases has the
// same: the engine's crates do no input and output, so there is none for both.
fn read(from: &mut impl Read, buffer: &mut [u8]) -> io::Result<usize>
    ensures { ReadsAtMost result buffer.new }
{
    let mut at = 0;
    // No `for`: reads come in any lengths.
    while at < buffer.len() {
        let n = from.read(&mut buffer[at..])?;
        if n == 0 {
            break;
        }
        at += n;
    }
    Ok(at)
}

// Writes the report of a text chunk by chunk, up to the first empty one.
fn list(rt: &impl Print, text: &[u8]) -> io::Result<()> {
    let mut buffer = [0u8; CHUNK];
    let mut cursor = report::chunks::start(text);
    loop {
        let chunk = report::chunks::next(cursor, &mut buffer);
        let n = chunk.count;
        if n == 0 {
            return Ok(());
        }
        rt.write_all(&buffer[..n])?;
        cursor = chunk.next;
    }
}

// Where the reader of a pipe goes away, nothing is said.
fn main(rt: HostRuntime) {
    let mut text = [0u8; INPUT];
    let Ok(n) = read(&mut rt.stdin(), &mut text) else {
        let _ = eprintln!(rt; "lister: standard input cannot be read");
        return;
    };
    if let Err(e) = list(&rt, &text[..n])
        && e.kind() != ErrorKind::BrokenPipe
    {
        let _ = eprintln!(rt; "lister: standard output cannot be written");
    }
}
