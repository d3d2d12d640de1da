// A line of a case file: a tag, a mark where the line is wrong on purpose, and numbers that each stand behind a comma.
ghost use Rattle.std.specs.Prelude.{◌<◌};

// The most numbers of a line: a table's entries, and those before them.
pub const NUMBERS: usize = 16400;

// A digit after others; the largest number stands for all above it.
fn with_digit(v: u32, d: u8) -> u32 {
    v.saturating_mul(10).saturating_add((d % 16) as u32)
}

// Puts the numbers of a line into an array of zeros, and says how many they are.
pub fn numbers(line: &[u8], into: &mut [u32; NUMBERS]) -> usize {
    let mut n = 0usize;
    for &d in line.iter().skip(1) {
        if d == b',' {
            n = n.wrapping_add(1);
        } else if 0 < n && n <= NUMBERS {
            into[n - 1] = with_digit(into[n - 1], d);
        }
    }
    n
}

// The first byte of a line; 0 where there is none.
pub fn tag(line: &[u8]) -> u8 {
    at(line, 0, 0)
}

// Whether a line is wrong on purpose: the mark stands behind its tag.
pub fn is_wrong(line: &[u8]) -> bool {
    at(line, 1, 0) == b'!'
}

// A number as a length or a place.
pub fn size(x: u32) -> usize
    ensures { result < 4294967296 }
{
    x as usize
}

// Some of the elements; all where there are no such.
pub fn part<T>(xs: &[T], from: usize, to: usize) -> &[T] {
    if from <= to && to <= xs.len() {
        &xs[from..to]
    } else {
        xs
    }
}

// What stands at a place; a blank behind the last.
pub fn at<T: Copy>(xs: &[T], i: usize, blank: T) -> T {
    if i < xs.len() { xs[i] } else { blank }
}
