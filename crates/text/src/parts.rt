// Parting a text into lines and a line into fields.
ghost use Rattle.std.specs.Prelude.{◌≡◌, ◌≤◌, length};
ghost use Rattle.text.specs.Parts.{fields};
ghost use Rattle.text.specs.Inner.{Found};

// Where b first stands at or after `from`; the length where it does not.
pub fn find(s: &[u8], from: usize, b: u8) -> usize
    requires { from ≤ length s.now }
    ensures { Found s.now from b result }
{
    match s[from..].iter().position(|x| *x == b) {
        Some(i) => from + i,
        None => s.len(),
    }
}

// How many fields a line has.
pub fn count(line: &[u8]) -> usize
    ensures { result ≡ length (fields line.now) }
{
    line.iter().filter(|x| **x == b',').count() + 1
}
