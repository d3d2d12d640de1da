// Bytes, put into a buffer from a place on; each call gives the place where they end. Buffer and place stay two
// parameters: each line gets the rest of the lent buffer, which document 01 asks for, so that a struct of both would be
// made anew for each line.
ghost use Rattle.std.specs.Prelude.{◌∷◌, []};
ghost use Rattle.writer.specs.Inner.Put.{Room, Put, field};

// The bytes s.
pub fn put(s: &[u8], buf: &mut [u8], at: usize) -> usize
    requires { Room s.now at buf.old }
    ensures { Put s.now at buf.old buf.new result }
{
    // No `copy_from_slice`: the archive would need `memmove` for it.
    for (i, b) in s.iter().enumerate() {
        buf[at + i] = *b;
    }
    at + s.len()
}

// One byte.
pub fn put_byte(b: u8, buf: &mut [u8], at: usize) -> usize
    requires { Room (b ∷ []) at buf.old }
    ensures { Put (b ∷ []) at buf.old buf.new result }
{
    buf[at] = b;
    at + 1
}

// A comma and the bytes s.
pub fn put_field(s: &[u8], buf: &mut [u8], at: usize) -> usize
    requires { Room (field s.now) at buf.old }
    ensures { Put (field s.now) at buf.old buf.new result }
{
    let at = put_byte(b',', buf, at);
    put(s, buf, at)
}
