// How numbers are stored in lent buffers: in 8, 16 or 32 bits.
ghost use Rattle.std.specs.Prelude.{◌≡◌, ◌^◌, ◌<◌, ℕ, length, map, set, slice_get};

// A number as it is stored: a label, a table's entry or a tuple, in the width of the policy's form.
pub trait Stored: Copy {
    // The width, for proofs; `put` needs it, since a number that is too great would lose its upper bits.
    ghost BITS: { ℕ };

    // The number that a stored one stands for.
    ghost number: { Self → ℕ };

    // The width again, for code.
    const BITS: u32;

    // The number x as it is stored.
    fn of(x: u32) -> Self
        requires { x < 2 ^ BITS }
        ensures { number result ≡ x };

    // The number that this stands for.
    fn number(self) -> u32
        ensures { result ≡ number self };
}

impl Stored for u8 {
    ghost BITS = { 8 };

    ghost number = { λ x. x };

    const BITS: u32 = 8;

    fn of(x: u32) -> u8 {
        x as u8
    }

    fn number(self) -> u32 {
        self as u32
    }
}

impl Stored for u16 {
    ghost BITS = { 16 };

    ghost number = { λ x. x };

    const BITS: u32 = 16;

    fn of(x: u32) -> u16 {
        x as u16
    }

    fn number(self) -> u32 {
        self as u32
    }
}

impl Stored for u32 {
    ghost BITS = { 32 };

    ghost number = { λ x. x };

    const BITS: u32 = 32;

    fn of(x: u32) -> u32 {
        x
    }

    fn number(self) -> u32 {
        self
    }
}

// Puts a number at a place of a buffer.
pub fn put<S: Stored>(buffer: &mut [S], at: usize, x: u32)
    requires { (at < length buffer.old) × (x < 2 ^ S.BITS) }
    ensures { map S.number buffer.new ≡ set (map S.number buffer.old) at x }
{
    buffer[at] = S::of(x);
}

// The number at a place, where the place is in the buffer.
pub fn get<S: Stored>(buffer: &[S], at: usize) -> Option<u32>
    ensures { result ≡ slice_get (map S.number buffer.now) at }
{
    if at < buffer.len() {
        Some(buffer[at].number())
    } else {
        None
    }
}
