// Where the attributes of both sides lie among their values.
ghost use Rattle.std.specs.Prelude.{◌≤◌, ◌≡◌, take};
ghost use Rattle.basis.specs.Lists.{sum};
ghost use Rattle.policy.specs.Policy.{Side, Policy, total as total_of, sets as sets_of, width as width_of, start as start_of};
ghost use Rattle.policy.specs.Value.{side_of};
ghost use Rattle.policy.specs.Limits.{most_values};
ghost use Rattle.formula.specs.Truth.{at};
ghost use Rattle.formula.specs.Decide.{lacking};
ghost use Rattle.formula.specs.Inner.Lane.{Starts, AttributesOf};
ghost use Rattle.formula.specs.Inner.Fits.{SideFits};

use policy::limits::MOST_VALUES;
use policy::value::{SideValue, WIDTH_PLACES};

// A first value for each attribute there may be, and the number of values past these.
const STARTS: usize = MOST_VALUES + 1;

// For each side, the first value of each attribute and, past the last one, the number of values.
#[derive(Clone, Copy)]
pub struct Attributes {
    pub user: [u8; STARTS],
    pub object: [u8; STARTS],
}

// The first values of one side's attributes, n of which are there.
fn starts(widths: [u32; WIDTH_PLACES], n: usize) -> [u8; STARTS]
    requires { sum (take n widths) ≤ most_values }
    ensures { (s : Side) → s.widths ≡ take n widths → Starts s result }
{
    let mut r = [0u8; STARTS];
    let mut next: u8 = 0;
    for i in 0..MOST_VALUES {
        if i < n {
            next += widths[i] as u8;
        }
        r[i + 1] = next;
    }
    r
}

// Where the attributes of a policy with these sides lie.
pub fn of_sides(user: SideValue, object: SideValue) -> Attributes
    requires { SideFits user × SideFits object }
    ensures { (p : Policy) → p.user ≡ side_of user → p.object ≡ side_of object → AttributesOf p result }
{
    Attributes {
        user: starts(user.widths, user.attributes),
        object: starts(object.widths, object.attributes),
    }
}

// The first value of attribute i, or the number of values where there is no attribute i.
pub fn start(starts: [u8; STARTS], i: usize) -> u8
    ensures { (s : Side) → Starts s starts → result ≡ start_of s i }
{
    if i < MOST_VALUES {
        starts[i]
    } else {
        starts[MOST_VALUES]
    }
}

// The width of attribute i, or 0 where there is no attribute i.
pub fn width(starts: [u8; STARTS], i: u8) -> u8
    requires { (s : Side) × Starts s starts }
    ensures { (s : Side) → Starts s starts → result ≡ width_of s i }
{
    let n = i as usize;
    start(starts, n + 1) - start(starts, n)
}

// The number of values of a side.
pub fn total(starts: [u8; STARTS]) -> u32
    ensures { (s : Side) → Starts s starts → result ≡ total_of s }
{
    starts[MOST_VALUES] as u32
}

// The number of sets of a side.
pub fn sets(starts: [u8; STARTS]) -> u32
    requires { (s : Side) × Starts s starts }
    ensures { (s : Side) → Starts s starts → result ≡ sets_of s }
{
    1 << starts[MOST_VALUES]
}

// Whether a user set or an object set holds a value that its side lacks.
pub fn lacks(sides: Attributes, user: u32, object: u32) -> bool
    requires { (p : Policy) × AttributesOf p sides }
    ensures { (p : Policy) → AttributesOf p sides → result ≡ lacking p (at user object) }
{
    sets(sides.user) <= user || sets(sides.object) <= object
}
