// The shape of a side, and what checks 6 and 8 of later lines need of it.
ghost use Rattle.std.specs.Prelude.{◌≡◌, ◌≤◌, ◌<◌, ◌^◌, take};
ghost use Rattle.basis.specs.Lists.{sum};
ghost use Rattle.policy.specs.Limits.{most_values};
ghost use Rattle.policy.specs.Checks.{width_fits, entry_fits, conflict_fits, pair_fits};
ghost use Rattle.policy.specs.Value.{width_places};

use policy::limits::MOST_TOGETHER;
use policy::value::{Conflict, Entry, Pair, WIDTH_PLACES};
use seniority::Direct;

// How many attributes a side has, their widths, and how many values: in a policy these are the sum of the widths. An array
// and a count, since there is no heap.
#[derive(Clone, Copy)]
pub struct Shape {
    pub attributes: usize,
    pub widths: [u32; WIDTH_PLACES],
    pub total: u32,
    pub ghost placed: { attributes ≤ width_places },
}

// Of both sides.
#[derive(Clone, Copy)]
pub struct Shapes {
    pub user: Shape,
    pub object: Shape,
}

// Check 6 of a width after others that sum to `total`.
pub fn width_fits(most: u32, total: u32, w: u32) -> bool
    ensures { result ≡ width_fits most total w }
{
    1 <= w && w <= most && total <= most - w
}

// Check 6 of a user or an object, of which there are so many numbers, on a side of so many values.
pub fn entry_fits(numbers: u32, values: u32, e: &Entry) -> bool
    requires { values ≤ most_values }
    ensures { result ≡ entry_fits numbers values e.now.number e.now.set }
{
    e.number < numbers && e.set <= crate::mask::first(values)
}

// Check 6 of a conflict, where there are so many user values.
pub fn conflict_fits(values: u32, x: &Conflict) -> bool
    requires { values ≤ most_values }
    ensures { result ≡ conflict_fits values x.now }
{
    x.set <= crate::mask::first(values) && x.most <= MOST_TOGETHER
}

// Check 6 of a pair, where there are so many actions, user values and object values.
pub fn pair_fits(actions: u32, users: u32, objects: u32, x: &Pair) -> bool
    ensures { result ≡ pair_fits actions users objects x.now }
{
    x.action < actions && x.user < users && x.object < objects
}

impl Shape {
    ghost use Rattle.std.specs.Prelude.{get_or};
    ghost use Rattle.policy.specs.Policy.{attribute_of};
    ghost use Rattle.policy.specs.Checks.{direct_fits};
    ghost use Rattle.checks.specs.Inner.{sizes_in};

    // The shape of a side with these widths.
    pub fn of(widths: [u32; WIDTH_PLACES], attributes: usize) -> Shape
        requires { (attributes ≤ width_places) × (sum (take attributes widths) < 2 ^ 32) }
        ensures { (result.attributes ≡ attributes) × (result.widths ≡ widths) × (result.total ≡ sum (take attributes widths)) }
    {
        let total = widths[..attributes].iter().sum();
        Shape {
            attributes,
            widths,
            total,
        }
    }

    fn sizes(&self) -> &[u32]
        ensures { result.now ≡ (sizes_in self.now).widths }
    {
        &self.widths[..self.attributes]
    }

    // The width of attribute i; 0 where there is none.
    pub fn width(&self, i: u8) -> u32
        ensures { result ≡ get_or (sizes_in self.now).widths i 0 }
    {
        self.sizes().get(usize::from(i)).copied().unwrap_or(0)
    }

    // The attribute that value v is in; their number where it is in none.
    fn attribute_of(&self, v: u32) -> usize
        ensures { result ≡ attribute_of (sizes_in self.now).widths v }
    {
        let mut left = v;
        for (i, w) in self.sizes().iter().enumerate() {
            if left < *w {
                return i;
            }
            left -= *w;
        }
        self.attributes
    }

    // Check 6 of a direct seniority.
    pub fn direct_fits(&self, l: &Direct) -> bool
        ensures { result ≡ direct_fits (sizes_in self.now) l.now.senior l.now.junior }
    {
        l.senior < self.total
            && l.junior < l.senior
            && self.attribute_of(l.senior) == self.attribute_of(l.junior)
    }

    // Check 6 of a user or an object, of which there are so many numbers.
    pub fn entry_fits(&self, numbers: u32, e: &Entry) -> bool
        requires { self.now.total ≤ most_values }
        ensures { result ≡ entry_fits numbers self.now.total e.now.number e.now.set }
    {
        entry_fits(numbers, self.total, e)
    }

    // Check 6 of a conflict, on the shape of the user side.
    pub fn conflict_fits(&self, x: &Conflict) -> bool
        requires { self.now.total ≤ most_values }
        ensures { result ≡ conflict_fits self.now.total x.now }
    {
        conflict_fits(self.total, x)
    }
}

impl Shapes {
    // Check 6 of a pair, where there are so many actions.
    pub fn pair_fits(&self, actions: u32, x: &Pair) -> bool
        ensures { result ≡ pair_fits actions self.now.user.total self.now.object.total x.now }
    {
        pair_fits(actions, self.user.total, self.object.total, x)
    }
}
