// A side: its widths and its direct seniorities.
ghost use Rattle.std.specs.Prelude.{◌≡◌, ◌≤◌, true, false, take, MatchOption};
ghost use Rattle.basis.specs.Lists.{sum};
ghost use Rattle.policy.specs.Limits.{most_values};
ghost use Rattle.policy.specs.Checks.{side_sizes};
ghost use Rattle.policy.specs.Value.{side_of};
ghost use Rattle.checks.specs.Inner.{sizes_in};
ghost use Rattle.validity.specs.Inner.{widths_valid, side_valid};

use crate::behind::all_blank;
use crate::list::list_valid;
use checks::shape::{Shape, width_fits};
use policy::value::{SideValue, WIDTH_PLACES};
use seniority::Direct;

// The shape of a side with these widths, where these are at least one and no more than there are places, each fits and
// nothing is behind the last. n is what came from C, and is tested here.
fn measure(most: u32, widths: &[u32; WIDTH_PLACES], n: usize) -> Option<Shape>
    requires { most ≤ most_values }
    ensures { MatchOption result (widths_valid most widths.now n ≡ false)
        (λ x. (widths_valid most widths.now n ≡ true) × (x.attributes ≡ n) × (x.widths ≡ widths.now) × (x.total ≡ sum (take n widths.now)) × (x.total ≤ most_values)) }
{
    if n < 1 {
        return None;
    }
    if WIDTH_PLACES < n {
        return None;
    }
    let mut total = 0;
    for w in &widths[..n] {
        if !width_fits(most, total, *w) {
            return None;
        }
        total += *w;
    }
    if !all_blank(&widths[n..], |w| *w == 0) {
        return None;
    }
    Some(Shape::of(*widths, n))
}

// Check 11 of a side: its shape, where it is valid.
pub fn shape(most: u32, x: &SideValue) -> Option<Shape>
    requires { most ≤ most_values }
    ensures { MatchOption result (side_valid most x.now ≡ false)
        (λ s. (side_valid most x.now ≡ true) × (sizes_in s ≡ side_sizes (side_of x.now)) × (s.total ≤ most_values)) }
{
    let shape = measure(most, &x.widths, x.attributes)?;
    let fits = |l: &Direct| shape.direct_fits(l);
    if !list_valid(&x.seniority, x.lines, fits, |l| (l.senior | l.junior) == 0) {
        return None;
    }
    Some(shape)
}
