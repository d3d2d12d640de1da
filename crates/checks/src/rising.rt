// Check 7: the elements of a list rise.
ghost use Rattle.std.specs.Prelude.{◌≡◌, Bool, true, ltb};
ghost use Rattle.std.specs.Option.{option_copied};
ghost use Rattle.basis.specs.Choice.{given};
ghost use Rattle.policy.specs.Inner.Sound.{line_above, number_above, set_above, pair_higher};

use policy::value::{Conflict, Entry, Pair, RuleValue};
use seniority::Direct;

// An element of a list that rises; `above b x` says that x is above b.
pub trait Rising {
    ghost above: { Self → Self → Bool };

    fn is_above(&self, before: &Self) -> bool
        ensures { result ≡ above before.now self.now };

    // Check 7: the first of its list, or above the one before it.
    final fn rises(&self, before: Option<&Self>) -> bool
        ensures { result ≡ given (option_copied before.entry) true (λ b. above b self.now) }
    {
        before.is_none_or(|b| self.is_above(b))
    }
}

impl Rising for Direct {
    ghost above = { line_above };

    fn is_above(&self, before: &Self) -> bool {
        (before.senior, before.junior) < (self.senior, self.junior)
    }
}

// Users and objects.
impl Rising for Entry {
    ghost above = { number_above };

    fn is_above(&self, before: &Self) -> bool {
        before.number < self.number
    }
}

impl Rising for Conflict {
    ghost above = { set_above };

    fn is_above(&self, before: &Self) -> bool {
        before.set < self.set
    }
}

impl Rising for RuleValue {
    ghost above = { λ b x. ltb b.action x.action };

    fn is_above(&self, before: &Self) -> bool {
        before.action < self.action
    }
}

impl Rising for Pair {
    ghost above = { pair_higher };

    fn is_above(&self, before: &Self) -> bool {
        (before.action, before.user, before.object) < (self.action, self.user, self.object)
    }
}
