// The masks of the first k values.
ghost use Rattle.std.specs.Prelude.{◌≡◌, ◌≤◌};
ghost use Rattle.sets.specs.Set as set;
ghost use Rattle.policy.specs.Limits.{most_values};

// The set of all values below k: 2^k - 1.
pub fn first(k: u32) -> u32
    requires { k ≤ most_values }
    ensures { result ≡ set.mask k }
{
    (1 << k) - 1
}
