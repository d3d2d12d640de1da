// The numbers of labels of a policy.
ghost use Rattle.std.specs.Prelude.{◌≡◌, true};
ghost use Rattle.policy.specs.Valid.{valid};
ghost use Rattle.policy.specs.Value.{policy_of};
ghost use Rattle.labels.specs.Compile.{NU, NO};

use labels::Counts;
use policy::value::PolicyValue;

// NU and NO. They are not refused: check 11 passes.
pub fn count_labels(policy: PolicyValue) -> Counts
    requires { valid policy ≡ true }
    ensures { (result.users ≡ NU (policy_of policy)) × (result.objects ≡ NO (policy_of policy)) }
{
    labels::used(policy).unwrap()
}
