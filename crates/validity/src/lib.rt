// Check 11 on a policy value: whether it is what reading some accepted text yields.
#![tactic(auto)]

ghost use Rattle.std.specs.Prelude.{◌≡◌, ◌≤◌};
ghost use Rattle.policy.specs.Limits.{most_values};
ghost use Rattle.policy.specs.Valid.{valid};
ghost use Rattle.checks.specs.Inner.{both_in};
ghost use Rattle.validity.specs.Inner.{lists_valid};

mod behind;
pub mod lent;
mod list;
mod side;

use checks::shape::Shapes;
use list::{conflicts_valid, pairs_valid, register_valid, rules_valid};
use policy::limits;
use policy::value::PolicyValue;

// The users, the objects, the conflicts, the rules and the pairs, for sides of these shapes.
fn lists_valid(v: &PolicyValue, shapes: &Shapes) -> bool
    requires { (shapes.now.user.total ≤ most_values) × (shapes.now.object.total ≤ most_values) }
    ensures { result ≡ lists_valid v.now.form (both_in shapes.now) v.now.users v.now.objects v.now.conflicts v.now.rules v.now.pairs }
{
    let actions = limits::actions(v.form);
    register_valid(limits::USER_NUMBERS, &shapes.user, &v.users)
        && register_valid(limits::OBJECT_NUMBERS, &shapes.object, &v.objects)
        && conflicts_valid(&shapes.user, &v.conflicts)
        && rules_valid(actions, shapes, &v.rules)
        && pairs_valid(actions, shapes, &v.pairs)
}

// Check 11. Not inlined: a caller that hands the value on would keep a copy of it below its deepest call.
#[inline(never)]
pub fn check(v: PolicyValue) -> bool
    ensures { result ≡ valid v }
{
    lent::check(&v)
}
