// Check 11 of a policy value that is lent: one that goes by value is copied once more for each call.
ghost use Rattle.std.specs.Prelude.{◌≡◌};
ghost use Rattle.policy.specs.Valid.{valid};

use crate::{lists_valid, side};
use checks::shape::Shapes;
use policy::limits;
use policy::value::PolicyValue;

// Check 11.
pub fn check(v: &PolicyValue) -> bool
    ensures { result ≡ valid v.now }
{
    if !limits::is_form(v.form) {
        return false;
    }
    let most = limits::values(v.form);
    let Some(user) = side::shape(most, &v.user) else {
        return false;
    };
    let Some(object) = side::shape(most, &v.object) else {
        return false;
    };
    lists_valid(v, &Shapes { user, object })
}
