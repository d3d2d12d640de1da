// What formulas and pairs decide, at blocks of 64 pairs of a user set and an object set at once: bit k of a number is lane
// k, which stands for one of them.
#![tactic(auto)]

ghost use Rattle.std.specs.Prelude.{◌^◌, ◌<◌, ◌≡◌, true};
ghost use Rattle.policy.specs.Limits.{most_values};
ghost use Rattle.policy.specs.Value.{policy_of};
ghost use Rattle.policy.specs.Valid.{valid};
ghost use Rattle.formula.specs.Truth.{at, grants};
ghost use Rattle.formula.specs.Decide as spec;
ghost use Rattle.policy.specs.Answers.{decided};
ghost use Rattle.formula.specs.Decide.{decided_as, reply_of};
ghost use Rattle.formula.specs.Inner.Fits.{ValueFits};
ghost use Rattle.formula.specs.Inner.Lane.{AttributesOf};

pub mod attributes;
pub mod blocks;
mod blockwise;
pub mod both;
pub mod entries;
mod evaluate;
pub mod grant;
mod pairs;
pub mod side;
pub mod turn;

use crate::attributes::Attributes;
use crate::blocks::ONE_STACK;
use crate::both::Blocks;
use policy::limits;
use policy::refusal::Refusal;
use policy::value::PolicyValue;

// Whether an action is granted, where nothing refuses the question.
#[derive(Clone, Copy, PartialEq, Eq)]
pub enum Decision {
    Granted,
    Denied,
}

impl From<bool> for Decision {
    ghost from_gives = { λ granted decision. decided_as decision ≡ decided granted };

    fn from(granted: bool) -> Decision {
        if granted {
            Decision::Granted
        } else {
            Decision::Denied
        }
    }
}

// Whether an action is granted at a user set and an object set, which stand in every lane.
fn allows(v: &PolicyValue, sides: Attributes, action: u32, user: u32, object: u32) -> bool
    requires { ValueFits v.now × AttributesOf (policy_of v.now) sides × (user < 2 ^ most_values) × (object < 2 ^ most_values) }
    ensures { result ≡ grants (policy_of v.now) action (at user object) }
{
    let users = side::closed(side::spread(user), v.user, true);
    let objects = side::closed(side::spread(object), v.object, false);
    let blocks = Blocks {
        sides,
        users: &users,
        objects: &objects,
        count: 1,
    };
    let grant = grant::of_action(grant::of_policy(*v), action);
    let mut stack = [0u64; ONE_STACK];
    let d = blocks.where_granted(grant, &mut stack);
    stack[d] % 2 == 1
}

// The answer where check 11 passes.
fn answer(v: &PolicyValue, action: u32, user: u32, object: u32) -> Result<Decision, Refusal>
    requires { valid v.now ≡ true }
    ensures { reply_of result ≡ spec.decide v.now action (at user object) }
{
    if limits::actions(v.form) <= action {
        return Err(Refusal::UnknownAction);
    }
    let sides = attributes::of_sides(v.user, v.object);
    if attributes::lacks(sides, user, object) {
        return Err(Refusal::SetOutOfReach);
    }
    Ok(Decision::from(allows(v, sides, action, user, object)))
}

// Whether an action is granted to a user set on an object set, by the action's formula and its pairs.
pub fn decide(v: PolicyValue, action: u32, user: u32, object: u32) -> Result<Decision, Refusal>
    ensures { reply_of result ≡ spec.decide v action (at user object) }
{
    if !validity::lent::check(&v) {
        return Err(Refusal::InvalidState);
    }
    answer(&v, action, user, object)
}
