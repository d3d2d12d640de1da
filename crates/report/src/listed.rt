// The actions that a report lists: those with a rule or a pair, in rising order.
ghost use Rattle.std.specs.Prelude.{◌≤◌};
ghost use Rattle.basis.specs.Numbers.{select};
ghost use Rattle.policy.specs.Limits.{most_actions};
ghost use Rattle.policy.specs.Policy.{Policy, named};
ghost use Rattle.formula.specs.Inner.Grant.{GrantsOf};
ghost use Rattle.report.specs.Inner.Cursor.{Stores};

use formula::grant;
use formula::grant::Grants;
use policy::limits::MOST_ACTIONS;

// So many actions, in the first places. An array and a count, since there is no heap.
#[derive(Clone, Copy)]
pub struct Listed {
    pub count: usize,
    pub actions: [u32; MOST_ACTIONS],
}

// Those of the first n actions that have a rule or a pair.
pub fn of_grants(grants: Grants, n: u32) -> Listed
    requires { ((p : Policy) × GrantsOf p grants) × (n ≤ most_actions) }
    ensures { (p : Policy) → GrantsOf p grants → Stores (select (named p) n) result }
{
    let mut actions = [0u32; MOST_ACTIONS];
    let mut count: usize = 0;
    for a in 0..n {
        if grant::named(grants, a) {
            actions[count] = a;
            count += 1;
        }
    }
    Listed { count, actions }
}
