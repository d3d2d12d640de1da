// What grants an action, and where it does: the one place that says so, for blocks of 64 pairs of sets at once.
ghost use Rattle.std.specs.Prelude.{ℕ, ◌*◌, ◌≤◌, ◌<◌, ◌≡◌, false, length};
ghost use Rattle.basis.specs.Choice.{given, there};
ghost use Rattle.sets.specs.Set.{has};
ghost use Rattle.policy.specs.Policy.{Policy, formula_in, named as isNamed};
ghost use Rattle.policy.specs.Value.{word_places, rules_of, policy_of};
ghost use Rattle.formula.specs.Truth.{Sets, truth};
ghost use Rattle.formula.specs.Inner.Fits.{RulesFit, ValueFits};
ghost use Rattle.formula.specs.Inner.Blocks.{AtLane};
ghost use Rattle.formula.specs.Inner.Grant.{rule_true, grants_at, GrantOf, GrantsOf};
ghost use Rattle.formula.specs.Inner.Lane.{stack_places, in_block, AttributesOf};

use crate::both::Blocks;
use crate::pairs;
use policy::limits::MOST_VALUES;
use policy::value::{Pairs, PolicyValue, RuleValue, Rules};

// What grants the actions of a policy: its rules and its pairs.
#[derive(Clone, Copy)]
pub struct Grants {
    pub rules: Rules,
    pub pairs: Pairs,
}

// What grants one action: its rule, and one without words where it has none; and by its pairs, for each user value the
// set of the object values that it is paired with.
#[derive(Clone, Copy)]
pub struct Grant {
    pub rule: RuleValue,
    pub paired: [u32; MOST_VALUES],
}

// What grants the actions of this policy.
pub fn of_policy(policy: PolicyValue) -> Grants
    requires { ValueFits policy }
    ensures { GrantsOf (policy_of policy) result }
{
    Grants {
        rules: policy.rules,
        pairs: policy.pairs,
    }
}

// The rule of an action, and one without words, true nowhere, where it has none.
fn rule_of(rules: Rules, action: u32) -> RuleValue
    requires { (n : ℕ) × RulesFit n rules }
    ensures { (result.count ≤ word_places) × ((p : Policy) (s : Sets) → rule_true p result s ≡ given (formula_in (rules_of rules) action) false (truth p s)) }
{
    for rule in &rules.entries[..rules.count] {
        if rule.action == action {
            return *rule;
        }
    }
    RuleValue::default()
}

// Whether one of some rules is the action's. `pairs::name` says the same of pairs: a trait for a rule's action and a
// pair's would be longer than both.
fn has_rule(rules: Rules, action: u32) -> bool
    requires { (n : ℕ) × RulesFit n rules }
    ensures { result ≡ there (formula_in (rules_of rules) action) }
{
    rules.entries[..rules.count]
        .iter()
        .any(|x| x.action == action)
}

// What grants an action.
pub fn of_action(grants: Grants, action: u32) -> Grant
    requires { (p : Policy) × GrantsOf p grants }
    ensures { (p : Policy) → GrantsOf p grants → GrantOf p action result }
{
    let pairs = grants.pairs;
    Grant {
        rule: rule_of(grants.rules, action),
        // Where the policy has no pair, none is looked for.
        paired: if pairs.count == 0 {
            [0; MOST_VALUES]
        } else {
            pairs::of_action(pairs, action)
        },
    }
}

// Whether the action has a rule or a pair.
pub fn named(grants: Grants, action: u32) -> bool
    requires { (p : Policy) × GrantsOf p grants }
    ensures { (p : Policy) → GrantsOf p grants → result ≡ isNamed p action }
{
    has_rule(grants.rules, action) || pairs::name(grants.pairs, action)
}

impl<'a> Blocks<'a> {
    // Works out where this grants: where its formula is true, and where a pair of it holds. Says on which place of the
    // stack it is.
    pub fn where_granted(&self, grant: Grant, stack: &mut [u64]) -> usize
        requires { ((p : Policy) × AttributesOf p self.now.sides) × (grant.rule.count ≤ word_places) × (stack_places * self.now.count ≤ length stack.old) }
        ensures { let n = self.now.count in (result ≤ word_places) × (length stack.new ≡ length stack.old) × ((b : ℕ) → b < n → (p : Policy) (k : ℕ) (s : Sets) → AtLane p self.now b k s → has (in_block stack.new n b result) k ≡ grants_at p grant s) }
    {
        let d = self.where_true(grant.rule, stack);
        if !pairs::none_paired(grant.paired) {
            self.add_paired(grant.paired, stack, d);
        }
        d
    }
}
