// Where every action is granted among the pairs of sets of several blocks.
ghost use Rattle.std.specs.Prelude.{ℕ, ◌*◌, ◌≤◌, ◌<◌, ◌≡◌, false, ◌&&◌, ◌||◌, eqb, length, get_or};
ghost use Rattle.basis.specs.Choice.{given};
ghost use Rattle.basis.specs.Lists.{any};
ghost use Rattle.sets.specs.Set.{has};
ghost use Rattle.policy.specs.Limits.{most_actions};
ghost use Rattle.policy.specs.Policy.{Policy, formula_in};
ghost use Rattle.policy.specs.Value.{rules_of, pairs_of};
ghost use Rattle.formula.specs.Truth as truth;
ghost use Rattle.formula.specs.Truth.{Sets, truth as trueAt, pair_holds};
ghost use Rattle.formula.specs.Inner.Fits.{RulesFit, PairsFit};
ghost use Rattle.formula.specs.Inner.Blocks.{SetsAt, AtLane};
ghost use Rattle.formula.specs.Inner.Grant.{GrantsOf};
ghost use Rattle.formula.specs.Inner.Source.{most_blocks};
ghost use Rattle.formula.specs.Inner.Lane.{stack_places, in_block, AttributesOf};

use crate::blocks::{ONE_STACK, SIDE_BLOCKS, STACK};
use crate::blockwise;
use crate::both::Blocks;
use crate::grant::Grants;
use policy::limits::MOST_ACTIONS;
use policy::value::{Pairs, Rules};

// Room for a number for each action and each block.
pub const GRANTED: usize = MOST_ACTIONS * SIDE_BLOCKS;

// Up to so many blocks get a small stack: clearing the large one costs more than evaluating a short formula.
const FEW_BLOCKS: usize = 2;

const FEW_STACK: usize = ONE_STACK * FEW_BLOCKS;

impl<'a> Blocks<'a> {
    // Puts for each action where its formula is true. The last rule comes first, so an action's first one counts.
    fn put_by_rules(&self, rules: Rules, stack: &mut [u64], granted: &mut [u64])
        requires { let n = self.now.count in ((p : Policy) × AttributesOf p self.now.sides) × RulesFit most_actions rules × (stack_places * n ≤ length stack.old) × (most_actions * n ≤ length granted.old) × ((i : ℕ) → i < most_actions * n → get_or granted.old i 0 ≡ 0) }
        ensures { let n = self.now.count in (length stack.new ≡ length stack.old) × (length granted.new ≡ length granted.old) × ((b : ℕ) → b < n → (p : Policy) (k : ℕ) (s : Sets) → AtLane p self.now b k s → (a : ℕ) → a < most_actions → has (in_block granted.new n b a) k ≡ given (formula_in (rules_of rules) a) false (trueAt p s)) }
    {
        for rule in rules.entries[..rules.count].iter().rev() {
            let d = self.where_true(*rule, stack);
            blockwise::copy(stack, d, self.count, granted, rule.action as usize);
        }
    }

    // The same on a stack of its own, a small one for few blocks: stacks of two sizes are of two types.
    fn put_rules(&self, rules: Rules, granted: &mut [u64])
        requires { let n = self.now.count in ((p : Policy) × AttributesOf p self.now.sides) × RulesFit most_actions rules × (n ≤ most_blocks) × (most_actions * n ≤ length granted.old) × ((i : ℕ) → i < most_actions * n → get_or granted.old i 0 ≡ 0) }
        ensures { let n = self.now.count in (length granted.new ≡ length granted.old) × ((b : ℕ) → b < n → (p : Policy) (k : ℕ) (s : Sets) → AtLane p self.now b k s → (a : ℕ) → a < most_actions → has (in_block granted.new n b a) k ≡ given (formula_in (rules_of rules) a) false (trueAt p s)) }
    {
        if self.count <= FEW_BLOCKS {
            let mut stack = [0u64; FEW_STACK];
            self.put_by_rules(rules, &mut stack, granted);
        } else {
            let mut stack = [0u64; STACK];
            self.put_by_rules(rules, &mut stack, granted);
        }
    }

    // Adds for each action where one of its pairs holds.
    fn add_pairs(&self, pairs: Pairs, granted: &mut [u64])
        requires { PairsFit most_actions pairs × (most_actions * self.now.count ≤ length granted.old) }
        ensures { let n = self.now.count in (length granted.new ≡ length granted.old) × ((b : ℕ) → b < n → (p : Policy) (k : ℕ) (s : Sets) → SetsAt p self.now b k s → (a : ℕ) → a < most_actions → has (in_block granted.new n b a) k ≡ (has (in_block granted.old n b a) k || any (λ x. eqb x.action a && pair_holds p s x) (pairs_of pairs))) }
    {
        for pair in &pairs.entries[..pairs.count] {
            self.add_held(
                pair.user as usize,
                pair.object as usize,
                granted,
                pair.action as usize,
            );
        }
    }

    // Puts for each action where it is granted.
    pub fn put_granted(&self, grants: Grants, granted: &mut [u64])
        requires { let n = self.now.count in ((p : Policy) × AttributesOf p self.now.sides × GrantsOf p grants) × (n ≤ most_blocks) × (most_actions * n ≤ length granted.old) }
        ensures { let n = self.now.count in (length granted.new ≡ length granted.old) × ((b : ℕ) → b < n → (p : Policy) (k : ℕ) (s : Sets) → AtLane p self.now b k s → GrantsOf p grants → (a : ℕ) → a < most_actions → has (in_block granted.new n b a) k ≡ truth.grants p a s) }
    {
        granted[..MOST_ACTIONS * self.count].fill(0);
        self.put_rules(grants.rules, granted);
        if grants.pairs.count != 0 {
            self.add_pairs(grants.pairs, granted);
        }
    }
}

// Where each action is granted in block b of n.
pub fn in_block(granted: &[u64], n: usize, b: usize) -> [u64; MOST_ACTIONS]
    requires { (b < n) × (most_actions * n ≤ length granted.now) }
    ensures { (a : ℕ) → a < most_actions → get_or result a 0 ≡ in_block granted.now n b a }
{
    let mut r = [0u64; MOST_ACTIONS];
    for a in 0..MOST_ACTIONS {
        r[a] = granted[a * n + b];
    }
    r
}
