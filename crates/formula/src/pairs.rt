// Pair lines at blocks of 64 pairs of sets at once: where they hold, and those of an action.
ghost use Rattle.std.specs.Prelude.{ℕ, ◌+◌, ◌*◌, ◌≤◌, ◌<◌, ◌&&◌, ◌||◌, length, get_or, ◌≡◌, eqb};
ghost use Rattle.basis.specs.Lists.{any};
ghost use Rattle.basis.specs.Numbers.{every};
ghost use Rattle.sets.specs.Set.{has};
ghost use Rattle.words.specs.declared.Holding.TheVariants.{User, Object};
ghost use Rattle.policy.specs.Limits.{most_values};
ghost use Rattle.policy.specs.Policy.{Policy};
ghost use Rattle.policy.specs.Value.{pairs_of};
ghost use Rattle.formula.specs.Truth.{Sets, holds};
ghost use Rattle.formula.specs.Inner.Fits.{PairsFit};
ghost use Rattle.formula.specs.Inner.Blocks.{SetsAt};
ghost use Rattle.formula.specs.Inner.Grant.{partner_held, paired_at, Paired};
ghost use Rattle.formula.specs.Inner.Lane.{in_block, Placed};

use crate::both::Blocks;
use policy::limits::MOST_VALUES;
use policy::value::Pairs;

impl<'a> Blocks<'a> {
    // Adds to a place where the user sets with their juniors hold user value v, and the object sets with their seniors
    // object value w.
    pub(crate) fn add_held(&self, v: usize, w: usize, to: &mut [u64], i: usize)
        requires { (v < most_values) × (w < most_values) × (i * self.now.count + self.now.count ≤ length to.old) }
        ensures { let n = self.now.count in Placed n i (λ b y. (p : Policy) (k : ℕ) (s : Sets) → SetsAt p self.now b k s → has y k ≡ (has (in_block to.old n b i) k || (holds p s (User v) && holds p s (Object w)))) to.old to.new }
    {
        let n = self.count;
        let users = self.users;
        let objects = self.objects;
        let user = (MOST_VALUES + v) * n;
        let object = (MOST_VALUES + w) * n;
        let start = i * n;
        for b in 0..n {
            to[start + b] = to[start + b] | (users[user + b] & objects[object + b]);
        }
    }

    // Adds to a place where user value v and an object value of this set are held so.
    fn add_partners(&self, v: usize, set: u32, to: &mut [u64], i: usize)
        requires { (v < most_values) × (i * self.now.count + self.now.count ≤ length to.old) }
        ensures { let n = self.now.count in Placed n i (λ b y. (p : Policy) (k : ℕ) (s : Sets) → SetsAt p self.now b k s → has y k ≡ (has (in_block to.old n b i) k || (holds p s (User v) && partner_held p s set))) to.old to.new }
    {
        for w in 0..MOST_VALUES {
            if sets::holds(set, w as u32) {
                self.add_held(v, w, to, i);
            }
        }
    }

    // Adds to a place where a user value and one of the object values that it is paired with are held so.
    pub(crate) fn add_paired(&self, paired: [u32; MOST_VALUES], to: &mut [u64], i: usize)
        requires { i * self.now.count + self.now.count ≤ length to.old }
        ensures { let n = self.now.count in Placed n i (λ b y. (p : Policy) (k : ℕ) (s : Sets) → SetsAt p self.now b k s → has y k ≡ (has (in_block to.old n b i) k || paired_at p paired s)) to.old to.new }
    {
        for v in 0..MOST_VALUES {
            let set = paired[v];
            // Most user values have no pair.
            if set != 0 {
                self.add_partners(v, set, to, i);
            }
        }
    }
}

// Whether no user value is paired.
pub fn none_paired(paired: [u32; MOST_VALUES]) -> bool
    ensures { result ≡ every (λ v. eqb (get_or paired v 0) 0) most_values }
{
    let mut r: u32 = 0;
    for v in 0..MOST_VALUES {
        r = r | paired[v];
    }
    r == 0
}

// For each user value the object values that it is paired with for an action.
pub fn of_action(pairs: Pairs, action: u32) -> [u32; MOST_VALUES]
    requires { (n : ℕ) × PairsFit n pairs }
    ensures { Paired action (pairs_of pairs) result }
{
    let mut r = [0u32; MOST_VALUES];
    for pair in &pairs.entries[..pairs.count] {
        if pair.action == action {
            let v = pair.user as usize;
            r[v] = r[v] | (1 << pair.object);
        }
    }
    r
}

// Whether one of some pairs is the action's.
pub fn name(pairs: Pairs, action: u32) -> bool
    requires { (n : ℕ) × PairsFit n pairs }
    ensures { result ≡ any (λ x. eqb x.action action) (pairs_of pairs) }
{
    pairs.entries[..pairs.count]
        .iter()
        .any(|x| x.action == action)
}
