// Rows of entries. The entry of a user set and an object set has bit a where action a is granted; the row of a set of one
// side has its entries at the sets of the other. Here entries are as wide as those of any form.
ghost use Rattle.std.specs.Prelude.{ℕ, ◌*◌, ◌^◌, ◌≤◌, ◌<◌, ◌≡◌, true, false, not, length, get_or};
ghost use Rattle.sets.specs.Set.{has};
ghost use Rattle.policy.specs.Limits.{most_values, most_sets, most_actions};
ghost use Rattle.policy.specs.Policy.{Policy, sets};
ghost use Rattle.policy.specs.Value.{policy_of};
ghost use Rattle.formula.specs.Truth as truth;
ghost use Rattle.formula.specs.Inner.Fits.{ValueFits};
ghost use Rattle.formula.specs.Inner.Grant.{GrantsOf};
ghost use Rattle.formula.specs.Inner.Lane.{vector_places, in_block, AttributesOf, side_at, beside};
ghost use Rattle.formula.specs.Inner.Source.{most_blocks};
ghost use Rattle.labels.specs.Rows.{first_unlike};
ghost use Rattle.labels.specs.Compile.{entry_of};
ghost use Rattle.labels.specs.Inner.Rows.{RowsOf, InLanes, entry_at};

use crate::whole;
use formula::attributes::Attributes;
use formula::blocks::SIDE_VECTORS;
use formula::both::Blocks;
use formula::entries::GRANTED;
use formula::grant::Grants;
use formula::{attributes, blocks, grant, side};
use policy::limits;
use policy::limits::MOST_SETS;
use policy::value::{PolicyValue, SideValue};

// What the rows of one side are worked out from: whether it is the user side, both sides, and the sets of the other. A flag
// says which side it is, as in the definitions (`side_at`, `beside`): what holds is stated once for both.
#[derive(Clone, Copy)]
pub struct Rows {
    pub user: bool,
    pub sides: Attributes,
    pub side: SideValue,
    pub other: SideValue,
    pub blocks: usize,
    pub others: [u64; SIDE_VECTORS],
    pub grants: Grants,
    pub actions: u32,
}

impl Rows {
    // What the rows of a policy's user sets are worked out from.
    pub fn of(policy: &PolicyValue) -> Rows
        requires { ValueFits policy.now }
        ensures { (result.user ≡ true) × RowsOf (policy_of policy.now) result }
    {
        let side = policy.user;
        let other = policy.object;
        let sides = attributes::of_sides(side, other);
        let values = attributes::total(sides.object);
        let others = blocks::of_side(other, values, false);
        Rows {
            user: true,
            sides,
            side,
            other,
            blocks: blocks::blocks_of(values),
            others,
            grants: grant::of_policy(*policy),
            actions: limits::actions(policy.form),
        }
    }

    // What the rows of its object sets are worked out from.
    pub fn turned(&self) -> Rows
        requires { (self.now.user ≡ true) × ((p : Policy) × RowsOf p self.now) }
        ensures { (result.user ≡ false) × ((p : Policy) → RowsOf p self.now → RowsOf p result) }
    {
        let values = attributes::total(self.sides.user);
        Rows {
            user: false,
            sides: self.sides,
            side: self.other,
            other: self.side,
            blocks: blocks::blocks_of(values),
            others: blocks::of_side(self.side, values, true),
            grants: self.grants,
            actions: self.actions,
        }
    }

    // Puts the row of a set, at the first n sets of the other side.
    pub fn put_row(&self, row: &mut [u16; MOST_SETS], s: u32, n: usize)
        requires { ((p : Policy) × RowsOf p self.now × (n ≤ sets (side_at (not self.now.user) p))) × (s < 2 ^ most_values) }
        ensures { (p : Policy) (o : ℕ) → RowsOf p self.now → n ≤ sets (side_at (not self.now.user) p) → o < n → get_or row.new o 0 ≡ entry_of p (beside self.now.user s o) }
    {
        let block = side::closed(side::spread(s), self.side, self.user);
        let mut fixed = [0u64; SIDE_VECTORS];
        blocks::put_over(&block, self.blocks, &mut fixed);
        let mut granted = [0u64; GRANTED];
        self.put_granted(&fixed, &mut granted);
        whole::put_blocks(row, &granted, self.blocks, self.actions, 0, n);
    }

    // Puts for each action where it is granted, with a set of this side in every lane of the vectors and the sets of the
    // other side in those that are kept.
    fn put_granted(&self, fixed: &[u64], granted: &mut [u64])
        requires { ((p : Policy) × AttributesOf p self.now.sides × GrantsOf p self.now.grants) × (vector_places * self.now.blocks ≤ length fixed.now) × (vector_places * self.now.blocks ≤ length self.now.others) × (self.now.blocks ≤ most_blocks) × (most_actions * self.now.blocks ≤ length granted.old) }
        ensures { (length granted.new ≡ length granted.old) × ((b : ℕ) → b < self.now.blocks → (p : Policy) (k s t : ℕ) → AttributesOf p self.now.sides → GrantsOf p self.now.grants → InLanes p self.now.user (in_block fixed.now self.now.blocks b) (in_block self.now.others self.now.blocks b) k s t → (a : ℕ) → a < most_actions → has (in_block granted.new self.now.blocks b a) k ≡ truth.grants p a (beside self.now.user s t)) }
    {
        if self.user {
            let blocks = Blocks {
                sides: self.sides,
                users: fixed,
                objects: &self.others,
                count: self.blocks,
            };
            blocks.put_granted(self.grants, granted);
        } else {
            let blocks = Blocks {
                sides: self.sides,
                users: &self.others,
                objects: fixed,
                count: self.blocks,
            };
            blocks.put_granted(self.grants, granted);
        }
    }
}

// The first of n columns at which two rows differ, or n where none does.
pub fn first_unlike(row: &[u16; MOST_SETS], other: &[u16; MOST_SETS], n: usize) -> usize
    requires { n ≤ most_sets }
    ensures { result ≡ first_unlike (entry_at row.now) (entry_at other.now) n }
{
    row[..n]
        .iter()
        .zip(&other[..n])
        .position(|(x, y)| x != y)
        .unwrap_or(n)
}
