// What the rows of two user sets tell of them.
ghost use Rattle.std.specs.Prelude.{◌^◌, ◌<◌, ◌≡◌, true};
ghost use Rattle.policy.specs.Limits.{most_values};
ghost use Rattle.policy.specs.Policy.{Policy, sets};
ghost use Rattle.policy.specs.Value.{policy_of};
ghost use Rattle.policy.specs.declared.value.PolicyValue.{PolicyValue};
ghost use Rattle.labels.specs.Apart.{apart_refusal, Tells};
ghost use Rattle.labels.specs.Inner.Rows.{RowsOf, first_action};

use crate::rows::Rows;
use crate::{Witness, rows};
use policy::limits::MOST_SETS;

// The first action that one of two entries has and the other lacks, or how many an entry can have where there is none.
fn first_action(x: u16, y: u16) -> u32
    ensures { result ≡ first_action x y }
{
    (x ^ y).trailing_zeros()
}

// What the rows of two user sets tell, of n object sets.
pub fn tell(from: &Rows, n: usize, u: u32, w: u32) -> Option<Witness>
    requires { (from.now.user ≡ true) × ((p : Policy) × RowsOf p from.now × (n ≡ sets p.object)) × (u < 2 ^ most_values) × (w < 2 ^ most_values) }
    ensures { (v : PolicyValue) → apart_refusal v u w ≡ None → RowsOf (policy_of v) from.now → n ≡ sets (policy_of v).object → Tells v u w (Ok result) }
{
    let mut row = [0u16; MOST_SETS];
    from.put_row(&mut row, u, n);
    let mut other = [0u16; MOST_SETS];
    from.put_row(&mut other, w, n);
    let o = rows::first_unlike(&row, &other, n);
    if o == n {
        return None;
    }
    let action = first_action(row[o], other[o]);
    Some(Witness {
        action,
        object: o as u32,
    })
}
