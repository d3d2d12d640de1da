// The sets of a side in blocks of 64, made once for all the sets of the other side that are asked about.
ghost use Rattle.std.specs.Prelude.{ℕ, ◌+◌, ◌*◌, ◌%◌, ◌^◌, ◌≤◌, ◌<◌, ◌≡◌, length, get_or};
ghost use Rattle.policy.specs.Limits.{most_values};
ghost use Rattle.policy.specs.Policy.{Policy, total};
ghost use Rattle.policy.specs.Value.{side_of};
ghost use Rattle.formula.specs.Inner.Fits.{SideFits};
ghost use Rattle.formula.specs.Inner.Lane.{lanes, vector_places, within, in_block, AttributesOf, Stands, grown_by};
ghost use Rattle.formula.specs.Inner.Source.{blocks_of, most_blocks, side_vectors, Numbered};

use crate::attributes::Attributes;
use crate::side::{LANE_BITS, LANES, VECTORS};
use crate::{attributes, blockwise, side};
use policy::limits::MOST_SETS;
use policy::value::{SideValue, WORD_PLACES};

// The most blocks that a side has.
pub const SIDE_BLOCKS: usize = MOST_SETS / LANES;

// Room for the vectors of as many blocks, a number of each for every vector.
pub const SIDE_VECTORS: usize = VECTORS * SIDE_BLOCKS;

// Room for a stack of as many words as a formula has, and false below them: for one block, and for as many as a side
// has.
pub const ONE_STACK: usize = WORD_PLACES + 1;

pub const STACK: usize = ONE_STACK * SIDE_BLOCKS;

// What many pairs of sets of a policy are worked out from, beside its object sets: where its attributes lie, its user
// side, and how many blocks the object sets have.
#[derive(Clone, Copy)]
pub struct Source {
    pub sides: Attributes,
    pub user: SideValue,
    pub blocks: usize,
}

// How many blocks 2^n numbers have: one where they do not fill it.
pub fn blocks_of(n: u32) -> usize
    requires { n ≤ 2 * most_values }
    ensures { result ≡ blocks_of n }
{
    if n < LANE_BITS {
        1
    } else {
        1 << (n - LANE_BITS)
    }
}

// The sets of a side that the numbers 64b to 64b + 63 have in their lowest n bits, as seniority makes them.
fn sets_from(b: u32, side: SideValue, n: u32, user: bool) -> [u64; VECTORS]
    requires { SideFits side × (n ≤ most_values) }
    ensures { (k : ℕ) → k < lanes → Stands (grown_by user (side_of side).lines) (within result) k ((b * lanes + k) % 2 ^ n) }
{
    side::closed(side::part(b, 0, n), side, user)
}

// Puts the vectors of a block among those of n, as block b.
fn put(block: &[u64; VECTORS], n: usize, b: usize, vectors: &mut [u64; SIDE_VECTORS])
    requires { (b < n) × (n ≤ most_blocks) × (length vectors.old ≡ side_vectors) }
    ensures { (length vectors.new ≡ side_vectors) × ((v : ℕ) → v < vector_places → in_block vectors.new n b v ≡ get_or block.now v 0) × ((c v : ℕ) → c < n → (c ≡ b → ⊥) → in_block vectors.new n c v ≡ in_block vectors.old n c v) }
{
    for v in 0..VECTORS {
        vectors[v * n + b] = block[v];
    }
}

// Puts the vectors of a block as each of n blocks.
pub fn put_over(block: &[u64; VECTORS], n: usize, vectors: &mut [u64; SIDE_VECTORS])
    requires { (n ≤ most_blocks) × (length vectors.old ≡ side_vectors) }
    ensures { (length vectors.new ≡ side_vectors) × ((b v : ℕ) → b < n → v < vector_places → in_block vectors.new n b v ≡ get_or block.now v 0) }
{
    for v in 0..VECTORS {
        blockwise::fill(vectors, v, n, block[v]);
    }
}

// All sets of a side of n values in blocks.
pub fn of_side(side: SideValue, n: u32, user: bool) -> [u64; SIDE_VECTORS]
    requires { SideFits side × (n ≤ most_values) }
    ensures { (length result ≡ side_vectors) × Numbered user (side_of side) n result }
{
    let count = blocks_of(n);
    let mut vectors = [0u64; SIDE_VECTORS];
    for b in 0..count {
        let block = sets_from(b as u32, side, n, user);
        put(&block, count, b, &mut vectors);
    }
    vectors
}

// What the pairs of sets of a policy with these sides are worked out from, beside its object sets.
pub fn source_of(user: SideValue, object: SideValue) -> Source
    requires { SideFits user × SideFits object }
    ensures { ((p : Policy) → p.user ≡ side_of user → p.object ≡ side_of object → AttributesOf p result.sides) × (result.user ≡ user) × (result.blocks ≡ blocks_of (total (side_of object))) }
{
    let sides = attributes::of_sides(user, object);
    Source {
        sides,
        user,
        blocks: blocks_of(attributes::total(sides.object)),
    }
}
