// Blocks of 64 pairs of a user set and an object set, as the evaluator is lent them.
ghost use Rattle.std.specs.Prelude.{◌*◌, ◌≤◌, length};
ghost use Rattle.formula.specs.Inner.Lane.{vector_places};

use crate::attributes::Attributes;

// Where the attributes of a policy lie, and the vectors of both sides, which have a number for each of `count` blocks.
#[derive(Clone, Copy)]
pub struct Blocks<'a> {
    pub sides: Attributes,
    pub users: &'a [u64],
    pub objects: &'a [u64],
    pub count: usize,
    pub ghost users_fit: { vector_places * count ≤ length users.now },
    pub ghost objects_fit: { vector_places * count ≤ length objects.now },
}
