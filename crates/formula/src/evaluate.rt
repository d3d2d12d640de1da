// The truth of a formula at several blocks of 64 pairs of sets at once. Words work on a stack of places, each with a number
// for every block and in it a bit for every pair; below the lowest place lies false, as in the definition.
ghost use Rattle.std.specs.Prelude.{ℕ, ◌+◌, ◌*◌, ◌≤◌, ◌<◌, ◌≡◌, Bool, ◌&&◌, List, ◌∷◌, length};
ghost use Rattle.basis.specs.Numbers.{every};
ghost use Rattle.sets.specs.Set.{has};
ghost use Rattle.seniority.specs.Seniority.{held_or_senior};
ghost use Rattle.policy.specs.Policy.{Policy, width, start};
ghost use Rattle.policy.specs.Checks.{sizes, equal_width};
ghost use Rattle.policy.specs.Value.{word_places};
ghost use Rattle.policy.specs.Limits.{most_values};
ghost use Rattle.formula.specs.Truth.{Sets, holds, place_held, compares, top, below, step};
ghost use Rattle.formula.specs.Inner.Blocks.{SetsAt, AtLane};
ghost use Rattle.formula.specs.Inner.Grant.{rule_true};
ghost use Rattle.formula.specs.Inner.Lane.{lanes, vector_places, stack_places, in_block, Placed, AttributesOf, Stands, held_as, passes, combined, column};

use crate::both::Blocks;
use crate::side::ALL;
use crate::{attributes, blockwise};
use policy::limits::MOST_VALUES;
use policy::value::RuleValue;
use words::{Comparison, Holding, Word};

// Puts on a place where a set holds value v with its juniors or seniors taken in.
fn put_taken(vectors: &[u64], n: usize, v: u8, stack: &mut [u64], to: usize)
    requires { (vector_places * n ≤ length vectors.now) × (to * n + n ≤ length stack.old) }
    ensures { Placed n to (λ b y. (grown : ℕ → ℕ → Bool) (k s : ℕ) → Stands grown (in_block vectors.now n b) k s → has y k ≡ grown s v) stack.old stack.new }
{
    let i = v as usize;
    if i < MOST_VALUES {
        blockwise::copy(vectors, MOST_VALUES + i, n, stack, to);
    } else {
        blockwise::fill(stack, to, n, 0);
    }
}

// Where the vectors have value v, alone or with seniority taken in. A flag and no closure, here and below: the definitions
// are over it too (`combined`, `passes`, `held_as`), once for both ways.
fn vector_of(v: u8, alone: bool) -> usize
    requires { v < most_values }
    ensures { (result < vector_places) × ((grown : ℕ → ℕ → Bool) (vectors : ℕ → ℕ) (k s : ℕ) → Stands grown vectors k s → has (vectors result) k ≡ held_as alone grown s v) }
{
    let i = v as usize;
    if alone { i } else { MOST_VALUES + i }
}

// Where one place of attributes passes: x says where the object sets have it, y where the user sets do.
fn passing(x: u64, y: u64, exact: bool) -> u64
    ensures { (k : ℕ) → k < lanes → has result k ≡ passes exact (has x k) (has y k) }
{
    if exact { (x ^ y) ^ ALL } else { (x ^ ALL) | y }
}

// Takes the top d of a stack and what lies below it together, where both are true or where one is, and says where the
// top is then. Below the lowest place lies false.
fn combine(stack: &mut [u64], n: usize, d: usize, both: bool) -> usize
    requires { d * n + n ≤ length stack.old }
    ensures { (result ≤ d) × (length stack.new ≡ length stack.old) × ((b k : ℕ) → b < n → column (in_block stack.new n b) (result + 1) k ≡ combined both (top (below (column (in_block stack.old n b) (d + 1) k))) (top (column (in_block stack.old n b) (d + 1) k)) ∷ below (below (column (in_block stack.old n b) (d + 1) k))) }
{
    if d == 0 {
        if both {
            blockwise::fill(stack, 0, n, 0);
        }
        return 0;
    }
    blockwise::combine(stack, d - 1, n, both);
    d - 1
}

impl<'a> Blocks<'a> {
    // Puts on a place where a holding is true.
    fn put_held(&self, h: Holding, stack: &mut [u64], to: usize)
        requires { to * self.now.count + self.now.count ≤ length stack.old }
        ensures { Placed self.now.count to (λ b y. (p : Policy) (k : ℕ) (s : Sets) → SetsAt p self.now b k s → has y k ≡ holds p s h) stack.old stack.new }
    {
        match h {
            Holding::User(v) => put_taken(self.users, self.count, v, stack, to),
            Holding::Object(v) => put_taken(self.objects, self.count, v, stack, to),
        }
    }

    // Keeps on a place of the stack only where the sets pass a comparison of user vector u with object vector o.
    fn narrow(&self, u: usize, o: usize, exact: bool, stack: &mut [u64], to: usize)
        requires { (u < vector_places) × (o < vector_places) × (to * self.now.count + self.now.count ≤ length stack.old) }
        ensures { let n = self.now.count in Placed n to (λ b y. (k : ℕ) → k < lanes → has y k ≡ (has (in_block stack.old n b to) k && passes exact (has (in_block self.now.objects.now n b o) k) (has (in_block self.now.users.now n b u) k))) stack.old stack.new }
    {
        let n = self.count;
        let users = self.users;
        let objects = self.objects;
        let user = u * n;
        let object = o * n;
        let start = to * n;
        for b in 0..n {
            stack[start + b] = stack[start + b]
                & passing(objects[object + b], users[user + b], exact);
        }
    }

    // Puts on a place where w places of attributes pass, which start at a in the user sets and at c in the object sets. A
    // senior stands in for a place of the user sets, unless the places are to be the same.
    fn put_passing(&self, w: u8, a: u8, c: u8, exact: bool, stack: &mut [u64], to: usize)
        requires { (a + w ≤ most_values) × (c + w ≤ most_values) × (to * self.now.count + self.now.count ≤ length stack.old) }
        ensures { Placed self.now.count to (λ b y. (p : Policy) (k : ℕ) (s : Sets) → SetsAt p self.now b k s → has y k ≡ every (λ q. passes exact (has s.object (c + q)) (held_as exact (held_or_senior p.user.lines) s.user (a + q))) w) stack.old stack.new }
    {
        blockwise::fill(stack, to, self.count, ALL);
        for q in 0..w {
            let u = vector_of(a + q, exact);
            let o = vector_of(c + q, true);
            self.narrow(u, o, exact, stack, to);
        }
    }

    // Puts on a place where user attribute i and object attribute j, if equally wide, pass place by place.
    fn put_matched(&self, i: u8, j: u8, exact: bool, stack: &mut [u64], to: usize)
        requires { ((p : Policy) × AttributesOf p self.now.sides) × (to * self.now.count + self.now.count ≤ length stack.old) }
        ensures { Placed self.now.count to (λ b y. (p : Policy) (k : ℕ) (s : Sets) → AtLane p self.now b k s → has y k ≡ (equal_width (sizes p) i j && every (λ q. passes exact (place_held p.object j s.object q) (held_as exact (held_or_senior p.user.lines) s.user (start p.user i + q))) (width p.user i))) stack.old stack.new }
    {
        let user = self.sides.user;
        let object = self.sides.object;
        let w = attributes::width(user, i);
        if w != attributes::width(object, j) {
            blockwise::fill(stack, to, self.count, 0);
            return;
        }
        let a = attributes::start(user, i as usize);
        let c = attributes::start(object, j as usize);
        self.put_passing(w, a, c, exact, stack, to);
    }

    // Puts on a place where a comparison is true.
    fn put_compared(&self, c: Comparison, stack: &mut [u64], to: usize)
        requires { ((p : Policy) × AttributesOf p self.now.sides) × (to * self.now.count + self.now.count ≤ length stack.old) }
        ensures { Placed self.now.count to (λ b y. (p : Policy) (k : ℕ) (s : Sets) → AtLane p self.now b k s → has y k ≡ compares p s c) stack.old stack.new }
    {
        match c {
            Comparison::Dominates(i, j) => self.put_matched(i, j, false, stack, to),
            Comparison::Equals(i, j) => self.put_matched(i, j, true, stack, to),
        }
    }

    // One word at a stack whose top is place d, and where the top is then.
    fn work(&self, w: Word, stack: &mut [u64], d: usize) -> usize
        requires { ((p : Policy) × AttributesOf p self.now.sides) × (d < word_places) × (stack_places * self.now.count ≤ length stack.old) }
        ensures { let n = self.now.count in (result ≤ d + 1) × (length stack.new ≡ length stack.old) × ((b : ℕ) → b < n → (p : Policy) (k : ℕ) (s : Sets) → AtLane p self.now b k s → column (in_block stack.new n b) (result + 1) k ≡ step p s w (column (in_block stack.old n b) (d + 1) k)) }
    {
        let n = self.count;
        match w {
            Word::True => {
                blockwise::fill(stack, d + 1, n, ALL);
                d + 1
            }
            Word::False => {
                blockwise::fill(stack, d + 1, n, 0);
                d + 1
            }
            Word::Holds(h) => {
                self.put_held(h, stack, d + 1);
                d + 1
            }
            Word::Compares(c) => {
                self.put_compared(c, stack, d + 1);
                d + 1
            }
            Word::Not => {
                blockwise::negate(stack, d, n);
                d
            }
            Word::And => combine(stack, n, d, true),
            Word::Or => combine(stack, n, d, false),
        }
    }

    // Works out where the formula of a rule is true, and says on which place of the stack it is.
    pub fn where_true(&self, rule: RuleValue, stack: &mut [u64]) -> usize
        requires { ((p : Policy) × AttributesOf p self.now.sides) × (rule.count ≤ word_places) × (stack_places * self.now.count ≤ length stack.old) }
        ensures { let n = self.now.count in (result ≤ rule.count) × (length stack.new ≡ length stack.old) × ((b : ℕ) → b < n → (p : Policy) (k : ℕ) (s : Sets) → AtLane p self.now b k s → has (in_block stack.new n b result) k ≡ rule_true p rule s) }
    {
        blockwise::fill(stack, 0, self.count, 0);
        let mut d: usize = 0;
        for number in &rule.words[..rule.count] {
            d = self.work(Word::from(*number), stack, d);
        }
        d
    }
}
