// The lists of a policy value.
ghost use Rattle.std.specs.Prelude.{◌≡◌, ◌&&◌, ◌≤◌, Bool, leb, length, take, drop, None};
ghost use Rattle.std.specs.Fn.{FnReturnsAt};
ghost use Rattle.basis.specs.Lists.{all};
ghost use Rattle.policy.specs.Limits.{most_values};
ghost use Rattle.policy.specs.Value.{word_places, no_rule, rule_of};
ghost use Rattle.policy.specs.Valid.{same_rule};
ghost use Rattle.policy.specs.Inner.Sound.{rising, rule_sound};
ghost use Rattle.checks.specs.Inner.{both_in};
ghost use Rattle.validity.specs.Inner.{register_valid, conflicts_valid, rule_valid, rules_valid, pairs_valid};

use crate::behind::all_blank;
use checks::rising::Rising;
use checks::shape::{Shape, Shapes};
use policy::value::{Conflicts, Entry, Pairs, Register, RuleValue, Rules, WORD_PLACES};

// Check 11 of a list: no more elements than places, each fits and rises, and nothing is behind the last. What is blank is
// told by one test and not by `==`, which tests field by field, so that several places can be looked at at once.
pub fn list_valid<T: Rising, F: Fn(&T) -> bool, B: Fn(&T) -> bool>(
    places: &[T],
    count: usize,
    fits: F,
    is_blank: B,
) -> bool
    requires fits { F.IsAlwaysCallable fits }
    requires blank { B.IsAlwaysCallable is_blank }
    ensures { (f b : T → Bool)
        → ((x : T) (r : Bool) → FnReturnsAt F.Fn fits x r → r ≡ f x)
        → ((x : T) (r : Bool) → FnReturnsAt B.Fn is_blank x r → r ≡ b x)
        → result ≡ (leb count (length places.now) && (all b (drop count places.now) && rising f T.above None (take count places.now))) }
{
    if places.len() < count {
        return false;
    }
    let mut before = None;
    for x in &places[..count] {
        if !fits(x) || !x.rises(before) {
            return false;
        }
        before = Some(x);
    }
    all_blank(&places[count..], is_blank)
}

// The registered users or objects, for their side, where there are so many numbers.
pub fn register_valid(numbers: u32, side: &Shape, x: &Register) -> bool
    requires { side.now.total ≤ most_values }
    ensures { result ≡ register_valid numbers side.now.total x.now }
{
    let fits = |e: &Entry| side.entry_fits(numbers, e);
    list_valid(&x.entries, x.count, fits, |e| (e.number | e.set) == 0)
}

pub fn conflicts_valid(user: &Shape, x: &Conflicts) -> bool
    requires { user.now.total ≤ most_values }
    ensures { result ≡ conflicts_valid user.now.total x.now }
{
    list_valid(
        &x.entries,
        x.count,
        |c| user.conflict_fits(c),
        |c| (c.set | c.most) == 0,
    )
}

// A rule's checks, but that it rises.
fn rule_sound(actions: u32, shapes: &Shapes, x: &RuleValue) -> bool
    requires { x.now.count ≤ word_places }
    ensures { result ≡ rule_sound actions (both_in shapes.now) (rule_of x.now) }
{
    x.action < actions && shapes.words_sound(&x.words[..x.count])
}

// No more words than there are places, a sound rule, and nothing behind the last word.
fn rule_valid(actions: u32, shapes: &Shapes, x: &RuleValue) -> bool
    requires { (shapes.now.user.total ≤ most_values) × (shapes.now.object.total ≤ most_values) }
    ensures { result ≡ rule_valid actions (both_in shapes.now) x.now }
{
    if WORD_PLACES < x.count {
        return false;
    }
    rule_sound(actions, shapes, x) && all_blank(&x.words[x.count..], |w| *w == 0)
}

// By `all_blank` and not by `==`, which stops at the first word that differs.
fn no_rule(x: &RuleValue) -> bool
    ensures { result ≡ same_rule no_rule x.now }
{
    x.action == 0 && x.count == 0 && all_blank(&x.words, |w| *w == 0)
}

pub fn rules_valid(actions: u32, shapes: &Shapes, x: &Rules) -> bool
    requires { (shapes.now.user.total ≤ most_values) × (shapes.now.object.total ≤ most_values) }
    ensures { result ≡ rules_valid actions (both_in shapes.now) x.now }
{
    list_valid(
        &x.entries,
        x.count,
        |r| rule_valid(actions, shapes, r),
        no_rule,
    )
}

pub fn pairs_valid(actions: u32, shapes: &Shapes, x: &Pairs) -> bool
    ensures { result ≡ pairs_valid actions (both_in shapes.now) x.now }
{
    list_valid(
        &x.entries,
        x.count,
        |p| shapes.pair_fits(actions, p),
        |p| (p.action | p.user | p.object) == 0,
    )
}
