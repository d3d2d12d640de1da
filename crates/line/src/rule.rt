// A rule line after its action: refusals 5 to 9.
ghost use Rattle.std.specs.Prelude.{◌≡◌, true, ◌≤◌, length, drop};
ghost use Rattle.text.specs.Parts.{fields};
ghost use Rattle.text.specs.declared.kind.Kind.TheVariants as kind;
ghost use Rattle.text.specs.declared.kind.Layout.TheVariants as layout;
ghost use Rattle.policy.specs.Line.{one_number, count_fits};
ghost use Rattle.policy.specs.Checks.{in_range};
ghost use Rattle.policy.specs.Value.{word_places, rule_of};
ghost use Rattle.checks.specs.Inner.{both_in};
ghost use Rattle.line.specs.Inner.Rule.{rule_in, formula_tested, rule_tested, admitted_rule};

use checks::shape::Shapes;
use policy::refusal::Refusal;
use policy::value::{RuleValue, WORD_PLACES};

// The rule of the words from `from` to the line's end.
fn words(action: u32, line: &[u8], from: usize) -> Result<RuleValue, Refusal>
    requires { (from ≤ length line.now) × (length (fields (drop from line.now)) ≤ word_places) }
    ensures { result ≡ rule_in action (fields (drop from line.now)) }
{
    let mut words = [0; WORD_PLACES];
    let mut count = 0;
    let mut at = from;
    // No `for`: a word ends where the next comma is found, and what follows the last one decides.
    loop {
        let end = text::parts::find(line, at, b',');
        let word = words::parse(&line[at..end]).ok_or(Refusal::MalformedField)?;
        words[count] = word.number();
        count += 1;
        if end == line.len() {
            return Ok(RuleValue {
                action,
                count,
                words,
            });
        }
        at = end + 1;
    }
}

fn parse(action: u32, line: &[u8]) -> Result<RuleValue, Refusal>
    requires { count_fits layout.Formula (length (fields line.now)) ≡ true }
    ensures { result ≡ rule_in action (drop 2 (fields line.now)) }
{
    let c = text::parts::find(line, 0, b',');
    let b = text::parts::find(line, c + 1, b',');
    words(action, line, b + 1)
}

fn in_range(form: u32, shapes: &Shapes, rule: &RuleValue) -> bool
    requires { rule.now.count ≤ word_places }
    ensures { result ≡ in_range kind.Rule form (both_in shapes.now) (one_number rule.now.action) (rule_of rule.now).words }
{
    rule.action < policy::limits::actions(form) && shapes.words_fit(&rule.words[..rule.count])
}

fn formula(shapes: &Shapes, rule: &RuleValue) -> Result<(), Refusal>
    requires { rule.now.count ≤ word_places }
    ensures { result ≡ formula_tested (both_in shapes.now) (rule_of rule.now) }
{
    let words = &rule.words[..rule.count];
    if !shapes.all_widths_equal(words) {
        return Err(Refusal::UnequalWidths);
    }
    if !checks::formula::balanced(words) {
        return Err(Refusal::UnbalancedFormula);
    }
    Ok(())
}

fn check(least: u32, form: u32, shapes: &Shapes, rule: &RuleValue) -> Result<(), Refusal>
    requires { rule.now.count ≤ word_places }
    ensures { result ≡ rule_tested least form (both_in shapes.now) (rule_of rule.now) }
{
    if !in_range(form, shapes, rule) {
        return Err(Refusal::OutOfRange);
    }
    if rule.action < least {
        return Err(Refusal::NotRising);
    }
    formula(shapes, rule)
}

// The rule of a line, or what the line breaks; `least` is the least action that rises above the rule before.
pub fn admit(
    action: u32,
    line: &[u8],
    least: u32,
    form: u32,
    shapes: &Shapes,
) -> Result<RuleValue, Refusal>
    requires { count_fits layout.Formula (length (fields line.now)) ≡ true }
    ensures { result ≡ admitted_rule least form (both_in shapes.now) action (fields line.now) }
{
    let rule = parse(action, line)?;
    check(least, form, shapes, &rule)?;
    Ok(rule)
}
