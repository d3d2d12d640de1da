// The words of a rule, by their numbers, against both sides and against the stack.
ghost use Rattle.std.specs.Prelude.{◌≡◌, ◌+◌, ◌^◌, ◌<◌, ◌&&◌, map};
ghost use Rattle.basis.specs.Lists.{all};
ghost use Rattle.words.specs.Word.{numbered};
ghost use Rattle.policy.specs.Checks as checks;
ghost use Rattle.checks.specs.Inner.{both_in, after};

use crate::shape::Shapes;
use words::{Comparison, Holding, Word};

impl Shapes {
    // Check 6 of a word.
    fn word_fits(&self, word: Word) -> bool
        ensures { result ≡ checks.word_fits (both_in self.now) word }
    {
        match word {
            Word::Holds(Holding::User(v)) => u32::from(v) < self.user.total,
            Word::Holds(Holding::Object(v)) => u32::from(v) < self.object.total,
            Word::Compares(Comparison::Dominates(i, j) | Comparison::Equals(i, j)) => {
                usize::from(i) < self.user.attributes && usize::from(j) < self.object.attributes
            }
            Word::True | Word::False | Word::Not | Word::And | Word::Or => true,
        }
    }

    // Check 8 of a word.
    fn widths_equal(&self, word: Word) -> bool
        ensures { result ≡ checks.widths_equal (both_in self.now) word }
    {
        match word {
            Word::Compares(Comparison::Dominates(i, j) | Comparison::Equals(i, j)) => {
                self.user.width(i) == self.object.width(j)
            }
            Word::True | Word::False | Word::Holds(_) | Word::Not | Word::And | Word::Or => true,
        }
    }

    fn word_sound(&self, word: Word) -> bool
        ensures { result ≡ (checks.word_fits (both_in self.now) word && checks.widths_equal (both_in self.now) word) }
    {
        self.word_fits(word) && self.widths_equal(word)
    }

    // Check 6 of some words. This and the next are two chains of one line: one function of a test would be no shorter.
    pub fn words_fit(&self, words: &[u8]) -> bool
        ensures { result ≡ all (checks.word_fits (both_in self.now)) (map numbered words.now) }
    {
        words.iter().all(|n| self.word_fits(Word::from(*n)))
    }

    // Check 8 of some words.
    pub fn all_widths_equal(&self, words: &[u8]) -> bool
        ensures { result ≡ all (checks.widths_equal (both_in self.now)) (map numbered words.now) }
    {
        words.iter().all(|n| self.widths_equal(Word::from(*n)))
    }

    // Checks 6, 8 and 9 of some words in one pass, for check 11, which does not tell which of them is broken.
    pub fn words_sound(&self, words: &[u8]) -> bool
        ensures { let ws = map numbered words.now in result ≡ (all (checks.word_fits (both_in self.now)) ws && (all (checks.widths_equal (both_in self.now)) ws && checks.balanced 0 ws)) }
    {
        let mut depth = 0;
        for n in words {
            let word = Word::from(*n);
            if !self.word_sound(word) {
                return false;
            }
            let Some(next) = after(depth, word) else {
                return false;
            };
            depth = next;
        }
        depth == 1
    }
}

// How many truth values a word takes off the stack; each puts one on it.
fn takes(word: Word) -> usize
    ensures { result ≡ checks.takes word }
{
    match word {
        Word::True | Word::False | Word::Holds(_) | Word::Compares(_) => 0,
        Word::Not => 1,
        Word::And | Word::Or => 2,
    }
}

// How many truth values are on a stack of `depth` after a word; none where the word finds too few.
fn after(depth: usize, word: Word) -> Option<usize>
    requires { depth + 1 < 2 ^ 64 }
    ensures { result ≡ after depth word }
{
    Some(depth.checked_sub(takes(word))? + 1)
}

// Check 9 of some words.
pub fn balanced(words: &[u8]) -> bool
    ensures { result ≡ checks.balanced 0 (map numbered words.now) }
{
    let mut depth = 0;
    for n in words {
        let Some(next) = after(depth, Word::from(*n)) else {
            return false;
        };
        depth = next;
    }
    depth == 1
}
