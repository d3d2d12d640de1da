// Answers as they cross: 0 denied, 1 granted, 2 done, or the refusal's number.
ghost use Rattle.std.specs.Prelude.{◌≡◌};
ghost use Rattle.policy.specs.Read.{Outcome};
ghost use Rattle.policy.specs.Answers.{reply_number, answer_of, ReadAs};
ghost use Rattle.formula.specs.Decide as formula;
ghost use Rattle.board.specs.Board as board;
ghost use Rattle.embed.specs.Answers as spec;

use crate::crossed::{Counted, CrossedCounts, CrossedReading, CrossedStep, Separation};
use board::Step;
use formula::Decision;
use labels::{Counts, Witness};
use policy::refusal::Refusal;
use policy::value::{PolicyValue, Rejection};

// What reading answers: beside a refusal stand its line and the blank value.
impl From<Result<PolicyValue, Rejection>> for CrossedReading {
    ghost from_gives = { λ read crossed. (o : Outcome) → ReadAs o read → crossed ≡ spec.crossed_reading o };

    fn from(read: Result<PolicyValue, Rejection>) -> CrossedReading {
        match read {
            Ok(policy) => CrossedReading {
                refusal: 0,
                line: 0,
                policy,
            },
            Err(why) => CrossedReading {
                refusal: u32::from(why.refusal),
                line: why.line,
                policy: policy::value::blank(),
            },
        }
    }
}

// The number of a decision. No `From`, since neither type is of this crate.
pub fn decision(decided: Result<Decision, Refusal>) -> u32
    ensures { result ≡ reply_number (formula.reply_of decided) }
{
    match decided {
        Ok(Decision::Granted) => 1,
        Ok(Decision::Denied) => 0,
        Err(why) => u32::from(why),
    }
}

// A step of the board, with its answer as a number.
impl From<Step> for CrossedStep {
    ghost from_gives = { λ step crossed. crossed ≡ spec.crossed_step (board.out_of step) };

    fn from(step: Step) -> CrossedStep {
        CrossedStep {
            answer: board::number_of(step.answer),
            board: step.board,
        }
    }
}

// What writing and listing answer.
impl From<Result<usize, Refusal>> for Counted {
    ghost from_gives = { λ stored crossed. crossed ≡ spec.counted (answer_of stored) };

    fn from(stored: Result<usize, Refusal>) -> Counted {
        match stored {
            Ok(count) => Counted { refusal: 0, count },
            Err(why) => Counted {
                refusal: u32::from(why),
                count: 0,
            },
        }
    }
}

// What compiling answers.
impl From<Result<Counts, Refusal>> for CrossedCounts {
    ghost from_gives = { λ compiled crossed. crossed ≡ spec.crossed_counts (answer_of compiled) };

    fn from(compiled: Result<Counts, Refusal>) -> CrossedCounts {
        match compiled {
            Ok(counts) => CrossedCounts {
                refusal: 0,
                users: counts.users,
                objects: counts.objects,
            },
            Err(why) => CrossedCounts {
                refusal: u32::from(why),
                users: 0,
                objects: 0,
            },
        }
    }
}

// What Apart answers.
impl From<Result<Option<Witness>, Refusal>> for Separation {
    ghost from_gives = { λ told crossed. crossed ≡ spec.separation told };

    fn from(told: Result<Option<Witness>, Refusal>) -> Separation {
        match told {
            Ok(None) => Separation {
                answer: 0,
                action: 0,
                object: 0,
            },
            Ok(Some(witness)) => Separation {
                answer: 1,
                action: witness.action,
                object: witness.object,
            },
            Err(why) => Separation {
                answer: u32::from(why),
                action: 0,
                object: 0,
            },
        }
    }
}
