// `next` of a strong rule: the rule that gives each lasso the grade of its endless word without the first letter. All stands in one lent slice, as
// next_rule says.
#![tactic(auto)]

ghost use Rattle.std.specs.Prelude.{◌≡◌};
ghost use Rattle.next_call.specs.Answers.{formed_of};
ghost use Rattle.temporal_promises.specs.Next.{NextPromise};

use answer::{Refusal, Refused};
use formats::RULE_SIZE;
use mark_strong::decide;
use next_rule::write_next;
use promises::Written;
use rule_check::check;
use sections::zero;

// What was written as an answer of the call.
fn formed(file: Option<usize>) -> Written
    ensures { result ≡ formed_of file }
{
    match file {
        Some(length) => Written::Rule(length),
        None => Written::Refused {
            refusal: Refusal::TooManyClasses,
            input: 1,
            place: 0,
        },
    }
}

// Checks a rule and writes the rule of `next`, or refuses it. Scratch ends as zeros, but where a buffer is too short.
pub fn next(rule: &[u8], out: &mut [u8], scratch: &mut [u8]) -> Written
    ensures { NextPromise rule.now out.old out.new scratch.old scratch.new result }
{
    if out.len() < RULE_SIZE {
        return Written::Refused {
            refusal: Refusal::BufferTooShort,
            input: 1,
            place: 0,
        };
    }
    let shape = match check(rule, 1, scratch) {
        Ok(shape) => shape,
        Err(
            Refused {
                refusal,
                input,
                place,
            },
        ) => {
            return Written::Refused {
                refusal,
                input,
                place,
            };
        }
    };
    let strong = decide(rule, shape.elements, shape.letters, scratch);
    if !strong {
        zero(scratch);
        return Written::Refused {
            refusal: Refusal::NotStrong,
            input: 1,
            place: 0,
        };
    }
    let file = write_next(rule, shape.elements, shape.letters, scratch, out);
    zero(scratch);
    formed(file)
}
