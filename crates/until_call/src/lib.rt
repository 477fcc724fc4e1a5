// The call that makes the rule of `until` of two strong rules: the rule whose grade of a lasso is the highest, over the places of its endless word, of the
// lowest of the second's grade from there on and the first's from each place before.
#![tactic(auto)]

ghost use Rattle.temporal_promises.specs.Until.{UntilPromise};
ghost use Rattle.until_call.specs.Buffers.{LongBuffers, UntilLong};

use answer::{Refusal, Refused};
use formats::{RULE_SIZE, SCRATCH_SIZE};
use promises::Written;
use sections::zero;
use temporal_promises::UNTIL_CLASSES_SIZE;
use two_rules::check_both;
use until_strengths::until_checked;

// The answer where the buffers of the rule and of the classes are long enough. Scratch is left as every call leaves it.
fn until_long(
    first: &[u8],
    second: &[u8],
    out: &mut [u8],
    classes: &mut [u8],
    scratch: &mut [u8],
) -> Written
    requires { LongBuffers out.old classes.old }
    ensures { UntilLong first.now second.now out.old out.new classes.old classes.new scratch.old scratch.new result }
{
    match check_both(first, second, scratch) {
        Err(
            Refused {
                refusal,
                input,
                place,
            },
        ) => Written::Refused {
            refusal,
            input,
            place,
        },
        Ok((one, two)) => {
            let answer = until_checked(first, one, second, two, classes, scratch, out);
            zero(scratch);
            answer
        }
    }
}

// Checks two rules and writes the rule of `until`, or refuses them. Scratch and classes end as zeros, but where a buffer is too short.
pub fn until(
    first: &[u8],
    second: &[u8],
    out: &mut [u8],
    classes: &mut [u8],
    scratch: &mut [u8],
) -> Written
    ensures { UntilPromise first.now second.now out.old out.new classes.old classes.new scratch.old scratch.new result }
{
    if out.len() < RULE_SIZE {
        return Written::Refused {
            refusal: Refusal::BufferTooShort,
            input: 1,
            place: 0,
        };
    }
    if classes.len() < UNTIL_CLASSES_SIZE {
        return Written::Refused {
            refusal: Refusal::BufferTooShort,
            input: 1,
            place: 0,
        };
    }
    if scratch.len() < SCRATCH_SIZE {
        return Written::Refused {
            refusal: Refusal::BufferTooShort,
            input: 1,
            place: 0,
        };
    }
    let answer = until_long(first, second, out, classes, scratch);
    zero(classes);
    answer
}
