// Two strong rules over the same letters made one: the rule whose elements are the pairs of values that non-empty words reach, numbered in
// the order of their first words, every linked pair marked with the grade combined from those of its halves. All stands in one lent slice,
// as pair_table/specs/Layout says.
#![tactic(auto)]

ghost use Rattle.promises.specs.Combine.{CombinePromise};

use answer::{Refusal, Refused};
use combine_strengths::combine_checked;
use formats::RULE_SIZE;
use promises::{Operation, Written};
use sections::zero;
use two_rules::check_both;

// Checks two rules and writes the rule that the operation makes of them, or refuses them. Scratch ends as zeros, but where a buffer is too
// short.
pub fn combine(
    first: &[u8],
    second: &[u8],
    operation: Operation,
    out: &mut [u8],
    scratch: &mut [u8],
) -> Written
    ensures { CombinePromise first.now second.now operation out.old out.new scratch.old scratch.new result }
{
    if out.len() < RULE_SIZE {
        return Written::Refused {
            refusal: Refusal::BufferTooShort,
            input: 1,
            place: 0,
        };
    }
    match check_both(first, second, scratch) {
        Err(
            Refused {
                refusal,
                input,
                place,
            },
        ) => Written::Refused {
            refusal,
            input,
            place,
        },
        Ok((one, two)) => {
            let answer = combine_checked(first, one, second, two, operation, scratch, out);
            zero(scratch);
            answer
        }
    }
}
