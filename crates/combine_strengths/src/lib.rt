// Two checked rules: letter counts compared and both strengths decided, then what combine_pairs makes of two strong rules. All stands in one
// lent slice.
#![tactic(auto)]

ghost use Rattle.combine_pairs.specs.Steps.{PairsPromise};
ghost use Rattle.combine_strengths.specs.Steps.{BothReady};

use combine_pairs::combine_strong;
use promises::{Operation, Written};
use rule_layout::Shape;
use two_rules::compare_both;

// The checks behind those of the files, in their order, and the rule.
pub fn combine_checked(
    first: &[u8],
    one: Shape,
    second: &[u8],
    two: Shape,
    operation: Operation,
    scratch: &mut [u8],
    out: &mut [u8],
) -> Written
    requires { BothReady first.now second.now one two scratch.old out.old }
    ensures { PairsPromise first.now second.now operation out.old out.new scratch.old scratch.new result }
{
    match compare_both(first, one, second, two, scratch) {
        Err(refused) => Written::Refused {
            refusal: refused.refusal,
            input: refused.input,
            place: refused.place,
        },
        Ok(()) => combine_strong(first, one, second, two, operation, scratch, out),
    }
}
