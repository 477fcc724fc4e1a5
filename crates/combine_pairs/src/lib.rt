// Two strong rules over the same letters made one: the rule of the pairs of values that non-empty words reach, written from the closures of
// their marks, or too many pairs. All stands in one lent slice, as pair_table/specs/Layout says.
#![tactic(auto)]

ghost use Rattle.combine_pairs.specs.Steps.{StrongReady, PairsPromise};

use answer::Refusal;
use pair_list::list_pairs;
use pair_rule::write_pairs;
use promises::{Operation, Written};
use rule_layout::Shape;
use scratch::{PAIR_LEFTS_BASE, PAIR_NUMBERS_BASE};
use sections::zero_part;

// Writes the rule of the pairs of two strong rules, from the closures of their marks in scratch, or refuses more than 64 pairs.
pub fn combine_strong(
    first: &[u8],
    one: Shape,
    second: &[u8],
    two: Shape,
    operation: Operation,
    scratch: &mut [u8],
    out: &mut [u8],
) -> Written
    requires { StrongReady first.now second.now one two scratch.old out.old }
    ensures { PairsPromise first.now second.now operation out.old out.new scratch.old scratch.new result }
{
    zero_part(scratch, PAIR_NUMBERS_BASE, PAIR_LEFTS_BASE);
    let count = match list_pairs(
        first,
        one.elements,
        second,
        two.elements,
        one.letters,
        scratch,
    ) {
        Some(count) => count,
        None => {
            return Written::Refused {
                refusal: Refusal::TooManyPairs,
                input: 1,
                place: 0,
            };
        }
    };
    let length = write_pairs(
        first,
        one.elements,
        second,
        two.elements,
        one.letters,
        count,
        operation,
        scratch,
        out,
    );
    Written::Rule(length)
}
