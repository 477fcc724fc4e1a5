// `until` of two strong rules over the same letters: the table of their pairs and their grades, and the rule of the classes of words, written from the closures
// of their marks; or too many pairs, or too many classes.
#![tactic(auto)]

ghost use Rattle.std.specs.Prelude.{◌≡◌};
ghost use Rattle.until_strong.specs.Steps.{formed_of, UntilReady, UntilOwn};

use answer::Refusal;
use pair_list::list_pairs;
use promises::Written;
use rule_layout::Shape;
use scratch::{PAIR_LEFTS_BASE, PAIR_NUMBERS_BASE};
use sections::zero_part;
use until_pairs::lay_table;
use until_rule::write_until;

// What was written as an answer of the call.
fn formed(file: Option<usize>) -> Written
    ensures { result ≡ formed_of file }
{
    match file {
        Some(length) => Written::Rule(length),
        None => Written::Refused {
            refusal: Refusal::TooManyClasses,
            input: 1,
            place: 0,
        },
    }
}

// Writes the rule, or refuses more than 64 pairs or classes.
pub fn until_of_strong(
    first: &[u8],
    one: Shape,
    second: &[u8],
    two: Shape,
    classes: &mut [u8],
    scratch: &mut [u8],
    out: &mut [u8],
) -> Written
    requires { UntilReady first.now second.now one two scratch.old classes.old out.old }
    ensures { UntilOwn first.now second.now out.old out.new classes.old classes.new scratch.old scratch.new result }
{
    zero_part(scratch, PAIR_NUMBERS_BASE, PAIR_LEFTS_BASE);
    let np = match list_pairs(
        first,
        one.elements,
        second,
        two.elements,
        one.letters,
        scratch,
    ) {
        Some(count) => count,
        None => {
            return Written::Refused {
                refusal: Refusal::TooManyPairs,
                input: 1,
                place: 0,
            };
        }
    };
    lay_table(
        first,
        one.elements,
        second,
        two.elements,
        one.letters,
        np,
        scratch,
    );
    let file = write_until(classes, scratch, np, one.letters, out);
    formed(file)
}
