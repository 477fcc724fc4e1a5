// Two checked rules: letter counts compared and both strengths decided, then what until_strong makes of two strong rules.
#![tactic(auto)]

ghost use Rattle.until_strong.specs.Steps.{UntilOwn};
ghost use Rattle.until_strengths.specs.Steps.{BothReady};

use promises::Written;
use rule_layout::Shape;
use two_rules::compare_both;
use until_strong::until_of_strong;

// The checks behind those of the files, in their order, and the rule.
pub fn until_checked(
    first: &[u8],
    one: Shape,
    second: &[u8],
    two: Shape,
    classes: &mut [u8],
    scratch: &mut [u8],
    out: &mut [u8],
) -> Written
    requires { BothReady first.now second.now one two scratch.old classes.old out.old }
    ensures { UntilOwn first.now second.now out.old out.new classes.old classes.new scratch.old scratch.new result }
{
    match compare_both(first, one, second, two, scratch) {
        Err(refused) => Written::Refused {
            refusal: refused.refusal,
            input: refused.input,
            place: refused.place,
        },
        Ok(()) => until_of_strong(first, one, second, two, classes, scratch, out),
    }
}
