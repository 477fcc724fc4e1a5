// Two checked rules and a map: both strengths decided, then what confirm_reduction judges of two strong rules. All stands in one lent slice.
#![tactic(auto)]

ghost use Rattle.confirm_strengths.specs.Steps.{FilesReady, CheckedPromise};

use answer::Refusal;
use confirm_reduction::reduces;
use promises::Confirmation;
use rule_layout::Shape;
use two_rules::{Strengths, decide_both};

// The strengths of two checked rules, and whether the bytes reduce the first to the second.
pub fn confirm_checked(
    first: &[u8],
    one: Shape,
    second: &[u8],
    two: Shape,
    map: &[u8],
    scratch: &mut [u8],
) -> Confirmation
    requires { FilesReady first.now second.now one two scratch.old }
    ensures { CheckedPromise first.now second.now map.now scratch.old scratch.new result }
{
    match decide_both(
        first,
        one.elements,
        one.letters,
        second,
        two.elements,
        two.letters,
        scratch,
    ) {
        Strengths::FirstWeak => {
            return Confirmation::Refused {
                refusal: Refusal::NotStrong,
                input: 1,
                place: 0,
            };
        }
        Strengths::SecondWeak => {
            return Confirmation::No;
        }
        Strengths::Strong => {}
    }
    if reduces(first, one, second, two, map, scratch) {
        return Confirmation::Yes;
    }
    Confirmation::No
}
