// Whether a rule was reduced right elsewhere (document 02, Job 13): a rule, a reduced rule and a byte for each element of the first that names
// where it went. Nothing is believed of them: both files are checked, both strengths decided, and every sentence of the definition is tested
// on the bytes, as confirm_reduction does. All stands in one lent slice.
#![tactic(auto)]

ghost use Rattle.promises.specs.Confirm.{ConfirmPromise};

use answer::Refused;
use confirm_strengths::confirm_checked;
use promises::Confirmation;
use sections::zero;
use two_rules::check_both;

// Checks two rules and says whether the second is the first one reduced, by a map of its elements, or refuses them. Scratch ends as zeros, but
// where it is too short.
pub fn confirm(first: &[u8], second: &[u8], map: &[u8], scratch: &mut [u8]) -> Confirmation
    ensures { ConfirmPromise first.now second.now map.now scratch.old scratch.new result }
{
    match check_both(first, second, scratch) {
        Err(
            Refused {
                refusal,
                input,
                place,
            },
        ) => Confirmation::Refused {
            refusal,
            input,
            place,
        },
        Ok((one, two)) => {
            let answer = confirm_checked(first, one, second, two, map, scratch);
            zero(scratch);
            answer
        }
    }
}
