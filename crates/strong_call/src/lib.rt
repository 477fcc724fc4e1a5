// Whether a rule is strong: the call for the verdict alone.
#![tactic(auto)]

ghost use Rattle.promises.specs.Strong.{StrongPromise};

use answer::Refused;
use mark_strong::decide;
use promises::Strength;
use rule_check::check;
use sections::zero;

// Checks a rule and says whether it is strong. Scratch ends as zeros, but where it is too short.
pub fn strong(rule: &[u8], scratch: &mut [u8]) -> Strength
    ensures { StrongPromise rule.now scratch.old scratch.new result }
{
    let shape = match check(rule, 1, scratch) {
        Ok(shape) => shape,
        Err(
            Refused {
                refusal,
                input,
                place,
            },
        ) => {
            return Strength::Refused {
                refusal,
                input,
                place,
            };
        }
    };
    let strong = decide(rule, shape.elements, shape.letters, scratch);
    zero(scratch);
    if strong {
        return Strength::Strong;
    }
    Strength::Weak
}
