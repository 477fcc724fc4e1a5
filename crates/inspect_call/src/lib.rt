// The check of a rule with nothing after it: the counts of a rule that passes, or the refusal.
#![tactic(auto)]

ghost use Rattle.promises.specs.Inspect.{InspectPromise};

use answer::Refused;
use promises::Inspected;
use rule_check::check;
use sections::zero;

// Checks a rule file and says how large the rule is, or why it is none. Scratch ends as zeros, but where it is too short.
pub fn inspect(rule: &[u8], scratch: &mut [u8]) -> Inspected
    ensures { InspectPromise rule.now scratch.old scratch.new result }
{
    match check(rule, 1, scratch) {
        Ok(shape) => {
            zero(scratch);
            Inspected::Rule {
                elements: shape.elements,
                letters: shape.letters,
                marks: shape.marks,
            }
        }
        Err(
            Refused {
                refusal,
                input,
                place,
            },
        ) => Inspected::Refused {
            refusal,
            input,
            place,
        },
    }
}
