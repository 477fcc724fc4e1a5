// A rule summed up in numbers: how large it is, its linked pairs and classes, whether it is strong, and how large its reduction
// is. Three calls in a row, on a rule that the first of them has checked; the lent work buffer holds what the others write.
#![tactic(auto)]

ghost use Rattle.promises.specs.Inspect.{RuleCounts};
ghost use Rattle.promises.specs.Summary.{SummaryPromise};
ghost use Rattle.summarize_call.specs.Steps.{CheckedNeeds, SizeFound, Measured};

use answer::Refusal;
use formats::RULE_SIZE;
use inspect_call::inspect;
use list_classes_call::list_classes;
use promises::{Inspected, Listed, MAP_SIZE, Summary, Written};
use reduce_call::reduce;
use sections::zero;

// Whether a rule is strong, and how many elements its reduction has, 0 where it is weak.
#[derive(Drop)]
struct ReducedSize {
    strong: bool,
    reduced: usize,
}

// Reduces a checked rule: the reduction's file begins with its number of elements, and only a weak rule is refused. Nobody asks for the map
// here, so it goes to bytes of this function's own.
fn reduced_size(rule: &[u8], work: &mut [u8], scratch: &mut [u8]) -> ReducedSize
    requires { CheckedNeeds rule.now work.old scratch.old }
    ensures { SizeFound rule.now scratch.old scratch.new result.strong result.reduced }
{
    let mut map = [0u8; MAP_SIZE];
    match reduce(rule, work, &mut map, scratch) {
        Written::Rule(_) => ReducedSize {
            strong: true,
            reduced: work[0] as usize,
        },
        Written::Refused {
            refusal: _,
            input: _,
            place: _,
        } => ReducedSize {
            strong: false,
            reduced: 0,
        },
    }
}

// The summary of a checked rule with these counts. Its classes are not refused; the case is there because the call has it.
fn measure(
    rule: &[u8],
    elements: usize,
    letters: usize,
    marks: usize,
    work: &mut [u8],
    scratch: &mut [u8],
) -> Summary
    requires checked_needs { CheckedNeeds rule.now work.old scratch.old }
    requires rule_counts { RuleCounts rule.now elements letters marks }
    ensures { Measured rule.now work.old work.new scratch.old scratch.new result }
{
    match list_classes(rule, work, scratch) {
        Listed::Counts {
            linked,
            classes,
            joins: _,
        } => {
            let size = reduced_size(rule, work, scratch);
            zero(work);
            Summary::Counts {
                elements,
                letters,
                marks,
                linked,
                classes,
                strong: size.strong,
                reduced: size.reduced,
            }
        }
        Listed::Refused {
            refusal,
            input,
            place,
        } => Summary::Refused {
            refusal,
            input,
            place,
        },
    }
}

// Checks a rule and sums it up, or refuses it; a weak rule is not refused. Work ends as zeros, but after a refusal as it came, and
// scratch as zeros, but where a buffer is too short.
pub fn summarize(rule: &[u8], work: &mut [u8], scratch: &mut [u8]) -> Summary
    ensures { SummaryPromise rule.now work.old work.new scratch.old scratch.new result }
{
    if work.len() < RULE_SIZE {
        return Summary::Refused {
            refusal: Refusal::BufferTooShort,
            input: 1,
            place: 0,
        };
    }
    match inspect(rule, scratch) {
        Inspected::Rule {
            elements,
            letters,
            marks,
        } => measure(rule, elements, letters, marks, work, scratch),
        Inspected::Refused {
            refusal,
            input,
            place,
        } => Summary::Refused {
            refusal,
            input,
            place,
        },
    }
}
