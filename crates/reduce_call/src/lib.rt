// Reduction of a strong rule: the elements that no context tells apart are put into one block, the blocks are numbered in the
// order of their first words, and the rule whose elements are the blocks is written, every linked pair marked with the grade of its
// lassos. The numbers of the elements' blocks are handed out as a map (document 02, Job 13). All stands in one lent slice, as
// reduce_table/specs/Layout says.
#![tactic(auto)]

ghost use Rattle.promises.specs.Reduce.{ReducePromise};

use answer::{Refusal, Refused};
use formats::RULE_SIZE;
use mark_strong::decide;
use promises::{MAP_SIZE, Written};
use reduce_output::write_reduced;
use rule_check::check;
use sections::zero;

// Checks a rule and writes its reduction, with the map of its elements to those of the reduction, or refuses it. Scratch ends as zeros, but
// where a buffer is too short.
pub fn reduce(rule: &[u8], out: &mut [u8], map: &mut [u8], scratch: &mut [u8]) -> Written
    ensures { ReducePromise rule.now out.old out.new map.old map.new scratch.old scratch.new result }
{
    if out.len() < RULE_SIZE {
        return Written::Refused {
            refusal: Refusal::BufferTooShort,
            input: 1,
            place: 0,
        };
    }
    if map.len() < MAP_SIZE {
        return Written::Refused {
            refusal: Refusal::BufferTooShort,
            input: 1,
            place: 0,
        };
    }
    let shape = match check(rule, 1, scratch) {
        Ok(shape) => shape,
        Err(
            Refused {
                refusal,
                input,
                place,
            },
        ) => {
            return Written::Refused {
                refusal,
                input,
                place,
            };
        }
    };
    let strong = decide(rule, shape.elements, shape.letters, scratch);
    if !strong {
        zero(scratch);
        return Written::Refused {
            refusal: Refusal::NotStrong,
            input: 1,
            place: 0,
        };
    }
    let length = write_reduced(rule, shape.elements, shape.letters, scratch, out, map);
    zero(scratch);
    Written::Rule(length)
}
