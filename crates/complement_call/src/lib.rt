// The complement of a strong rule: same elements and numbering; each linked pair is marked with 3 less its grade in the closure of the
// rule's marks.
#![tactic(auto)]

ghost use Rattle.formats.proofs.Tables.{Table};
ghost use Rattle.formats.specs.Table.{morphism_at};
ghost use Rattle.formats.specs.Front.{AtFront};
ghost use Rattle.complement_call.specs.Promise.{WriteNeeds, second_file};
ghost use Rattle.promises.specs.Complement.{ComplementPromise};

use answer::{Refusal, Refused};
use formats::RULE_SIZE;
use mark_complement_marks::complement_marks;
use mark_strong::decide;
use promises::Written;
use rule_check::check;
use rule_writer::write_rule;
use scratch::SECOND_BASE;
use sections::zero;

// Writes the rule with the marks of the second table, and answers how many bytes it has.
fn write_marked(rule: &[u8], n: usize, k: usize, scratch: &[u8], out: &mut [u8]) -> usize
    requires table { Table rule.now n k }
    requires write_needs { WriteNeeds k scratch.now out.old }
    ensures { AtFront (second_file (morphism_at rule.now n k) scratch.now) out.old out.new result }
{
    let table = &rule[1..];
    let images = &rule[2 + n * n..];
    let marks = &scratch[SECOND_BASE..];
    write_rule(table, images, marks, n, k, out)
}

// Checks a rule and writes its complement, or refuses it. Scratch ends as zeros, but where a buffer is too short.
pub fn complement(rule: &[u8], out: &mut [u8], scratch: &mut [u8]) -> Written
    ensures { ComplementPromise rule.now out.old out.new scratch.old scratch.new result }
{
    if out.len() < RULE_SIZE {
        return Written::Refused {
            refusal: Refusal::BufferTooShort,
            input: 1,
            place: 0,
        };
    }
    let shape = match check(rule, 1, scratch) {
        Ok(shape) => shape,
        Err(
            Refused {
                refusal,
                input,
                place,
            },
        ) => {
            return Written::Refused {
                refusal,
                input,
                place,
            };
        }
    };
    let n = shape.elements;
    let k = shape.letters;
    let strong = decide(rule, n, k, scratch);
    if !strong {
        zero(scratch);
        return Written::Refused {
            refusal: Refusal::NotStrong,
            input: 1,
            place: 0,
        };
    }
    complement_marks(rule, n, k, scratch);
    let length = write_marked(rule, n, k, scratch, out);
    zero(scratch);
    Written::Rule(length)
}
