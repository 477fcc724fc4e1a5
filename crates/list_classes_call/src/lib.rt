// The classes of conjugate pairs of a rule: for each pair of elements the number of the least pair conjugate to it, and how
// many linked pairs, classes and joins there are. One pass over the factors x, y finds every conjugate: x·y = e and y·x = f
// make (s, e) conjugate to (s·x, f) for each s with s·e = s.
#![tactic(auto)]

ghost use Rattle.std.specs.Prelude.{◌*◌, ◌≤◌, length};
ghost use Rattle.theory.specs.Rules.{Lawful};
ghost use Rattle.formats.proofs.Tables.{Table};
ghost use Rattle.formats.specs.Table.{morphism_at};
ghost use Rattle.promises.specs.Classes.{classes_size, ClassesWritten, ListPromise};
ghost use Rattle.mark_class_numbers.specs.Cells.{CellCounts};

use answer::{Refusal, Refused};
use mark_class_numbers::{begin, load, lower_row};
use promises::{CLASSES_SIZE, Listed, NO_CLASS};
use rule_check::check;
use rule_marks::linked;
use sections::zero;

// Writes the class of every pair: once all x and y were tried, each number is the least of a conjugate.
pub fn write_classes(rule: &[u8], n: usize, k: usize, out: &mut [u8])
    requires table { Table rule.now n k }
    requires lawful { Lawful (morphism_at rule.now n k) }
    requires classes_size_in_bounds { classes_size ≤ length out.old }
    ensures { ClassesWritten (morphism_at rule.now n k) out.old out.new }
{
    begin(rule, n, k, out);
    // By number: elements are the numbers below n.
    for x in 0..n {
        lower_row(rule, n, k, out, x);
    }
}

// How many pairs have a class, and how many are the least of theirs.
#[derive(Drop)]
pub struct ClassNumbers {
    pub linked: usize,
    pub classes: usize,
}

// Counts the numbers of pairs that have a class, and those that are their own pair's.
fn count(out: &[u8], pairs: usize) -> ClassNumbers
    requires { (pairs ≤ 4096) × (2 * pairs ≤ length out.now) }
    ensures { CellCounts out.now pairs result.linked result.classes }
{
    let mut linked = 0;
    let mut classes = 0;
    // By number: the number of two bytes of a pair is compared with the pair's own.
    for i in 0..pairs {
        let number = load(out, 2 * i);
        if number != NO_CLASS {
            linked += 1;
            if number == i {
                classes += 1;
            }
        }
    }
    ClassNumbers { linked, classes }
}

// Checks a rule, writes its classes and counts them, or refuses it. Scratch ends as zeros, but where a buffer is too short.
pub fn list_classes(rule: &[u8], out: &mut [u8], scratch: &mut [u8]) -> Listed
    ensures { ListPromise rule.now out.old out.new scratch.old scratch.new result }
{
    if out.len() < CLASSES_SIZE {
        return Listed::Refused {
            refusal: Refusal::BufferTooShort,
            input: 1,
            place: 0,
        };
    }
    let shape = match check(rule, 1, scratch) {
        Ok(shape) => shape,
        Err(
            Refused {
                refusal,
                input,
                place,
            },
        ) => {
            return Listed::Refused {
                refusal,
                input,
                place,
            };
        }
    };
    zero(scratch);
    let n = shape.elements;
    let k = shape.letters;
    write_classes(rule, n, k, out);
    let found = count(out, n * n);
    let linked = found.linked;
    let classes = found.classes;
    Listed::Counts {
        linked,
        classes,
        joins: linked - classes,
    }
}
