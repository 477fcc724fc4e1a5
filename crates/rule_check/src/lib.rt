// The rule file: every check of document 01, in its order. The bytes are read where they are lent; a checked rule leaves its
// marks in scratch, a byte for each pair.
#![tactic(auto)]

ghost use Rattle.std.specs.Prelude.{◌≡◌, ◌≤◌, length, drop};
ghost use Rattle.formats.specs.Table.{morphism_at};
ghost use Rattle.formats.proofs.Tables.{AllAssociate, Table};
ghost use Rattle.formats.specs.RuleChecks.{table_checks, content_checks};
ghost use Rattle.rule_layout.specs.Answers.{LayoutPassed};
ghost use Rattle.rule_marks.specs.Faults.{FaultAnswer};
ghost use Rattle.scratch.specs.Map.{mark_table_size};
ghost use Rattle.rule_check.specs.Answers.{reach_checks, BlankMarks, ContentAnswer, RuleVerdict, CheckPromise};

use answer::{Fault, Refusal, Refused};
use formats::SCRATCH_SIZE;
use rule_associating::associates;
use rule_layout::{Shape, read_layout};
use rule_marks::mark_fault;
use rule_reach::{least_without, reach};
use rule_table::first_not_associative;
use scratch::MARK_TABLE_SIZE;
use sections::{zero, zero_part};

// The first triple that does not associate, and without one what words tell of a table that associates.
fn triples_fault(rule: &[u8], n: usize, k: usize, told: Result<(), Fault>) -> Result<(), Fault>
    requires table { Table rule.now n k }
    requires fault_answer { AllAssociate (morphism_at rule.now n k) → FaultAnswer (λ input. reach_checks input (morphism_at rule.now n k)) told }
    ensures { FaultAnswer (λ input. table_checks input (morphism_at rule.now n k)) result }
{
    match first_not_associative(rule, n, k) {
        Some((a, b, c)) => Err(Fault {
            refusal: Refusal::NotAssociative,
            place: a * 4096 + b * 64 + c,
        }),
        None => told,
    }
}

// Whether the table associates, and then whether every element is some word's value. Where words find every element, tests with letters
// mostly tell that it associates; the triples are looked at where they do not.
fn table_fault(rule: &[u8], n: usize, k: usize) -> Result<(), Fault>
    requires { Table rule.now n k }
    ensures { FaultAnswer (λ input. table_checks input (morphism_at rule.now n k)) result }
{
    let mut queue = [0u8; 256];
    let count = reach(rule, n, k, &mut queue);
    match least_without(&queue, n) {
        Some(s) => {
            let told = Err(Fault {
                refusal: Refusal::Unreachable,
                place: s,
            });
            return triples_fault(rule, n, k, told);
        }
        None => {}
    }
    if associates(rule, n, k, &queue, count) {
        return Ok(());
    }
    triples_fault(rule, n, k, Ok(()))
}

// What follows the last section of an input.
pub fn rest_after(bytes: &[u8], end: usize) -> &[u8]
    requires { end ≤ length bytes.now }
    ensures { result.now ≡ drop end bytes.now }
{
    &bytes[end..]
}

// The checks of a file whose sections are there: nothing follows, the table, the marks.
fn content_fault(rule: &[u8], shape: Shape, scratch: &mut [u8]) -> Result<(), Fault>
    requires layout_passed { LayoutPassed rule.now shape }
    requires blank_marks { BlankMarks scratch.old }
    ensures refusal { FaultAnswer (λ input. content_checks input rule.now) result }
    ensures marks { ContentAnswer rule.now scratch.old scratch.new result }
{
    let n = shape.elements;
    let k = shape.letters;
    let count = shape.marks;
    let marks_at = 1 + n * n + (1 + k);
    let end = marks_at + (2 + 3 * count);
    let rest = rest_after(rule, end);
    if 0 < rest.len() {
        return Err(Fault {
            refusal: Refusal::TrailingBytes,
            place: end,
        });
    }
    table_fault(rule, n, k)?;
    mark_fault(rule, n, k, rule, marks_at, count, scratch)
}

// The rule's own checks, as the input of the given number: its counts, or the first check that fails. A rule that passes leaves its
// marks in the first 4096 bytes, a byte for each pair; the bytes behind them are kept, so that a second rule can be checked in a part of
// its own.
pub fn check_rule(rule: &[u8], input: usize, scratch: &mut [u8]) -> Result<Shape, Refused>
    requires { mark_table_size ≤ length scratch.old }
    ensures { RuleVerdict input rule.now scratch.old scratch.new result }
{
    zero_part(scratch, 0, MARK_TABLE_SIZE);
    let shape = match read_layout(rule) {
        Ok(shape) => shape,
        Err(fault) => {
            return Err(fault.in_input(input));
        }
    };
    match content_fault(rule, shape, scratch) {
        Ok(()) => Ok(shape),
        Err(fault) => Err(fault.in_input(input)),
    }
}

// Every check of a rule file that is the input of the given number, the size of scratch first. A refusal leaves zeros, but where
// scratch is too short; a checked rule leaves its marks in the first 4096 bytes and the others as they were.
pub fn check(rule: &[u8], input: usize, scratch: &mut [u8]) -> Result<Shape, Refused>
    ensures { CheckPromise input rule.now scratch.old scratch.new result }
{
    if scratch.len() < SCRATCH_SIZE {
        return Err(Refused {
            refusal: Refusal::BufferTooShort,
            input: 1,
            place: 0,
        });
    }
    match check_rule(rule, input, scratch) {
        Ok(shape) => Ok(shape),
        Err(refused) => {
            zero(scratch);
            Err(refused)
        }
    }
}
