// Whether no lasso is graded higher by a rule than by a second marking of its table; if one is, such a lasso is written. Weak markings are
// compared like others.
#![tactic(auto)]

ghost use Rattle.std.specs.Prelude.{◌≡◌, ◌≤◌, length};
ghost use Rattle.formats.proofs.Tables.{Table};
ghost use Rattle.formats.specs.RuleFile.{elements_of, letters_of};
ghost use Rattle.formats.specs.RuleChecks.{scratch_size, second_marks_checks};
ghost use Rattle.rule_marks.specs.Faults.{FaultAnswer};
ghost use Rattle.included_call.specs.Laying.{LaidAnswer};
ghost use Rattle.promises.specs.Inclusion.{InclusionPromise};

use answer::{Fault, Refusal, Refused};
use mark_comparison::compare;
use promises::{CYCLE_SIZE, Inclusion, START_SIZE};
use rule_check::check;
use rule_second_marks::second_marks;
use scratch::{SECOND_BASE, TABLES_END};
use sections::{zero, zero_part};

// Checks the second marks and lays them out behind the first.
fn lay_second(
    rule: &[u8],
    n: usize,
    k: usize,
    second: &[u8],
    scratch: &mut [u8],
) -> Result<(), Fault>
    requires table { Table rule.now n k }
    requires n_value { (n ≡ elements_of rule.now) × (k ≡ letters_of rule.now) }
    requires scratch_size_in_bounds { scratch_size ≤ length scratch.old }
    ensures refusal { FaultAnswer (λ input. second_marks_checks input rule.now second.now) result }
    ensures laid { LaidAnswer second.now n scratch.old scratch.new result }
{
    zero_part(scratch, SECOND_BASE, TABLES_END);
    second_marks(rule, n, k, second, &mut scratch[SECOND_BASE..])
}

// Checks a rule and a second marks section, and compares the two markings. A witness is written to the front of u and v; scratch
// ends as zeros, but where a buffer is too short.
pub fn included(
    rule: &[u8],
    second: &[u8],
    u: &mut [u8],
    v: &mut [u8],
    scratch: &mut [u8],
) -> Inclusion
    ensures { InclusionPromise rule.now second.now u.old u.new v.old v.new scratch.old scratch.new result }
{
    if u.len() < START_SIZE {
        return Inclusion::Refused {
            refusal: Refusal::BufferTooShort,
            input: 1,
            place: 0,
        };
    }
    if v.len() < CYCLE_SIZE {
        return Inclusion::Refused {
            refusal: Refusal::BufferTooShort,
            input: 1,
            place: 0,
        };
    }
    let shape = match check(rule, 1, scratch) {
        Ok(shape) => shape,
        Err(
            Refused {
                refusal,
                input,
                place,
            },
        ) => {
            return Inclusion::Refused {
                refusal,
                input,
                place,
            };
        }
    };
    let n = shape.elements;
    let k = shape.letters;
    match lay_second(rule, n, k, second, scratch) {
        Ok(()) => {}
        Err(Fault { refusal, place }) => {
            zero(scratch);
            return Inclusion::Refused {
                refusal,
                input: 2,
                place,
            };
        }
    }
    compare(rule, n, k, u, v, scratch)
}
