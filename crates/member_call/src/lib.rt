// The grade of a lasso: u, then v for ever, or v for ever where u is empty; and after how many turns of v its value settles.
// Any rule that passes its checks is asked, weak ones too.
#![tactic(auto)]

ghost use Rattle.std.specs.Prelude.{◌≡◌, ◌≤◌, length};
ghost use Rattle.theory.specs.Rules.{Lawful, level, element, value};
ghost use Rattle.theory.proofs.Starts.{start_or_turn};
ghost use Rattle.theory.proofs.Membership.{accepts_test};
ghost use Rattle.formats.proofs.Tables.{Table};
ghost use Rattle.formats.specs.Table.{morphism_at};
ghost use Rattle.formats.specs.RuleChecks.{scratch_size};
ghost use Rattle.lasso_cuts.specs.WordValues.{CallWord};
ghost use Rattle.lasso_powers.specs.Raising.{Raised};
ghost use Rattle.scratch.specs.Map.{marks_from};
ghost use Rattle.promises.specs.Member.{MemberPromise};

use answer::Refused;
use lasso_cuts::{Graded, grade_of};
use lasso_words::lasso_fault;
use promises::LassoVerdict;
use rule_check::check;
use rule_table::idempotent_power;
use sections::zero;

// The grade of the lasso under the marks; a turn of the cycle stands for an empty start.
fn lasso_grade(rule: &[u8], n: usize, k: usize, u: &[u8], v: &[u8], scratch: &mut [u8]) -> Graded
    requires table { Table rule.now n k }
    requires lawful { Lawful (morphism_at rule.now n k) }
    requires call_word { CallWord k (start_or_turn u.now v.now) }
    requires call_word_2 { CallWord k v.now }
    requires scratch_size_in_bounds { scratch_size ≤ length scratch.old }
    ensures grade { Raised (λ g. accepts_test (morphism_at rule.now n k) (level g (marks_from scratch.old 0)) (start_or_turn u.now v.now) v.now) 0 result.grade }
    ensures cycle { value (morphism_at rule.now n k) v.now ≡ element result.cycle }
{
    if u.len() < 1 {
        return grade_of(rule, n, k, v, v, scratch);
    }
    grade_of(rule, n, k, u, v, scratch)
}

pub fn member(rule: &[u8], u: &[u8], v: &[u8], scratch: &mut [u8]) -> LassoVerdict
    ensures { MemberPromise rule.now u.now v.now scratch.old scratch.new result }
{
    let shape = match check(rule, 1, scratch) {
        Ok(shape) => shape,
        Err(
            Refused {
                refusal,
                input,
                place,
            },
        ) => {
            return LassoVerdict::Refused {
                refusal,
                input,
                place,
            };
        }
    };
    let n = shape.elements;
    let k = shape.letters;
    match lasso_fault(u, v, k) {
        Ok(()) => {}
        Err(
            Refused {
                refusal,
                input,
                place,
            },
        ) => {
            zero(scratch);
            return LassoVerdict::Refused {
                refusal,
                input,
                place,
            };
        }
    }
    let graded = lasso_grade(rule, n, k, u, v, scratch);
    let power = idempotent_power(rule, n, k, graded.cycle);
    zero(scratch);
    LassoVerdict::Decided {
        grade: graded.grade,
        turns: power.exponent,
    }
}
