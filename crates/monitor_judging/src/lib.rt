// The verdict on two values of a strong rule, below the checks: the grade of the lassos with these values.
#![tactic(auto)]

ghost use Rattle.std.specs.Prelude.{◌≡◌, ◌≤◌, ◌<◌, length};
ghost use Rattle.theory.specs.Rules.{Lawful};
ghost use Rattle.theory.specs.Pairs.{LeastExponent};
ghost use Rattle.theory.proofs.Strength.{settled_start, settled_cycle};
ghost use Rattle.formats.proofs.Tables.{Table};
ghost use Rattle.formats.specs.Table.{morphism_at};
ghost use Rattle.scratch.specs.Map.{second_base, marks_from};
ghost use Rattle.mark_strong.specs.Deciding.{DecideNeeds};
ghost use Rattle.monitor_judging.specs.Judges.{Judges};
ghost use Rattle.formats.specs.RuleChecks.{scratch_size};

use answer::Refusal;
use mark_strong::decide;
use promises::LassoVerdict;
use rule_table::{idempotent_power, product};
use scratch::SECOND_BASE;
use sections::zero;

// The grade of the lassos with two values, and the turns that settle the cycle's.
#[derive(Drop)]
pub struct Looked {
    pub grade: usize,
    pub turns: usize,
}

// The mark of the pair (before·f, f) in the second table of marks, f the idempotent power of since: the values of the same endless
// words written with more turns in their start and their cycle. The exponent of f is the number of turns.
pub fn values_grade(
    rule: &[u8],
    n: usize,
    k: usize,
    scratch: &[u8],
    before: usize,
    since: usize,
) -> Looked
    requires table { Table rule.now n k }
    requires lawful { Lawful (morphism_at rule.now n k) }
    requires before_lt_n { (before < n) × (since < n) }
    requires scratch_size_in_bounds { scratch_size ≤ length scratch.now }
    ensures grade { result.grade ≡ marks_from scratch.now second_base (settled_start (morphism_at rule.now n k) before since) (settled_cycle (morphism_at rule.now n k) since) }
    ensures turns { LeastExponent (morphism_at rule.now n k) since result.turns }
{
    let power = idempotent_power(rule, n, k, since);
    let f = power.element;
    let s = product(rule, n, before, f);
    let grade = scratch[SECOND_BASE + (s * 64 + f)] as usize;
    Looked {
        grade,
        turns: power.exponent,
    }
}

// Judges two elements by the marks in scratch: the marks must be strong, and then their closure decides. Scratch ends as zeros.
pub fn judge(
    rule: &[u8],
    n: usize,
    k: usize,
    before: usize,
    since: usize,
    scratch: &mut [u8],
) -> LassoVerdict
    requires table { Table rule.now n k }
    requires decide_needs { DecideNeeds (morphism_at rule.now n k) 0 scratch.old }
    requires before_lt_n { (before < n) × (since < n) }
    ensures { Judges (morphism_at rule.now n k) before since scratch.old scratch.new result }
{
    let strong = decide(rule, n, k, scratch);
    let looked = values_grade(rule, n, k, scratch, before, since);
    zero(scratch);
    if !strong {
        return LassoVerdict::Refused {
            refusal: Refusal::NotStrong,
            input: 1,
            place: 0,
        };
    }
    LassoVerdict::Decided {
        grade: looked.grade,
        turns: looked.turns,
    }
}
