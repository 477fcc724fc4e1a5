// The rule of `next` of a strong rule, written: the grades of all pairs of values, the list of the classes of words, the grades of the pairs of classes, and
// their rule. All stands in one lent slice: the outcomes as reduce_first_round has them, the classes as next_list.
#![tactic(auto)]

ghost use Rattle.std.specs.Prelude.{◌≡◌, ◌+◌, ◌*◌, ◌<◌};
ghost use Rattle.formats.proofs.Tables.{Table};
ghost use Rattle.formats.specs.Table.{morphism_at};
ghost use Rattle.scratch.specs.Map.{laid_marks_base};
ghost use Rattle.scratch.specs.Rows.{RowFilled, RowsFilled};
ghost use Rattle.next_rule.specs.Writing.{PairsSmall, next_grade, NextNeeds, NextWritten};

use next_list::list_next;
use reduce_first_round::{outcome_at, outcomes};
use scratch::{LAID_MARKS_BASE, NEXT_TAILS_BASE, NEXT_WHOLES_BASE};
use word_rule::write_words;

// The grade of the lassos whose start is of class s and whose cycle is of class e, without their first letters.
fn next_grade(scratch: &[u8], count: usize, s: usize, e: usize) -> u8
    requires pairs_small { PairsSmall count scratch.now }
    requires s_lt_count { (s < count) × (e < count) }
    ensures { result ≡ next_grade scratch.now s e }
{
    let tail = scratch[NEXT_TAILS_BASE + s] as usize;
    let whole = scratch[NEXT_WHOLES_BASE + e] as usize;
    if tail == 64 {
        return outcome_at(scratch, whole, whole);
    }
    outcome_at(scratch, tail, whole)
}

// The grades of the pairs that begin with s.
fn grade_row(scratch: &mut [u8], count: usize, s: usize)
    requires pairs_small { PairsSmall count scratch.old }
    requires s_lt_count { s < count }
    ensures { RowFilled (λ e byte. byte ≡ next_grade scratch.old s e) (laid_marks_base + s * 64) count scratch.old scratch.new }
{
    // By index: each byte is worked out from the slice that it is written to.
    for e in 0..count {
        let grade = next_grade(scratch, count, s, e);
        scratch[LAID_MARKS_BASE + (s * 64 + e)] = grade;
    }
}

// The grades of all pairs.
fn lay_grades(scratch: &mut [u8], count: usize)
    requires { PairsSmall count scratch.old }
    ensures { RowsFilled (λ s e byte. byte ≡ next_grade scratch.old s e) laid_marks_base 64 count count scratch.old scratch.new }
{
    // By number: elements are the numbers below count.
    for s in 0..count {
        grade_row(scratch, count, s);
    }
}

// Writes the rule of `next`, from the closure of a strong rule's marks in scratch: how many bytes it takes, or none where there are more
// than 64 classes.
pub fn write_next(
    rule: &[u8],
    n: usize,
    k: usize,
    scratch: &mut [u8],
    out: &mut [u8],
) -> Option<usize>
    requires table { Table rule.now n k }
    requires next_needs { NextNeeds (morphism_at rule.now n k) scratch.old out.old }
    ensures { NextWritten (morphism_at rule.now n k) scratch.old scratch.new out.old out.new result }
{
    outcomes(rule, n, k, scratch);
    let count = list_next(rule, n, k, scratch)?;
    lay_grades(scratch, count);
    Some(write_words(scratch, count, k, out))
}
