// The rule of the pairs of values of two rules, its marks: every linked pair of places has the grade combined from those of its halves in
// the closures of both rules. All stands in one lent slice, as pair_table/specs/Layout says.
#![tactic(auto)]

ghost use Rattle.std.specs.Prelude.{◌≡◌, ◌+◌, ◌*◌, ◌<◌};
ghost use Rattle.promises.specs.Combine.{combined_grade};
ghost use Rattle.scratch.specs.Map.{laid_marks_base};
ghost use Rattle.scratch.specs.Rows.{RowFilled, RowsFilled};
ghost use Rattle.pair_table.specs.Layout.{HalvesNeeds};
ghost use Rattle.pair_marks.specs.Marks.{pair_grade, PairMark};

use promises::Operation;
use rule_laid::laid_linked;
use scratch::{LAID_MARKS_BASE, PAIR_LEFTS_BASE, PAIR_RIGHTS_BASE, SEARCH_END, SECOND_BASE};

// The lower grade, the higher, or the lower of the first and 3 less the second.
pub fn combine_grades(operation: Operation, a: u8, b: u8) -> u8
    ensures { result ≡ combined_grade operation a b }
{
    match operation {
        Operation::Both => a.min(b),
        Operation::Either => a.max(b),
        Operation::Without => a.min(3u8.saturating_sub(b)),
    }
}

// The grade combined from those of the halves of two pairs.
fn pair_grade(operation: Operation, count: usize, scratch: &[u8], i: usize, j: usize) -> u8
    requires halves_needs { HalvesNeeds 64 64 count scratch.now }
    requires i_lt_count { (i < count) × (j < count) }
    ensures { result ≡ pair_grade operation scratch.now i j }
{
    let a = scratch[PAIR_LEFTS_BASE + i] as usize;
    let b = scratch[PAIR_LEFTS_BASE + j] as usize;
    let c = scratch[PAIR_RIGHTS_BASE + i] as usize;
    let d = scratch[PAIR_RIGHTS_BASE + j] as usize;
    combine_grades(
        operation,
        scratch[SEARCH_END + (a * 64 + b)],
        scratch[SECOND_BASE + (c * 64 + d)],
    )
}

// The mark of two places: that grade where they are linked, else 0.
fn mark_byte(operation: Operation, count: usize, scratch: &[u8], i: usize, j: usize) -> u8
    requires halves_needs { HalvesNeeds 64 64 count scratch.now }
    requires i_lt_count { (i < count) × (j < count) }
    ensures { PairMark operation count scratch.now i j result }
{
    if !laid_linked(scratch, count, i, j) {
        return 0;
    }
    pair_grade(operation, count, scratch, i, j)
}

// The marks of the pairs that begin with place i.
fn marks_row(operation: Operation, count: usize, scratch: &mut [u8], i: usize)
    requires halves_needs { HalvesNeeds 64 64 count scratch.old }
    requires i_lt_count { i < count }
    ensures { RowFilled (PairMark operation count scratch.old i) (laid_marks_base + i * 64) count scratch.old scratch.new }
{
    // By index: each byte is worked out from the slice that it is written to.
    for j in 0..count {
        let mark = mark_byte(operation, count, scratch, i, j);
        scratch[LAID_MARKS_BASE + (i * 64 + j)] = mark;
    }
}

// The marks of all pairs of places.
pub fn lay_marks(operation: Operation, count: usize, scratch: &mut [u8])
    requires { HalvesNeeds 64 64 count scratch.old }
    ensures { RowsFilled (PairMark operation count scratch.old) laid_marks_base 64 count count scratch.old scratch.new }
{
    // By number: pairs are the numbers below count.
    for i in 0..count {
        marks_row(operation, count, scratch, i);
    }
}
