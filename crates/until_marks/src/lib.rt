// The grades of the pairs of classes for `until`: what the start's clamp makes of the lower end of the cycle's, both at the context of the cycle for ever.
#![tactic(auto)]

ghost use Rattle.std.specs.Prelude.{◌≡◌, ◌+◌, ◌*◌, ◌<◌};
ghost use Rattle.scratch.specs.Map.{laid_marks_base};
ghost use Rattle.scratch.specs.Rows.{RowFilled, RowsFilled};
ghost use Rattle.until_marks.specs.Marks.{ClassesSmall, until_grade};

use scratch::{LAID_MARKS_BASE, UNTIL_PAIRS_BASE};
use until_clamps::clamp_over;

// The grade of the lassos whose start is of class s and whose cycle is of class e.
fn until_grade(classes: &[u8], scratch: &[u8], count: usize, s: usize, e: usize) -> u8
    requires classes_small { ClassesSmall count scratch.now classes.now }
    requires s_lt_count { (s < count) × (e < count) }
    ensures { result ≡ until_grade scratch.now classes.now s e }
{
    let pair = scratch[UNTIL_PAIRS_BASE + e] as usize;
    let start = classes[s * 4096 + (pair * 64 + pair)];
    let cycle = classes[e * 4096 + (pair * 64 + pair)];
    clamp_over(start, cycle) % 4
}

// The grades of the pairs that begin with s.
fn grade_row(classes: &[u8], scratch: &mut [u8], count: usize, s: usize)
    requires classes_small { ClassesSmall count scratch.old classes.now }
    requires s_lt_count { s < count }
    ensures { RowFilled (λ e byte. byte ≡ until_grade scratch.old classes.now s e) (laid_marks_base + s * 64) count scratch.old scratch.new }
{
    // By index: each byte is worked out from the slice that it is written to.
    for e in 0..count {
        let grade = until_grade(classes, scratch, count, s, e);
        scratch[LAID_MARKS_BASE + (s * 64 + e)] = grade;
    }
}

// The grades of all pairs.
pub fn lay_until(classes: &[u8], scratch: &mut [u8], count: usize)
    requires { ClassesSmall count scratch.old classes.now }
    ensures { RowsFilled (λ s e byte. byte ≡ until_grade scratch.old classes.now s e) laid_marks_base 64 count count scratch.old scratch.new }
{
    // By number: elements are the numbers below count.
    for s in 0..count {
        grade_row(classes, scratch, count, s);
    }
}
