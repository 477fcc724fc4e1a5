// The search that compares two markings, at every grade: from the highest grade of the first marking down. A grade that no pair of the
// first marking has is not searched, for a cycle that escapes there escapes at the next higher one.
#![tactic(auto)]

ghost use Rattle.std.specs.Prelude.{◌≡◌, ◌+◌, ◌<◌, ◌≤◌, length, MatchOption};
ghost use Rattle.formats.proofs.Tables.{Table};
ghost use Rattle.formats.specs.Table.{morphism_at};
ghost use Rattle.mark_search.specs.Search.{EscapeNeeds};
ghost use Rattle.mark_grade_search.specs.GradeSearch.{HighestBelow, GradeEscaped};

use mark_search::{Escape, first_escape};

// The mark below a grade that stands as `shifted`: less the grade, and modulo 256.
fn shifted_back(shifted: u8, below: u8) -> u8
    requires { 256 ≤ shifted + below }
    ensures { (result < below) × (result + 256 ≡ shifted + below) }
{
    shifted - (255 - below) - 1
}

// The highest mark below a grade and above 0, among some bytes from `first` on. Shifted, the marks below the grade stand in their order
// above all others, so that it is a greatest byte, which the compiler finds many bytes at a time: it does not where the loop compares
// each mark with the grade.
fn highest_below(scratch: &[u8], count: usize, first: usize, below: u8) -> Option<u8>
    requires { (0 < below) × (first + count ≤ length scratch.now) }
    ensures { MatchOption result (HighestBelow scratch.now first count below 0) (λ grade. HighestBelow scratch.now first count below grade × (0 < grade)) }
{
    let mut top = std::num::wrapping_sub_u8(0, below);
    for mark in &scratch[first..first + count] {
        let shifted = std::num::wrapping_sub_u8(*mark, below);
        top = top.max(shifted);
    }
    let highest = shifted_back(top, below);
    (0 < highest).then_some(highest)
}

// The highest grade at which a cycle escapes, and what the search found there.
#[derive(Clone, Copy)]
pub struct GradeEscape {
    pub grade: u8,
    pub escape: Escape,
}

// Compares the marking whose table begins at `first` with the one whose table begins at `second` at each grade that the first has. It
// makes blank what it needs blank, and keeps the tables of marks and the bytes from 61440 on.
pub fn highest_escape(
    rule: &[u8],
    n: usize,
    k: usize,
    scratch: &mut [u8],
    first: usize,
    second: usize,
) -> Option<GradeEscape>
    requires table { Table rule.now n k }
    requires escape_needs { EscapeNeeds (morphism_at rule.now n k) first second scratch.old }
    ensures { GradeEscaped (morphism_at rule.now n k) first second scratch.old scratch.new result }
{
    let mut above = 4u8;
    // A while: each grade is found from the one before.
    while let Some(grade) = highest_below(scratch, n * 64, first, above) {
        if let Some(escape) = first_escape(rule, n, k, scratch, first, second, grade) {
            return Some(GradeEscape { grade, escape });
        }
        above = grade;
    }
    None
}
