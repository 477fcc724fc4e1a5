// The cuts of one turn of a lasso's cycle: the highest mark of the pairs that, at some cut, a power of the turn's value gives.
#![tactic(auto)]

ghost use Rattle.std.specs.Prelude.{◌<◌};
ghost use Rattle.theory.specs.Rules.{Lawful, level};
ghost use Rattle.formats.proofs.Tables.{Table};
ghost use Rattle.formats.specs.Table.{morphism_at};
ghost use Rattle.lasso_powers.specs.Raising.{Raised};
ghost use Rattle.lasso_turns.specs.Cuts.{CutValues, CutHere, UnmarkedBefore, MarksUpTo, some_cut};
ghost use Rattle.scratch.specs.Map.{marks_from};

use lasso_powers::{turn_highest, turn_marked};
use rule_table::product;
use scratch::{BEGINNINGS_BASE, ENDS_BASE};

// The value of what comes before a cut and that of the turn after it.
#[derive(Drop)]
struct Cut {
    before: usize,
    turn: usize,
}

// Those of the cut after j + 1 letters of v, after u of value s.
fn cut_at(rule: &[u8], n: usize, k: usize, scratch: &[u8], s: usize, len: usize, j: usize) -> Cut
    requires table { Table rule.now n k }
    requires cut_values { CutValues scratch.now n len }
    requires s_lt_n { (s < n) × (j < len) }
    ensures { CutHere (morphism_at rule.now n k) s scratch.now len j result.before result.turn }
{
    let x = scratch[BEGINNINGS_BASE + j] as usize;
    let p = product(rule, n, s, x);
    let mut r = x;
    if j + 1 < len {
        r = product(rule, n, scratch[ENDS_BASE + j + 1] as usize, x);
    }
    Cut { before: p, turn: r }
}

// The first cut that shows a mark, or `len`.
fn first_marked(rule: &[u8], n: usize, k: usize, scratch: &[u8], s: usize, len: usize) -> usize
    requires table { Table rule.now n k }
    requires lawful { Lawful (morphism_at rule.now n k) }
    requires cut_values { CutValues scratch.now n len }
    requires s_lt_n { s < n }
    ensures { UnmarkedBefore (morphism_at rule.now n k) (marks_from scratch.now 0) s scratch.now len result }
{
    // By number: a cut is the number of the letters before it.
    for j in 0..len {
        let cut = cut_at(rule, n, k, scratch, s, len, j);
        if turn_marked(rule, n, k, scratch, cut.before, cut.turn) {
            return j;
        }
    }
    len
}

// The highest mark at a cut, where none before `first` shows a mark. No mark is above `top`, so that the search ends where that is found.
fn highest_from(
    rule: &[u8],
    n: usize,
    k: usize,
    scratch: &[u8],
    s: usize,
    len: usize,
    top: u8,
    first: usize,
) -> u8
    requires table { Table rule.now n k }
    requires lawful { Lawful (morphism_at rule.now n k) }
    requires cut_values { CutValues scratch.now n len }
    requires s_lt_n { s < n }
    requires marks_up_to { MarksUpTo n (marks_from scratch.now 0) top }
    requires unmarked_before { UnmarkedBefore (morphism_at rule.now n k) (marks_from scratch.now 0) s scratch.now len first }
    ensures { Raised (λ g. some_cut (morphism_at rule.now n k) (level g (marks_from scratch.now 0)) s scratch.now len) 0 result }
{
    let mut high = 0u8;
    // By number: a cut is the number of the letters before it.
    for j in first..len {
        let cut = cut_at(rule, n, k, scratch, s, len, j);
        high = turn_highest(rule, n, k, scratch, cut.before, cut.turn, high);
        if top <= high {
            return high;
        }
    }
    high
}

// The highest mark at a cut of one turn of v, after u of value s; no mark is above `top`. The cuts before the first that shows a mark are
// looked at for any mark only.
pub fn highest_cut(
    rule: &[u8],
    n: usize,
    k: usize,
    scratch: &[u8],
    s: usize,
    len: usize,
    top: u8,
) -> u8
    requires table { Table rule.now n k }
    requires lawful { Lawful (morphism_at rule.now n k) }
    requires cut_values { CutValues scratch.now n len }
    requires s_lt_n { s < n }
    requires marks_up_to { MarksUpTo n (marks_from scratch.now 0) top }
    ensures { Raised (λ g. some_cut (morphism_at rule.now n k) (level g (marks_from scratch.now 0)) s scratch.now len) 0 result }
{
    let first = first_marked(rule, n, k, scratch, s, len);
    highest_from(rule, n, k, scratch, s, len, top, first)
}
