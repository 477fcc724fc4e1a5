// The grade of a lasso: the value of each beginning and each end of the cycle in one pass each, and then, for each place of one
// turn, the powers of the turn's value. The marks stand in the first 4,096 bytes of scratch, a byte for each pair; the values go
// behind them.
#![tactic(auto)]

ghost use Rattle.std.specs.Prelude.{◌≡◌, ◌+◌, ◌≤◌, length};
ghost use Rattle.theory.specs.Rules.{Lawful, level, element, value};
ghost use Rattle.theory.proofs.Membership.{accepts_test};
ghost use Rattle.formats.proofs.Tables.{Table};
ghost use Rattle.formats.specs.Table.{morphism_at};
ghost use Rattle.lasso_cuts.specs.WordValues.{CallWord};
ghost use Rattle.lasso_turns.specs.Cuts.{Beginnings, Ends, KeptAround};
ghost use Rattle.lasso_powers.specs.Raising.{Raised};
ghost use Rattle.scratch.specs.Map.{marks_from};
ghost use Rattle.formats.specs.RuleChecks.{scratch_size};

use lasso_turns::highest_cut;
use rule_table::{image, product};
use scratch::{BEGINNINGS_BASE, ENDS_BASE};
use section_bounds::greatest;

// The value of a word.
pub fn word_value(rule: &[u8], n: usize, k: usize, w: &[u8]) -> usize
    requires table { Table rule.now n k }
    requires lawful { Lawful (morphism_at rule.now n k) }
    requires call_word { CallWord k w.now }
    ensures { value (morphism_at rule.now n k) w.now ≡ element result }
{
    let mut s = image(rule, n, w[0] as usize);
    for letter in &w[1..] {
        let h = image(rule, n, *letter as usize);
        s = product(rule, n, s, h);
    }
    s
}

// The values of the beginnings of a word. Answers that of the whole word.
fn beginnings(rule: &[u8], n: usize, k: usize, w: &[u8], scratch: &mut [u8], base: usize) -> usize
    requires table { Table rule.now n k }
    requires lawful { Lawful (morphism_at rule.now n k) }
    requires call_word { CallWord k w.now }
    requires w_in_bounds { base + length w.now ≤ length scratch.old }
    ensures whole { value (morphism_at rule.now n k) w.now ≡ element result }
    ensures values { Beginnings (morphism_at rule.now n k) w.now scratch.new base }
    ensures others { KeptAround scratch.old scratch.new base (length w.now) }
{
    let mut s = image(rule, n, w[0] as usize);
    scratch[base] = (s % 256) as u8;
    // By index: a letter's place in the word and that of its value in scratch are both worked out from it.
    for j in 1..w.len() {
        let h = image(rule, n, w[j] as usize);
        s = product(rule, n, s, h);
        scratch[base + j] = (s % 256) as u8;
    }
    s
}

// The values of the ends of a word.
fn ends(rule: &[u8], n: usize, k: usize, w: &[u8], scratch: &mut [u8], base: usize)
    requires table { Table rule.now n k }
    requires lawful { Lawful (morphism_at rule.now n k) }
    requires call_word { CallWord k w.now }
    requires w_in_bounds { base + length w.now ≤ length scratch.old }
    ensures values { Ends (morphism_at rule.now n k) w.now scratch.new base }
    ensures others { KeptAround scratch.old scratch.new base (length w.now) }
{
    let last = w.len() - 1;
    let mut s = image(rule, n, w[last] as usize);
    scratch[base + last] = (s % 256) as u8;
    for i in (0..last).rev() {
        let h = image(rule, n, w[i] as usize);
        s = product(rule, n, h, s);
        scratch[base + i] = (s % 256) as u8;
    }
}

// The grade of a lasso, and the value of its cycle.
#[derive(Drop)]
pub struct Graded {
    pub grade: usize,
    pub cycle: usize,
}

// The grade of the lasso under the marks that stand in scratch. The bytes of scratch behind the marks are used.
pub fn grade_of(rule: &[u8], n: usize, k: usize, u: &[u8], v: &[u8], scratch: &mut [u8]) -> Graded
    requires table { Table rule.now n k }
    requires lawful { Lawful (morphism_at rule.now n k) }
    requires call_word { CallWord k u.now }
    requires call_word_2 { CallWord k v.now }
    requires scratch_size_in_bounds { scratch_size ≤ length scratch.old }
    ensures grade { Raised (λ g. accepts_test (morphism_at rule.now n k) (level g (marks_from scratch.old 0)) u.now v.now) 0 result.grade }
    ensures cycle { value (morphism_at rule.now n k) v.now ≡ element result.cycle }
{
    let top = greatest(scratch, 0, n * 64);
    let s = word_value(rule, n, k, u);
    let cycle = beginnings(rule, n, k, v, scratch, BEGINNINGS_BASE);
    ends(rule, n, k, v, scratch, ENDS_BASE);
    let grade = highest_cut(rule, n, k, scratch, s, v.len(), top) as usize;
    Graded { grade, cycle }
}
