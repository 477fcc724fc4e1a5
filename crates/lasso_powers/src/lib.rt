// The marks of the pairs (p·e·r^j, e) that the powers of a turn's value r give, e its idempotent power: the highest, and whether there is any.
#![tactic(auto)]

ghost use Rattle.std.specs.Prelude.{◌≡◌, false, ◌≤◌, ◌<◌, leb, length};
ghost use Rattle.theory.specs.Rules.{Lawful, level};
ghost use Rattle.theory.specs.Pairs.{LeastPower};
ghost use Rattle.theory.proofs.Membership.{turn_test};
ghost use Rattle.formats.proofs.Tables.{Table};
ghost use Rattle.formats.specs.Table.{morphism_at};
ghost use Rattle.lasso_powers.specs.Raising.{Raised};
ghost use Rattle.scratch.specs.Map.{beginnings_base, marks_from};

use rule_table::{idempotent_power, product};

// The higher of two marks.
fn higher(x: u8, y: u8) -> u8
    ensures { Raised (λ g. leb g y) x result }
{
    if x < y {
        return y;
    }
    x
}

// The highest mark of the pairs (p·e·r^j, e), e the idempotent power of r, where it is above `before`. They come again after as many as
// the exponent of e.
fn powers_highest(
    rule: &[u8],
    n: usize,
    k: usize,
    marks: &[u8],
    p: usize,
    r: usize,
    e: usize,
    exponent: usize,
    before: u8,
) -> u8
    requires table { Table rule.now n k }
    requires lawful { Lawful (morphism_at rule.now n k) }
    requires beginnings_base_in_bounds { beginnings_base ≤ length marks.now }
    requires p_lt_n { (p < n) × (r < n) }
    requires least_power { LeastPower (morphism_at rule.now n k) r e exponent }
    ensures { Raised (λ g. turn_test (morphism_at rule.now n k) (level g (marks_from marks.now 0)) p r) before result }
{
    let mut s = product(rule, n, p, e);
    let mut high = before;
    // By number: j counts the powers of r, each of which is found from the one before.
    for j in 0..exponent {
        high = higher(high, marks[s * 64 + e]);
        s = product(rule, n, s, r);
    }
    high
}

// The highest mark of the pairs (p·e·r^j, e), e the idempotent power of r, where it is above `before`.
pub fn turn_highest(
    rule: &[u8],
    n: usize,
    k: usize,
    marks: &[u8],
    p: usize,
    r: usize,
    before: u8,
) -> u8
    requires table { Table rule.now n k }
    requires lawful { Lawful (morphism_at rule.now n k) }
    requires beginnings_base_in_bounds { beginnings_base ≤ length marks.now }
    requires p_lt_n { (p < n) × (r < n) }
    ensures { Raised (λ g. turn_test (morphism_at rule.now n k) (level g (marks_from marks.now 0)) p r) before result }
{
    let power = idempotent_power(rule, n, k, r);
    powers_highest(
        rule,
        n,
        k,
        marks,
        p,
        r,
        power.element,
        power.exponent,
        before,
    )
}

// Whether a pair (p·e·r^j, e) is marked, e the idempotent power of r. What is promised, and needed, is that none is where the answer is no.
fn powers_marked(
    rule: &[u8],
    n: usize,
    k: usize,
    marks: &[u8],
    p: usize,
    r: usize,
    e: usize,
    exponent: usize,
) -> bool
    requires table { Table rule.now n k }
    requires lawful { Lawful (morphism_at rule.now n k) }
    requires beginnings_base_in_bounds { beginnings_base ≤ length marks.now }
    requires p_lt_n { (p < n) × (r < n) }
    requires least_power { LeastPower (morphism_at rule.now n k) r e exponent }
    ensures { result ≡ false → Raised (λ g. turn_test (morphism_at rule.now n k) (level g (marks_from marks.now 0)) p r) 0 0 }
{
    let mut q = product(rule, n, p, e);
    // By number: j counts the powers of r, each of which is found from the one before.
    for j in 0..exponent {
        if 0 < marks[q * 64 + e] {
            return true;
        }
        q = product(rule, n, q, r);
    }
    false
}

// Whether a pair (p·e·r^j, e) is marked, e the idempotent power of r. No mark is kept from pair to pair, so that this takes less time than
// to look for the highest.
pub fn turn_marked(rule: &[u8], n: usize, k: usize, marks: &[u8], p: usize, r: usize) -> bool
    requires table { Table rule.now n k }
    requires lawful { Lawful (morphism_at rule.now n k) }
    requires beginnings_base_in_bounds { beginnings_base ≤ length marks.now }
    requires p_lt_n { (p < n) × (r < n) }
    ensures { result ≡ false → Raised (λ g. turn_test (morphism_at rule.now n k) (level g (marks_from marks.now 0)) p r) 0 0 }
{
    let power = idempotent_power(rule, n, k, r);
    powers_marked(rule, n, k, marks, p, r, power.element, power.exponent)
}
