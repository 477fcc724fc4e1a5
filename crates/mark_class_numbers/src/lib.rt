// The numbers of the classes while they are worked out, two bytes for each pair in the lent result: they begin with the pairs' own
// numbers and are lowered by each pair of factors x, y.
#![tactic(auto)]

ghost use Rattle.std.specs.Prelude.{◌+◌, ◌*◌, ◌≤◌, ◌<◌, length};
ghost use Rattle.theory.specs.Rules.{Lawful};
ghost use Rattle.formats.proofs.Tables.{Table};
ghost use Rattle.formats.specs.Table.{morphism_at};
ghost use Rattle.mark_class_numbers.specs.Cells.{Loaded, Stored, Numbered, Begun, Classed, CellAdvanced, Lowest, Lowered};

use promises::NO_CLASS;
use rule_marks::linked;
use rule_table::product;

// The two-byte number at a place, low byte first.
pub fn load(out: &[u8], at: usize) -> usize
    requires { at + 1 < length out.now }
    ensures { Loaded out.now at result }
{
    u16::from_le_bytes([out[at], out[at + 1]]) as usize
}

// Writes a two-byte number at a place, low byte first.
pub fn store(out: &mut [u8], at: usize, number: usize)
    requires at_in_bounds { at + 1 < length out.old }
    requires number_bound { number < 65536 }
    ensures { Stored out.old out.new at number }
{
    let [low, high] = (number as u16).to_le_bytes();
    out[at] = low;
    out[at + 1] = high;
}

// A linked pair is conjugate to itself; a pair that is not linked has no class.
pub fn first_number(rule: &[u8], n: usize, k: usize, s: usize, e: usize) -> usize
    requires table { Table rule.now n k }
    requires lawful { Lawful (morphism_at rule.now n k) }
    requires s_lt_n { (s < n) × (e < n) }
    ensures { Numbered (morphism_at rule.now n k) 0 s e result }
{
    if !linked(rule, n, k, s, e) {
        return NO_CLASS;
    }
    s * n + e
}

// The first numbers of the pairs that begin with s.
pub fn begin_row(rule: &[u8], n: usize, k: usize, out: &mut [u8], s: usize)
    requires table { Table rule.now n k }
    requires lawful { Lawful (morphism_at rule.now n k) }
    requires n_in_bounds { (2 * (n * n) ≤ length out.old) × (s < n) }
    ensures { Begun (morphism_at rule.now n k) (s * n) (s * n + n) out.old out.new }
{
    // By number: elements are the numbers below n.
    for e in 0..n {
        let number = first_number(rule, n, k, s, e);
        store(out, 2 * (s * n + e), number);
    }
}

// The first numbers of all pairs.
pub fn begin(rule: &[u8], n: usize, k: usize, out: &mut [u8])
    requires table { Table rule.now n k }
    requires lawful { Lawful (morphism_at rule.now n k) }
    requires n_in_bounds { 2 * (n * n) ≤ length out.old }
    ensures { CellAdvanced (morphism_at rule.now n k) 0 out.old out.new }
{
    // By number: elements are the numbers below n.
    for s in 0..n {
        begin_row(rule, n, k, out, s);
    }
}

// The lesser of an old number and that of (s·x, f), where s·e = s.
pub fn lowest(
    rule: &[u8],
    n: usize,
    k: usize,
    x: usize,
    e: usize,
    f: usize,
    s: usize,
    old: usize,
) -> usize
    requires table { Table rule.now n k }
    requires x_lt_n { (x < n) × (e < n) × (f < n) × (s < n) }
    ensures { Lowest (morphism_at rule.now n k) x e f s old result }
{
    let kept = product(rule, n, s, e);
    if kept != s {
        return old;
    }
    let t = product(rule, n, s, x);
    let number = t * n + f;
    if number < old {
        return number;
    }
    old
}

// The conjugates by x and y: each s with s·e = s has (s·x, f).
pub fn lower(rule: &[u8], n: usize, k: usize, out: &mut [u8], x: usize, e: usize, f: usize)
    requires table { Table rule.now n k }
    requires x_lt_n { (x < n) × (e < n) × (f < n) }
    requires n_in_bounds { 2 * (n * n) ≤ length out.old }
    ensures { Lowered (morphism_at rule.now n k) x e f n out.old out.new }
{
    // By number: elements are the numbers below n.
    for s in 0..n {
        let at = 2 * (s * n + e);
        let old = load(out, at);
        let number = lowest(rule, n, k, x, e, f, s, old);
        store(out, at, number);
    }
}

// The conjugates by x and y, if x·y and y·x are idempotent.
pub fn lower_by(rule: &[u8], n: usize, k: usize, out: &mut [u8], x: usize, y: usize)
    requires table { Table rule.now n k }
    requires lawful { Lawful (morphism_at rule.now n k) }
    requires x_lt_n { (x < n) × (y < n) }
    requires n_in_bounds { 2 * (n * n) ≤ length out.old }
    requires classed { Classed (morphism_at rule.now n k) (x * n + y) out.old }
    ensures { CellAdvanced (morphism_at rule.now n k) (x * n + (y + 1)) out.old out.new }
{
    let e = product(rule, n, x, y);
    let f = product(rule, n, y, x);
    let ee = product(rule, n, e, e);
    if ee != e {
        return;
    }
    let ff = product(rule, n, f, f);
    if ff != f {
        return;
    }
    lower(rule, n, k, out, x, e, f);
}

// All conjugates by x.
pub fn lower_row(rule: &[u8], n: usize, k: usize, out: &mut [u8], x: usize)
    requires table { Table rule.now n k }
    requires lawful { Lawful (morphism_at rule.now n k) }
    requires x_lt_n { x < n }
    requires n_in_bounds { 2 * (n * n) ≤ length out.old }
    requires classed { Classed (morphism_at rule.now n k) (x * n) out.old }
    ensures { CellAdvanced (morphism_at rule.now n k) (x * n + n) out.old out.new }
{
    // By number: elements are the numbers below n.
    for y in 0..n {
        lower_by(rule, n, k, out, x, y);
    }
}
