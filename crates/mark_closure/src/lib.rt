// The closure of a rule's marks under conjugacy, laid out in scratch as a second table of marks behind the first: the highest mark of each
// pair's conjugates. One pass over the factors x, y finds it: x·y = e and y·x = f make (s, e) conjugate to (s·x, f) for each s with s·e = s.
#![tactic(auto)]

ghost use Rattle.std.specs.Prelude.{◌+◌, ◌*◌, ◌≤◌, ◌<◌, length, get_or};
ghost use Rattle.theory.specs.Rules.{Lawful};
ghost use Rattle.formats.proofs.Tables.{Table};
ghost use Rattle.formats.specs.Table.{morphism_at};
ghost use Rattle.scratch.specs.Map.{mark_table_size, tables_end};
ghost use Rattle.mark_closure.specs.Closure.{ClosureRoom, ClosureAnswer};
ghost use Rattle.mark_closure.specs.Closing.{place, first_table, ClosedSoFar, ClosureAdvanced, ByteAfter, ColumnClosed, WithinAnswer};

use rule_table::product;
use scratch::SECOND_BASE;

// The byte of (s, e) in the second table: the mark of (s·x, f) where s·e = s and it is higher, else the byte that is there.
fn byte_after(
    rule: &[u8],
    n: usize,
    k: usize,
    scratch: &[u8],
    x: usize,
    e: usize,
    f: usize,
    s: usize,
) -> u8
    requires table { Table rule.now n k }
    requires tables_end_in_bounds { tables_end ≤ length scratch.now }
    requires x_lt_n { (x < n) × (e < n) × (f < n) × (s < n) }
    ensures { ByteAfter (morphism_at rule.now n k) (first_table scratch.now) x e f s (get_or scratch.now (place s e) 0) result }
{
    let old = scratch[SECOND_BASE + (s * 64 + e)];
    let kept = product(rule, n, s, e);
    if kept != s {
        return old;
    }
    let t = product(rule, n, s, x);
    let mark = scratch[t * 64 + f];
    if mark <= old {
        return old;
    }
    mark
}

// The bytes of the pairs (s, e) that x takes to (s·x, f).
fn close_column(rule: &[u8], n: usize, k: usize, scratch: &mut [u8], x: usize, e: usize, f: usize)
    requires table { Table rule.now n k }
    requires tables_end_in_bounds { tables_end ≤ length scratch.old }
    requires x_lt_n { (x < n) × (e < n) × (f < n) }
    ensures { ColumnClosed (morphism_at rule.now n k) x e f n scratch.old scratch.new }
{
    // By index: each byte is worked out from the slice that it is written to.
    for s in 0..n {
        let byte = byte_after(rule, n, k, scratch, x, e, f, s);
        scratch[SECOND_BASE + (s * 64 + e)] = byte;
    }
}

// The bytes of the pairs that x and y take to another. Where y·x is not idempotent that pair has no mark, as marked pairs are linked.
fn close_by(rule: &[u8], n: usize, k: usize, scratch: &mut [u8], x: usize, y: usize)
    requires table { Table rule.now n k }
    requires lawful { Lawful (morphism_at rule.now n k) }
    requires x_lt_n { (x < n) × (y < n) }
    requires closed_so_far { ClosedSoFar (morphism_at rule.now n k) (x * n + y) scratch.old }
    ensures { ClosureAdvanced (morphism_at rule.now n k) (x * n + (y + 1)) scratch.old scratch.new }
{
    let e = product(rule, n, x, y);
    let f = product(rule, n, y, x);
    let ee = product(rule, n, e, e);
    if ee != e {
        return;
    }
    let ff = product(rule, n, f, f);
    if ff != f {
        return;
    }
    close_column(rule, n, k, scratch, x, e, f);
}

// The bytes of all pairs that x takes to another.
fn close_row(rule: &[u8], n: usize, k: usize, scratch: &mut [u8], x: usize)
    requires table { Table rule.now n k }
    requires lawful { Lawful (morphism_at rule.now n k) }
    requires x_lt_n { x < n }
    requires closed_so_far { ClosedSoFar (morphism_at rule.now n k) (x * n) scratch.old }
    ensures { ClosureAdvanced (morphism_at rule.now n k) (x * n + n) scratch.old scratch.new }
{
    // By number: elements are the numbers below n.
    for y in 0..n {
        close_by(rule, n, k, scratch, x, y);
    }
}

// The highest mark of the conjugates of every pair.
fn close_pairs(rule: &[u8], n: usize, k: usize, scratch: &mut [u8])
    requires table { Table rule.now n k }
    requires lawful { Lawful (morphism_at rule.now n k) }
    requires closure_room { ClosureRoom (morphism_at rule.now n k) scratch.old }
    ensures { ClosureAdvanced (morphism_at rule.now n k) (n * n) scratch.old scratch.new }
{
    // By number: elements are the numbers below n.
    for x in 0..n {
        close_row(rule, n, k, scratch, x);
    }
}

// Whether no byte of the second table is higher than that of the first, among the first bytes of both.
fn within(scratch: &[u8], count: usize) -> bool
    requires { (count ≤ mark_table_size) × (tables_end ≤ length scratch.now) }
    ensures { WithinAnswer scratch.now count result }
{
    // One index for both tables: an iterator over each of them is no plainer.
    for i in 0..count {
        if scratch[i] < scratch[SECOND_BASE + i] {
            return false;
        }
    }
    true
}

// Lays the closure of the marks out in the second table, and says whether the marks are closed: no pair has a higher mark there.
pub fn close(rule: &[u8], n: usize, k: usize, scratch: &mut [u8]) -> bool
    requires table { Table rule.now n k }
    requires lawful { Lawful (morphism_at rule.now n k) }
    requires closure_room { ClosureRoom (morphism_at rule.now n k) scratch.old }
    ensures { ClosureAnswer (morphism_at rule.now n k) scratch.old scratch.new result }
{
    close_pairs(rule, n, k, scratch);
    within(scratch, n * 64)
}
