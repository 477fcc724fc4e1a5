// The grades of two strong rules at each context of the table of their pairs, as a clamp in a byte: the second's, and four times the higher of both. The
// halves of the pairs stand as pair_list has them, and the closures of both rules' marks as two_rules leaves them.
#![tactic(auto)]

ghost use Rattle.std.specs.Prelude.{◌≡◌, ◌+◌, ◌*◌, max, ◌≤◌, ◌<◌, length};
ghost use Rattle.theory.specs.Rules.{Lawful};
ghost use Rattle.formats.proofs.Tables.{Table};
ghost use Rattle.formats.specs.Table.{morphism_at};
ghost use Rattle.scratch.specs.Map.{mark_table_size, until_grades_base};
ghost use Rattle.scratch.specs.Rows.{RowFilled, RowsFilled};
ghost use Rattle.until_grades.specs.Grades.{look, both_grades, GradesNeeds};

use reduce_first_round::outcome;
use rule_table::idempotent_power;
use scratch::{PAIR_LEFTS_BASE, PAIR_RIGHTS_BASE, SEARCH_END, SECOND_BASE, UNTIL_GRADES_BASE};

// The grade of the lassos with the values (s, z), by the closure of a rule's marks that begins at a byte.
fn grade_of(rule: &[u8], n: usize, k: usize, scratch: &[u8], base: usize, s: usize, z: usize) -> u8
    requires table { Table rule.now n k }
    requires lawful { Lawful (morphism_at rule.now n k) }
    requires s_lt_n { (s < n) × (z < n) × (base + mark_table_size ≤ length scratch.now) }
    ensures { result ≡ look (morphism_at rule.now n k) scratch.now base s z }
{
    let power = idempotent_power(rule, n, k, z);
    outcome(rule, n, k, scratch, base, s, power.element)
}

// The second grade, and four times the higher.
fn both_grades(first: u8, second: u8) -> u8
    requires { (first ≤ 3) × (second ≤ 3) }
    ensures { result ≡ second + 4 * max second first }
{
    second + 4 * second.max(first)
}

// The byte of a context.
fn grades_byte(
    first: &[u8],
    n1: usize,
    second: &[u8],
    n2: usize,
    k: usize,
    count: usize,
    scratch: &[u8],
    t: usize,
    z: usize,
) -> u8
    requires grades_needs { GradesNeeds first.now n1 second.now n2 k count scratch.now }
    requires t_lt_count { (t < count) × (z < count) }
    ensures { result ≡ both_grades first.now n1 second.now n2 k scratch.now t z }
{
    let s1 = scratch[PAIR_LEFTS_BASE + t] as usize;
    let z1 = scratch[PAIR_LEFTS_BASE + z] as usize;
    let s2 = scratch[PAIR_RIGHTS_BASE + t] as usize;
    let z2 = scratch[PAIR_RIGHTS_BASE + z] as usize;
    let a = grade_of(first, n1, k, scratch, SEARCH_END, s1, z1);
    let b = grade_of(second, n2, k, scratch, SECOND_BASE, s2, z2);
    both_grades(a, b)
}

// The bytes of the contexts (t, z).
fn grades_row(
    first: &[u8],
    n1: usize,
    second: &[u8],
    n2: usize,
    k: usize,
    count: usize,
    scratch: &mut [u8],
    t: usize,
)
    requires grades_needs { GradesNeeds first.now n1 second.now n2 k count scratch.old }
    requires t_lt_count { t < count }
    ensures { RowFilled (λ z byte. byte ≡ both_grades first.now n1 second.now n2 k scratch.old t z) (until_grades_base + t * 64) count scratch.old scratch.new }
{
    // By index: each byte is worked out from the slice that it is written to.
    for z in 0..count {
        let byte = grades_byte(first, n1, second, n2, k, count, scratch, t, z);
        scratch[UNTIL_GRADES_BASE + (t * 64 + z)] = byte;
    }
}

// The bytes of all contexts.
pub fn lay_grades(
    first: &[u8],
    n1: usize,
    second: &[u8],
    n2: usize,
    k: usize,
    count: usize,
    scratch: &mut [u8],
)
    requires { GradesNeeds first.now n1 second.now n2 k count scratch.old }
    ensures { RowsFilled (λ t z byte. byte ≡ both_grades first.now n1 second.now n2 k scratch.old t z) until_grades_base 64 count count scratch.old scratch.new }
{
    // By number: elements are the numbers below count.
    for t in 0..count {
        grades_row(first, n1, second, n2, k, count, scratch, t);
    }
}
