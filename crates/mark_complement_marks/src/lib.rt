// The marks of a complement, as a second table of marks: every linked pair has 3 less its grade in the closure of the rule's marks.
#![tactic(auto)]

ghost use Rattle.std.specs.Prelude.{◌≤◌, ◌<◌, length};
ghost use Rattle.formats.proofs.Tables.{Table};
ghost use Rattle.formats.specs.Table.{morphism_at};
ghost use Rattle.mark_complement_marks.specs.Complement.{ComplementLaid, ComplementByte, ComplementRow};
ghost use Rattle.scratch.specs.Map.{tables_end};

use rule_marks::linked;
use scratch::SECOND_BASE;

// The highest grade.
const HIGHEST_GRADE: u8 = 3;

// The byte of (s, e): what its byte lacks of the highest grade where the pair is linked, else 0.
pub fn complement_byte(rule: &[u8], n: usize, k: usize, scratch: &[u8], s: usize, e: usize) -> u8
    requires table { Table rule.now n k }
    requires tables_end_in_bounds { tables_end ≤ length scratch.now }
    requires s_lt_n { (s < n) × (e < n) }
    ensures { ComplementByte (morphism_at rule.now n k) scratch.now s e result }
{
    if !linked(rule, n, k, s, e) {
        return 0;
    }
    let mark = scratch[SECOND_BASE + (s * 64 + e)];
    if HIGHEST_GRADE <= mark {
        return 0;
    }
    HIGHEST_GRADE - mark
}

// The bytes of the pairs that begin with s.
pub fn turn_row(rule: &[u8], n: usize, k: usize, scratch: &mut [u8], s: usize)
    requires table { Table rule.now n k }
    requires tables_end_in_bounds { tables_end ≤ length scratch.old }
    requires s_lt_n { s < n }
    ensures { ComplementRow (morphism_at rule.now n k) s n scratch.old scratch.new }
{
    // By index: each byte is worked out from the slice that it is written to.
    for e in 0..n {
        let byte = complement_byte(rule, n, k, scratch, s, e);
        scratch[SECOND_BASE + (s * 64 + e)] = byte;
    }
}

// Turns the second table, the closure of a rule's marks, into the marks of the complement, in place.
pub fn complement_marks(rule: &[u8], n: usize, k: usize, scratch: &mut [u8])
    requires table { Table rule.now n k }
    requires tables_end_in_bounds { tables_end ≤ length scratch.old }
    ensures { ComplementLaid (morphism_at rule.now n k) scratch.old scratch.new }
{
    // By number: elements are the numbers below n.
    for s in 0..n {
        turn_row(rule, n, k, scratch, s);
    }
}
