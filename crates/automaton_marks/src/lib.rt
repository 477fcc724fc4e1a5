// The marks of the pairs of an automaton's matrices, as document 01 has them: a linked pair (R, E) for which some initial p and some
// q have entry (p, q) of R not 0 and entry (q, q) of E equal to 2, with the grade 3. They are laid out behind the table, as
// automaton_table/specs/Laying says.
#![tactic(auto)]

ghost use Rattle.std.specs.Prelude.{◌≡◌, ◌+◌, ◌*◌, ◌≤◌, ◌<◌, length};
ghost use Rattle.buchi.proofs.MatrixTests.{returns_at, returns_from, recurs_test};
ghost use Rattle.automaton_matrices.specs.Bytes.{initial_at};
ghost use Rattle.automaton_matrix_search.specs.Lists.{matrix_at};
ghost use Rattle.automaton_table.specs.Laying.{initial_states, PairNeeds, MarkNeeds, MarkByte};
ghost use Rattle.scratch.specs.Map.{laid_marks_base};
ghost use Rattle.scratch.specs.Rows.{RowFilled, RowsFilled};
ghost use Rattle.formats.specs.RuleChecks.{scratch_size};

use rule_laid::laid_linked;
use scratch::{LAID_MARKS_BASE, MATRICES_BASE};

// Whether a state is initial.
pub fn initial(kinds: &[u8], p: usize) -> bool
    requires { p < length kinds.now }
    ensures { result ≡ initial_at kinds.now p }
{
    if kinds[p] == 1 {
        return true;
    }
    if kinds[p] == 3 {
        return true;
    }
    false
}

// Whether entry (p, q) of matrix s is not 0 and entry (q, q) of matrix e is 2.
pub fn returns_at(scratch: &[u8], s: usize, e: usize, p: usize, q: usize) -> bool
    requires s_bound { (s < 64) × (e < 64) × (scratch_size ≤ length scratch.now) }
    requires p_bound { (p < 6) × (q < 6) }
    ensures { result ≡ returns_at (matrix_at scratch.now s) (matrix_at scratch.now e) p q }
{
    if scratch[MATRICES_BASE + (s * 64 + (p * 6 + q))] == 0 {
        return false;
    }
    if scratch[MATRICES_BASE + (e * 64 + (q * 6 + q))] == 2 {
        return true;
    }
    false
}

// Whether p is initial, and this holds for some q.
pub fn returns_from(kinds: &[u8], n: usize, scratch: &[u8], s: usize, e: usize, p: usize) -> bool
    requires pair_needs { PairNeeds kinds.now n scratch.now s e }
    requires p_lt_n { p < n }
    ensures { result ≡ returns_from (initial_states kinds.now n) (matrix_at scratch.now s) (matrix_at scratch.now e) p }
{
    if !initial(kinds, p) {
        return false;
    }
    // By number: states are the numbers below n.
    for q in 0..n {
        if returns_at(scratch, s, e, p, q) {
            return true;
        }
    }
    false
}

// Whether this holds for some p.
pub fn recurs(kinds: &[u8], n: usize, scratch: &[u8], s: usize, e: usize) -> bool
    requires { PairNeeds kinds.now n scratch.now s e }
    ensures { result ≡ recurs_test (initial_states kinds.now n) (matrix_at scratch.now s) (matrix_at scratch.now e) }
{
    // By number: states are the numbers below n.
    for p in 0..n {
        if returns_from(kinds, n, scratch, s, e, p) {
            return true;
        }
    }
    false
}

// The grade of every mark of an automaton.
const AUTOMATON_GRADE: u8 = 3;

// The byte of (s, e): that grade where the pair is to be marked, else 0.
pub fn mark_byte(kinds: &[u8], n: usize, scratch: &[u8], count: usize, s: usize, e: usize) -> u8
    requires mark_needs { MarkNeeds kinds.now n scratch.now count }
    requires s_lt_count { (s < count) × (e < count) }
    ensures { MarkByte kinds.now n count scratch.now s e result }
{
    if !laid_linked(scratch, count, s, e) {
        return 0;
    }
    if !recurs(kinds, n, scratch, s, e) {
        return 0;
    }
    AUTOMATON_GRADE
}

// The marks of the pairs that begin with s.
pub fn lay_marks_of(kinds: &[u8], n: usize, scratch: &mut [u8], count: usize, s: usize)
    requires mark_needs { MarkNeeds kinds.now n scratch.old count }
    requires s_lt_count { s < count }
    ensures { RowFilled (MarkByte kinds.now n count scratch.old s) (laid_marks_base + s * 64) count scratch.old scratch.new }
{
    let base = LAID_MARKS_BASE + s * 64;
    // By index: each byte is worked out from the slice that it is written to.
    for e in 0..count {
        let byte = mark_byte(kinds, n, scratch, count, s, e);
        scratch[base + e] = byte;
    }
}

// All marks.
pub fn lay_marks(kinds: &[u8], n: usize, scratch: &mut [u8], count: usize)
    requires { MarkNeeds kinds.now n scratch.old count }
    ensures { RowsFilled (MarkByte kinds.now n count scratch.old) laid_marks_base 64 count count scratch.old scratch.new }
{
    // By number: matrices are the numbers below count.
    for s in 0..count {
        lay_marks_of(kinds, n, scratch, count, s);
    }
}
