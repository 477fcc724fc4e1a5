// The matrices of an automaton's words: the matrix of a letter, how a matrix stands in lent bytes, and whether the one that stands
// there is the same.
#![tactic(auto)]

ghost use Rattle.std.specs.Prelude.{◌≡◌, ◌+◌, ◌≤◌, ◌<◌, length};
ghost use Rattle.buchi.proofs.MatrixTests.{same_test};
ghost use Rattle.automaton_products.specs.Arrays.{entry_in, RowOf};
ghost use Rattle.automaton_matrices.specs.Bytes.{LetterNeeds, EntryNeeds, letter_entry, IsLetter, MatrixNeeds, matrix_from, bytes_from, same_bytes, Loaded, Stored, RowStored};

// An entry of the matrix of a letter: 2 where a transition has a final end, 1 for another transition, 0 where there is none.
fn letter_entry(kinds: &[u8], steps: &[u8], letter: usize, p: usize, q: usize) -> u8
    requires { EntryNeeds kinds.now steps.now letter p q }
    ensures { result ≡ letter_entry kinds.now steps.now letter p q }
{
    if steps[p * 96 + (letter * 6 + q)] == 0 {
        return 0;
    }
    if 1 < kinds[p] {
        return 2;
    }
    if 1 < kinds[q] {
        return 2;
    }
    1
}

// A row of the matrix of a letter.
fn letter_row(kinds: &[u8], n: usize, steps: &[u8], letter: usize, p: usize) -> [u8; 6]
    requires letter_needs { LetterNeeds kinds.now n steps.now letter }
    requires p_lt_n { p < n }
    ensures { RowOf (letter_entry kinds.now steps.now letter p) n result }
{
    let mut row = [0u8; 6];
    // By index: an entry is worked out from its number, so that enumerate and take would be no plainer.
    for q in 0..n {
        row[q] = letter_entry(kinds, steps, letter, p, q);
    }
    row
}

// The matrix of a letter. The byte of `steps` at p · 96 + (letter · 6 + q) is not 0 where there is a transition from p to q.
pub fn letter_matrix(kinds: &[u8], n: usize, steps: &[u8], letter: usize) -> [[u8; 6]; 6]
    requires { LetterNeeds kinds.now n steps.now letter }
    ensures { IsLetter kinds.now n steps.now letter result }
{
    let mut out = [[0u8; 6]; 6];
    // By index: a row is worked out from its number, so that enumerate and take would be no plainer.
    for p in 0..n {
        out[p] = letter_row(kinds, n, steps, letter, p);
    }
    out
}

// Whether the first n entries of a row are the bytes from one on.
fn same_bytes(scratch: &[u8], at: usize, n: usize, row: &[u8; 6]) -> bool
    requires { (n ≤ 6) × (at + 6 ≤ length scratch.now) }
    ensures { result ≡ same_bytes scratch.now at n row.now }
{
    &row[..n] == &scratch[at..at + n]
}

// Whether matrix i of the list that begins at a byte has the same entries over n states. It is compared where it stands, up to the
// first row that differs.
pub fn same_stored(scratch: &[u8], base: usize, i: usize, n: usize, m: &[[u8; 6]; 6]) -> bool
    requires { (n ≤ 6) × MatrixNeeds scratch.now base i }
    ensures { result ≡ same_test n (entry_in m.now) (matrix_from scratch.now base i) }
{
    // By number: each row is compared with the bytes at its place in scratch.
    for p in 0..n {
        if !same_bytes(scratch, base + (i * 64 + p * 6), n, &m[p]) {
            return false;
        }
    }
    true
}

// Six bytes as a row.
fn load_row(scratch: &[u8], at: usize) -> [u8; 6]
    requires { at + 6 ≤ length scratch.now }
    ensures { RowOf (bytes_from scratch.now at) 6 result }
{
    let mut row = [0u8; 6];
    row.copy_from_slice(&scratch[at..at + 6]);
    row
}

// Matrix i of the list that begins at a byte: 64 bytes a matrix, the entry (p, q) at p · 6 + q.
pub fn load_matrix(scratch: &[u8], base: usize, i: usize) -> [[u8; 6]; 6]
    requires { MatrixNeeds scratch.now base i }
    ensures { Loaded scratch.now base i result }
{
    let mut out = [[0u8; 6]; 6];
    for (p, row) in out.iter_mut().enumerate() {
        *row = load_row(scratch, base + (i * 64 + p * 6));
    }
    out
}

// Writes a row to six bytes.
fn store_row(scratch: &mut [u8], at: usize, row: &[u8; 6])
    requires { at + 6 ≤ length scratch.old }
    ensures { RowStored scratch.old scratch.new at row.now 6 }
{
    scratch[at..at + 6].copy_from_slice(row);
}

// Writes matrix i of the list that begins at a byte.
pub fn store_matrix(scratch: &mut [u8], base: usize, i: usize, m: [[u8; 6]; 6])
    requires { MatrixNeeds scratch.old base i }
    ensures { Stored scratch.old scratch.new base i m 6 }
{
    for (p, row) in m.iter().enumerate() {
        store_row(scratch, base + (i * 64 + p * 6), row);
    }
}
