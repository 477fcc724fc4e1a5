// All matrices of an automaton's non-empty words: a worklist from the letters' matrices, each matrix of the list multiplied with
// those of the letters, over two states by the table of products that is lent. Where each letter leads, and how each matrix was found,
// is recorded on the way.
//
// The bytes of the transitions stand in scratch up to byte 576. The list begins at byte 8192 and takes 64 bytes a matrix, so that
// 64 matrices end at byte 12288. What is recorded stands behind it, as automaton_matrix_search has it, and ends before byte 16384.
#![tactic(auto)]

ghost use Rattle.std.specs.Prelude.{◌+◌, ◌≤◌, ◌<◌};
ghost use Rattle.automaton_matrix_search.specs.Lists.{ListNeeds, MatricesAnswer};
ghost use Rattle.automaton_matrix_search.specs.Steps.{Followed, LetterList, ProductsAdded, ListClosed};
ghost use Rattle.automaton_ready_products.specs.Ready.{LentTable};

use automaton_matrices::{letter_matrix, load_matrix};
use automaton_matrix_search::add_step;
use automaton_ready_products::any_product;
use scratch::{MATRICES_BASE, STEPS_BASE};

// Adds the matrix of every letter.
fn add_letters(kinds: &[u8], n: usize, k: usize, scratch: &mut [u8]) -> Option<usize>
    requires { ListNeeds kinds.now n k scratch.old }
    ensures { Followed kinds.now n k scratch.old 0 0 scratch.new result }
{
    let mut total = 0;
    // By number: letters are the numbers below k.
    for letter in 0..k {
        let m = letter_matrix(kinds, n, scratch, letter);
        total = add_step(scratch, n, total, 0, letter, m)?;
    }
    Some(total)
}

// Adds the product of one matrix of the list with the matrix of every letter, which is read from the list by its number.
fn add_products(
    n: usize,
    k: usize,
    scratch: &mut [u8],
    count: usize,
    from: usize,
    table: &[u8],
) -> Option<usize>
    requires letter_list { LetterList n k scratch.old count }
    requires from_lt_count { from < count }
    requires lent_table { LentTable table.now }
    ensures { ProductsAdded n k scratch.old count (from + 1) scratch.new result }
{
    let left = load_matrix(scratch, MATRICES_BASE, from);
    let mut total = count;
    // By number: each letter's matrix is read from the list, which grows on the way.
    for letter in 0..k {
        let at = scratch[STEPS_BASE + letter] as usize;
        let right = load_matrix(scratch, MATRICES_BASE, at);
        let m = any_product(n, left, right, table);
        total = add_step(scratch, n, total, from + 1, letter, m)?;
    }
    Some(total)
}

// Goes through the list, from its first matrix to those that are added.
fn close_list(n: usize, k: usize, scratch: &mut [u8], begun: usize, table: &[u8]) -> Option<usize>
    requires letter_list { LetterList n k scratch.old begun }
    requires le_k { 1 ≤ k }
    requires lent_table { LentTable table.now }
    ensures { ListClosed n k scratch.old begun scratch.new result }
{
    let mut count = begun;
    let mut from = 0;
    // A while: the list grows on the way, so that no range has its entries beforehand.
    while from < count {
        count = add_products(n, k, scratch, count, from, table)?;
        from += 1;
    }
    Some(count)
}

// The matrices of all non-empty words, each once: how many they are, or none where there are more than 64.
pub fn list_matrices(
    kinds: &[u8],
    n: usize,
    k: usize,
    scratch: &mut [u8],
    table: &[u8],
) -> Option<usize>
    requires list_needs { ListNeeds kinds.now n k scratch.old }
    requires le_k { 1 ≤ k }
    requires lent_table { LentTable table.now }
    ensures { MatricesAnswer kinds.now n k scratch.old scratch.new result }
{
    let begun = add_letters(kinds, n, k, scratch)?;
    close_list(n, k, scratch, begun, table)
}
