// The pairs of values that non-empty words have in two rules: a worklist from the letters. Pairs are found in the order of their
// first words (the shorter first, then letter order), each with the entry and the letter that it was found by.
//
// The worklist stands in scratch. Entry 0 is the empty word and has no bytes of its own; entry i + 1 is pair i of the list and has its
// halves at bytes 12288 + i and 12352 + i, the number of the entry before it at 12416 + i, and the letter at 12480 + i. Byte
// 8192 + (s·64 + t) is the number of the entry of the pair (s, t), or 0 while that is not found.
#![tactic(auto)]

ghost use Rattle.std.specs.Prelude.{◌≤◌, ◌<◌};
ghost use Rattle.pair_list.specs.Pairs.{TwoTables, Empty, PairsAnswer};
ghost use Rattle.pair_list.specs.Steps.{AddNeeds, Added};
ghost use Rattle.pair_list.specs.Searching.{Trying, Tried, Expanded};

use rule_reach::step;
use scratch::{
    PAIR_LEFTS_BASE, PAIR_LETTERS_BASE, PAIR_NUMBERS_BASE, PAIR_PARENTS_BASE, PAIR_RIGHTS_BASE,
};

// Adds a pair that was found from entry `from` by a letter, unless it is there: how many pairs there are then, or none where there are
// more than 64.
fn add_pair(
    scratch: &mut [u8],
    count: usize,
    s: usize,
    t: usize,
    from: usize,
    letter: usize,
) -> Option<usize>
    requires { AddNeeds scratch.old count s t from letter }
    ensures { Added scratch.old scratch.new count s t from letter result }
{
    if 0 < scratch[PAIR_NUMBERS_BASE + (s * 64 + t)] {
        return Some(count);
    }
    if 64 <= count {
        return None;
    }
    scratch[PAIR_LEFTS_BASE + count] = s as u8;
    scratch[PAIR_RIGHTS_BASE + count] = t as u8;
    scratch[PAIR_PARENTS_BASE + count] = from as u8;
    scratch[PAIR_LETTERS_BASE + count] = letter as u8;
    scratch[PAIR_NUMBERS_BASE + (s * 64 + t)] = (count + 1) as u8;
    Some(count + 1)
}

// Tries a letter at entry `from`: the halves after it are found as in each rule's own worklist, and their pair is added.
fn try_letter(
    first: &[u8],
    n1: usize,
    second: &[u8],
    n2: usize,
    k: usize,
    scratch: &mut [u8],
    count: usize,
    from: usize,
    letter: usize,
) -> Option<usize>
    requires two_tables { TwoTables first.now n1 second.now n2 k }
    requires trying { Trying first.now n1 second.now n2 k scratch.old count from letter }
    requires letter_lt_k { letter < k }
    ensures { Tried first.now n1 second.now n2 k scratch.old scratch.new from letter result }
{
    let s = step(first, n1, &scratch[PAIR_LEFTS_BASE..], from, letter);
    let t = step(second, n2, &scratch[PAIR_RIGHTS_BASE..], from, letter);
    add_pair(scratch, count, s, t, from, letter)
}

// Tries every letter at entry `from`.
fn expand(
    first: &[u8],
    n1: usize,
    second: &[u8],
    n2: usize,
    k: usize,
    scratch: &mut [u8],
    count: usize,
    from: usize,
) -> Option<usize>
    requires two_tables { TwoTables first.now n1 second.now n2 k }
    requires trying { Trying first.now n1 second.now n2 k scratch.old count from 0 }
    ensures { Expanded first.now n1 second.now n2 k scratch.old scratch.new from result }
{
    let mut total = count;
    // By number: letters are the numbers below k.
    for letter in 0..k {
        total = try_letter(first, n1, second, n2, k, scratch, total, from, letter)?;
    }
    Some(total)
}

// The pairs of values of all non-empty words, each once, in the order of their first words: how many they are, or none where there are
// more than 64.
pub fn list_pairs(
    first: &[u8],
    n1: usize,
    second: &[u8],
    n2: usize,
    k: usize,
    scratch: &mut [u8],
) -> Option<usize>
    requires two_tables { TwoTables first.now n1 second.now n2 k }
    requires empty { Empty scratch.old }
    requires le_k { 1 ≤ k }
    ensures { PairsAnswer first.now n1 second.now n2 k scratch.old scratch.new result }
{
    let mut count = 0;
    let mut from = 0;
    // A while: the list grows on the way, so that no range has its entries beforehand.
    while from <= count {
        count = expand(first, n1, second, n2, k, scratch, count, from)?;
        from += 1;
    }
    Some(count)
}
