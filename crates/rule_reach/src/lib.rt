// Which elements are values of words: a worklist from the letters. Elements are found in the order of their first words (the
// shorter first, then letter order), each with the entry and the letter that it was found by.
//
// The worklist stands in 256 lent bytes. Entry 0 is the empty word and has no bytes of its own; entry i + 1 has its element
// at byte i, the number of the entry before it at 64 + i, and the letter at 128 + i. Byte 192 + s is the number of the entry
// of element s, or 0 while s is not found.
#![tactic(auto)]

ghost use Rattle.std.specs.Prelude.{◌≡◌, ◌≤◌, length};
ghost use Rattle.formats.proofs.Tables.{Table};
ghost use Rattle.rule_reach.specs.Reach.{Empty, WordOrder, WithoutAnswer};
ghost use Rattle.rule_reach.specs.Steps.{AddNeeds, Added, StepNeeds, step_at};
ghost use Rattle.rule_reach.specs.Searching.{Searching, Expanded};

use rule_table::{image, product};

// Adds an element that was found from entry `from` by a letter, unless it is there.
fn add(queue: &mut [u8], count: usize, s: usize, from: usize, letter: usize) -> usize
    requires { AddNeeds queue.old count s from letter }
    ensures { Added queue.old queue.new count s from letter result }
{
    if 0 < queue[192 + s] {
        return count;
    }
    queue[count] = s as u8;
    queue[64 + count] = from as u8;
    queue[128 + count] = letter as u8;
    queue[192 + s] = (count + 1) as u8;
    count + 1
}

// The element after entry `from` and a letter.
pub fn step(rule: &[u8], n: usize, queue: &[u8], from: usize, letter: usize) -> usize
    requires { StepNeeds rule.now n queue.now from letter }
    ensures { result ≡ step_at rule.now n queue.now from letter }
{
    let h = image(rule, n, letter);
    if from == 0 {
        return h;
    }
    product(rule, n, queue[from - 1] as usize, h)
}

// Adds what is found from one entry by every letter.
fn expand(rule: &[u8], n: usize, k: usize, queue: &mut [u8], count: usize, from: usize) -> usize
    requires table { Table rule.now n k }
    requires searching { Searching rule.now n k queue.old count from 0 }
    requires from_le_count { from ≤ count }
    ensures { Expanded rule.now n k queue.old queue.new from result }
{
    let mut found = count;
    // By number: letters are the numbers below k.
    for letter in 0..k {
        let s = step(rule, n, queue, from, letter);
        found = add(queue, found, s, from, letter);
    }
    found
}

// All elements that are values of words, in the order of their first words; answers how many there are.
pub fn reach(rule: &[u8], n: usize, k: usize, queue: &mut [u8]) -> usize
    requires table { Table rule.now n k }
    requires empty { Empty queue.old }
    ensures { WordOrder rule.now n k queue.old queue.new result }
{
    let mut count = 0;
    let mut from = 0;
    // A while: the list grows on the way, so that no range has its entries beforehand.
    while from <= count {
        count = expand(rule, n, k, queue, count, from);
        from += 1;
    }
    count
}

// The least element that was not found.
pub fn least_without(queue: &[u8], n: usize) -> Option<usize>
    requires n_bound { n ≤ 64 }
    requires in_bounds { 256 ≤ length queue.now }
    ensures { WithoutAnswer queue.now n result }
{
    for s in 0..n {
        if queue[192 + s] == 0 {
            return Some(s);
        }
    }
    None
}
