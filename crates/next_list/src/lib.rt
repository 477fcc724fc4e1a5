// The classes of words for `next`: the pairs (value of what is behind the first letter, or none; value of the word) that non-empty words have, a search
// from the letters on, recorded as word_steps has it.
//
// Of class j the first value stands at byte 28672 + j, 64 for none, and the second at byte 28736 + j.
#![tactic(auto)]

ghost use Rattle.std.specs.Prelude.{◌≤◌, ◌<◌, length};
ghost use Rattle.finite.specs.Tells.{Tells};
ghost use Rattle.theory.specs.Rules.{Lawful};
ghost use Rattle.formats.proofs.Tables.{Table};
ghost use Rattle.formats.specs.Table.{morphism_at};
ghost use Rattle.formats.specs.RuleChecks.{scratch_size};
ghost use Rattle.next_list.specs.Pairs.{ValueNeeds, ValueBehind, Listing, PairBehind};
ghost use Rattle.next_list.specs.Adding.{HasPair, FoundPair, AddNeeds, Added};
ghost use Rattle.next_list.specs.Following.{Followed, EntryFollowed, NextListed};

use rule_table::{image, product};
use scratch::{NEXT_TAILS_BASE, NEXT_WHOLES_BASE};
use word_steps::record_step;

// The two values of a word, the first 64 for none: so the byte in scratch has it, and `value_of` in the contract reads it.
#[derive(Drop)]
pub struct Pair {
    pub tail: usize,
    pub whole: usize,
}

// The value of a word with a letter behind it, from that of the word, 64 for none, and the letter's element.
fn value_behind(rule: &[u8], n: usize, k: usize, value: usize, element: usize) -> usize
    requires table { Table rule.now n k }
    requires value_needs { ValueNeeds n value element }
    ensures { ValueBehind (morphism_at rule.now n k) value element result }
{
    if value == 64 {
        return element;
    }
    product(rule, n, value, element)
}

// The two values of an entry's word with a letter behind it.
fn pair_behind(
    rule: &[u8],
    n: usize,
    k: usize,
    scratch: &[u8],
    count: usize,
    from: usize,
    letter: usize,
) -> Pair
    requires table { Table rule.now n k }
    requires lawful { Lawful (morphism_at rule.now n k) }
    requires listing { Listing (morphism_at rule.now n k) scratch.now count from letter }
    requires from_le_count { (from ≤ count) × (letter < k) }
    ensures { PairBehind (morphism_at rule.now n k) scratch.now from letter result }
{
    let element = image(rule, n, letter);
    if from == 0 {
        return Pair {
            tail: 64,
            whole: element,
        };
    }
    let tail = scratch[NEXT_TAILS_BASE + (from - 1)] as usize;
    let whole = scratch[NEXT_WHOLES_BASE + (from - 1)] as usize;
    let behind = value_behind(rule, n, k, tail, element);
    Pair {
        tail: behind,
        whole: product(rule, n, whole, element),
    }
}

// Whether class i has two values.
fn same_pair(scratch: &[u8], i: usize, tail: usize, whole: usize) -> bool
    requires { (i < 64) × (scratch_size ≤ length scratch.now) }
    ensures { Tells (HasPair scratch.now i tail whole) result }
{
    scratch[NEXT_TAILS_BASE + i] as usize == tail && scratch[NEXT_WHOLES_BASE + i] as usize == whole
}

// The number of the class with two values, or none where no class has them.
fn find_pair(scratch: &[u8], count: usize, tail: usize, whole: usize) -> Option<usize>
    requires { (count ≤ 64) × (scratch_size ≤ length scratch.now) }
    ensures { FoundPair scratch.now count tail whole result }
{
    // By number: classes are the numbers below count.
    for i in 0..count {
        if same_pair(scratch, i, tail, whole) {
            return Some(i);
        }
    }
    None
}

// Adds the class with two values, unless it is there, and records the step that led to it: how many classes there are then, or none where
// there are more than 64.
fn add_pair(
    scratch: &mut [u8],
    count: usize,
    from: usize,
    letter: usize,
    tail: usize,
    whole: usize,
) -> Option<usize>
    requires { AddNeeds scratch.old count from letter tail whole }
    ensures { Added scratch.old scratch.new count from letter tail whole result }
{
    if let Some(at) = find_pair(scratch, count, tail, whole) {
        record_step(scratch, from, letter, at, count);
        return Some(count);
    }
    if 64 <= count {
        return None;
    }
    scratch[NEXT_TAILS_BASE + count] = tail as u8;
    scratch[NEXT_WHOLES_BASE + count] = whole as u8;
    record_step(scratch, from, letter, count, count);
    Some(count + 1)
}

// Follows one letter from an entry.
fn follow_letter(
    rule: &[u8],
    n: usize,
    k: usize,
    scratch: &mut [u8],
    count: usize,
    from: usize,
    letter: usize,
) -> Option<usize>
    requires table { Table rule.now n k }
    requires lawful { Lawful (morphism_at rule.now n k) }
    requires listing { Listing (morphism_at rule.now n k) scratch.old count from letter }
    requires from_le_count { (from ≤ count) × (letter < k) }
    ensures { Followed (morphism_at rule.now n k) scratch.old scratch.new count from letter result }
{
    let pair = pair_behind(rule, n, k, scratch, count, from, letter);
    add_pair(scratch, count, from, letter, pair.tail, pair.whole)
}

// Follows every letter from an entry.
fn follow_entry(
    rule: &[u8],
    n: usize,
    k: usize,
    scratch: &mut [u8],
    count: usize,
    from: usize,
) -> Option<usize>
    requires table { Table rule.now n k }
    requires lawful { Lawful (morphism_at rule.now n k) }
    requires listing { Listing (morphism_at rule.now n k) scratch.old count from 0 }
    requires from_le_count { from ≤ count }
    ensures { EntryFollowed (morphism_at rule.now n k) scratch.old scratch.new count from result }
{
    let mut total = count;
    // By number: letters are the numbers below k.
    for letter in 0..k {
        total = follow_letter(rule, n, k, scratch, total, from, letter)?;
    }
    Some(total)
}

// The classes of all non-empty words, each once, in the order of their first words: how many they are, or none where there are more than 64.
pub fn list_next(rule: &[u8], n: usize, k: usize, scratch: &mut [u8]) -> Option<usize>
    requires table { Table rule.now n k }
    requires lawful { Lawful (morphism_at rule.now n k) }
    requires scratch_size_in_bounds { scratch_size ≤ length scratch.old }
    ensures { NextListed (morphism_at rule.now n k) scratch.old scratch.new result }
{
    let mut count = 0;
    let mut from = 0;
    // A while: the list grows on the way, so that no range has its entries beforehand. As in until_list, over other bytes: a loop for both would
    // take the step as a closure that changes what is lent to it, and what that did would have to be a law of a trait.
    while from <= count {
        count = follow_entry(rule, n, k, scratch, count, from)?;
        from += 1;
    }
    Some(count)
}
