// The classes of words for `until`: a search from the letters on, recorded as word_steps has it. The table of the pairs of two rules and the grades of both
// at each context stand in scratch, as until_step has them.
#![tactic(auto)]

ghost use Rattle.until_list.specs.Adding.{AddNeeds, Added};
ghost use Rattle.until_list.specs.Following.{LetterReady, EntryReady, EntryListed, ListReady, Followed, EntryFollowed, EntryGrown, UntilListed};

use scratch::{LAID_IMAGES_BASE, UNTIL_PAIRS_BASE};
use until_search::{find_class, store_class};
use until_step::{class_rows, pair_behind, step_rows};
use word_steps::record_step;

// Adds the class that is worked out, with its pair, unless it is there, and records the step that led to it: how many classes there are
// then, or none where there are more than 64.
fn add_class(
    classes: &mut [u8],
    scratch: &mut [u8],
    np: usize,
    count: usize,
    from: usize,
    letter: usize,
    pair: usize,
) -> Option<usize>
    requires { AddNeeds np count from letter pair scratch.old classes.old }
    ensures { Added np scratch.old scratch.new classes.old classes.new count from letter pair result }
{
    if let Some(at) = find_class(classes, scratch, np, count, pair) {
        record_step(scratch, from, letter, at, count);
        return Some(count);
    }
    if 64 <= count {
        return None;
    }
    store_class(classes, scratch, np, count);
    scratch[UNTIL_PAIRS_BASE + count] = pair as u8;
    record_step(scratch, from, letter, count, count);
    Some(count + 1)
}

// Follows one letter from an entry, what the entry makes of the grades being worked out.
fn follow_letter(
    classes: &mut [u8],
    scratch: &mut [u8],
    np: usize,
    k: usize,
    count: usize,
    from: usize,
    letter: usize,
) -> Option<usize>
    requires { LetterReady np k scratch.old classes.old count from letter }
    ensures { Followed np k scratch.old scratch.new classes.old classes.new count from letter result }
{
    let element = scratch[LAID_IMAGES_BASE + letter] as usize;
    class_rows(scratch, np, element);
    let pair = pair_behind(scratch, np, from, element);
    add_class(classes, scratch, np, count, from, letter, pair)
}

// Follows every letter from an entry.
fn follow_letters(
    classes: &mut [u8],
    scratch: &mut [u8],
    np: usize,
    k: usize,
    count: usize,
    from: usize,
) -> Option<usize>
    requires { EntryReady np k scratch.old classes.old count from }
    ensures { EntryFollowed np k scratch.old scratch.new classes.old classes.new count from result }
{
    let mut total = count;
    // By number: letters are the numbers below k.
    for letter in 0..k {
        total = follow_letter(classes, scratch, np, k, total, from, letter)?;
    }
    Some(total)
}

// Works out what an entry makes of the grades, and follows every letter from it.
fn follow_entry(
    classes: &mut [u8],
    scratch: &mut [u8],
    np: usize,
    k: usize,
    count: usize,
    from: usize,
) -> Option<usize>
    requires { EntryListed np k scratch.old classes.old count from }
    ensures { EntryGrown np k scratch.old scratch.new classes.old classes.new count from result }
{
    step_rows(classes, scratch, np, from);
    follow_letters(classes, scratch, np, k, count, from)
}

// The classes of all non-empty words, each once, in the order of their first words: how many they are, or none where there are more than 64.
pub fn list_until(classes: &mut [u8], scratch: &mut [u8], np: usize, k: usize) -> Option<usize>
    requires { ListReady np k scratch.old classes.old }
    ensures { UntilListed np k scratch.old scratch.new classes.old classes.new result }
{
    let mut count = 0;
    let mut from = 0;
    // A while: the list grows on the way, so that no range has its entries beforehand. As in next_list, over other bytes: a loop for both would
    // take the step as a closure that changes what is lent to it, and what that did would have to be a law of a trait.
    while from <= count {
        count = follow_entry(classes, scratch, np, k, count, from)?;
        from += 1;
    }
    Some(count)
}
