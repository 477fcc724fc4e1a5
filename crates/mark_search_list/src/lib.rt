// The worklist of the search that compares two markings: states are added with the entry and the letter that they were found by,
// each once at a start value. Where all of it stands in scratch is said in scratch/specs/Map.
#![tactic(auto)]

ghost use Rattle.mark_search_list.specs.Steps.{StoreNeeds, Stored, AddNeeds, Added};

use scratch::{
    BACKS_BASE, FRONTS_BASE, LETTERS_BASE, PARENTS_HIGH_BASE, PARENTS_LOW_BASE, STATES_BASE,
};

// Writes an entry of the worklist.
pub fn store(scratch: &mut [u8], count: usize, x: usize, y: usize, from: usize, letter: usize)
    requires { StoreNeeds scratch.old count x y from letter }
    ensures { Stored scratch.old scratch.new count x y from letter }
{
    scratch[FRONTS_BASE + count] = x as u8;
    scratch[BACKS_BASE + count] = y as u8;
    scratch[LETTERS_BASE + count] = letter as u8;
    scratch[PARENTS_LOW_BASE + count] = (from % 256) as u8;
    scratch[PARENTS_HIGH_BASE + count] = (from / 256) as u8;
}

// Adds a state that was found from an entry by a letter, unless it is there.
pub fn add(
    scratch: &mut [u8],
    n: usize,
    s: usize,
    count: usize,
    x: usize,
    y: usize,
    from: usize,
    letter: usize,
) -> usize
    requires { AddNeeds n s scratch.old count x y from letter }
    ensures { Added n s scratch.old count x y from letter scratch.new result }
{
    let place = STATES_BASE + (x * 65 + y);
    let seen = scratch[place] as usize;
    if seen == s + 1 {
        return count;
    }
    scratch[place] = (s + 1) as u8;
    store(scratch, count, x, y, from, letter);
    count + 1
}
