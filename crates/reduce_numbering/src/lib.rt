// Numbers the blocks of a rule's elements in the order of the first words of their elements: the elements are gone through in
// the order in which the search of words finds them, and a block gets the next number when its first element is met.
#![tactic(auto)]

ghost use Rattle.std.specs.Prelude.{◌≤◌, ◌<◌, length};
ghost use Rattle.theory.specs.Rules.{Lawful, AllReached};
ghost use Rattle.formats.proofs.Tables.{Table};
ghost use Rattle.formats.specs.Table.{morphism_at};
ghost use Rattle.reduce_numbering.specs.Steps.{Sought, Taken, Entries, Numbered};
ghost use Rattle.reduce_numbering.specs.Numbering.{BlocksNumbered};
ghost use Rattle.formats.specs.RuleChecks.{scratch_size};

use rule_reach::reach;
use scratch::{BLOCKS_BASE, LEADERS_BASE, NUMBERS_BASE};

// The number of the block of s, or c where none of the c blocks that have a number is its.
fn find(scratch: &[u8], c: usize, s: usize) -> usize
    requires c_bound { (c ≤ 64) × (s < 64) }
    requires scratch_size_in_bounds { scratch_size ≤ length scratch.now }
    ensures { Sought scratch.now c s result }
{
    let block = scratch[BLOCKS_BASE + s];
    for (j, leader) in scratch[LEADERS_BASE..LEADERS_BASE + c].iter().enumerate() {
        if scratch[BLOCKS_BASE + *leader as usize] == block {
            return j;
        }
    }
    c
}

// Gives s the number of its block, and a block that has none the next one, with s for its leader. Answers how many have one.
fn number_element(scratch: &mut [u8], c: usize, s: usize) -> usize
    requires c_bound { (c < 64) × (s < 64) }
    requires scratch_size_in_bounds { scratch_size ≤ length scratch.old }
    ensures { Taken scratch.old scratch.new c s result }
{
    let j = find(scratch, c, s);
    scratch[NUMBERS_BASE + s] = j as u8;
    if j < c {
        return c;
    }
    scratch[LEADERS_BASE + c] = s as u8;
    c + 1
}

// Goes through the entries of a worklist.
fn number_elements(queue: &[u8], n: usize, count: usize, scratch: &mut [u8]) -> usize
    requires entries { Entries queue.now n count }
    requires scratch_size_in_bounds { scratch_size ≤ length scratch.old }
    ensures { Numbered queue.now n count result scratch.old scratch.new }
{
    let mut c = 0;
    for s in &queue[..count] {
        c = number_element(scratch, c, *s as usize);
    }
    c
}

// Numbers the blocks whose least elements stand from 12288 on: the number of the block of s comes to 12416 + s, and the element
// of block j with the first word to 12480 + j. Answers how many blocks there are.
pub fn number_blocks(rule: &[u8], n: usize, k: usize, scratch: &mut [u8]) -> usize
    requires table { Table rule.now n k }
    requires lawful { Lawful (morphism_at rule.now n k) }
    requires all_reached { AllReached (morphism_at rule.now n k) }
    requires scratch_size_in_bounds { scratch_size ≤ length scratch.old }
    ensures { BlocksNumbered (morphism_at rule.now n k) result scratch.old scratch.new }
{
    let mut queue = [0u8; 256];
    let count = reach(rule, n, k, &mut queue);
    number_elements(&queue, n, count, scratch)
}
