// Writing the cycle that the search found: the letters of the entry that ended it and of the entries that it was found from, one
// after the other.
#![tactic(auto)]

ghost use Rattle.std.specs.Prelude.{◌≡◌, ◌≤◌, ◌<◌, length};
ghost use Rattle.mark_search_list.specs.Queue.{parent_at};
ghost use Rattle.mark_cycles.specs.Cycles.{CycleNeeds, CycleWritten};
ghost use Rattle.formats.specs.RuleChecks.{scratch_size};

use scratch::{BACKS_BASE, LETTERS_BASE, PARENTS_HIGH_BASE, PARENTS_LOW_BASE};

// The entry that an entry was found from.
fn parent(scratch: &[u8], i: usize) -> usize
    requires { (scratch_size ≤ length scratch.now) × (i < 4225) }
    ensures { result ≡ parent_at scratch.now i }
{
    let low = scratch[PARENTS_LOW_BASE + i];
    let high = scratch[PARENTS_HIGH_BASE + i];
    u16::from_le_bytes([low, high]) as usize
}

// Writes the cycle of an entry to the front of a buffer, and answers how many letters it has.
pub fn write_cycle(scratch: &[u8], n: usize, entry: usize, out: &mut [u8]) -> usize
    requires { CycleNeeds n scratch.now entry out.old }
    ensures { CycleWritten n scratch.now entry out.old out.new result }
{
    let mut i = entry;
    let mut letters = 0;
    // The entries are followed one to another, so no range or iterator has them.
    while scratch[BACKS_BASE + i] as usize != n {
        out[letters] = scratch[LETTERS_BASE + i];
        letters += 1;
        i = parent(scratch, i);
    }
    letters
}
