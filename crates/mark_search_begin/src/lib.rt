// What the search that compares two markings begins with: each cycle value that the first marking pairs with the start value, added to
// the worklist.
#![tactic(auto)]

ghost use Rattle.std.specs.Prelude.{◌<◌};
ghost use Rattle.theory.specs.Rules.{level};
ghost use Rattle.scratch.specs.Map.{marks_from};
ghost use Rattle.mark_search_begin.specs.Steps.{BeginNeeds, BegunWith, Begun};

use mark_search_list::add;

// Adds the state with e in front where the mark of the pair (s, e) is the least grade or more.
pub fn begin_with(
    scratch: &mut [u8],
    n: usize,
    s: usize,
    first: usize,
    least: u8,
    e: usize,
    count: usize,
) -> usize
    requires begin_needs { BeginNeeds n s scratch.old first count }
    requires e_lt_n { e < n }
    ensures { BegunWith n s (level least (marks_from scratch.old first)) e scratch.old count scratch.new result }
{
    let mark = scratch[first + (s * 64 + e)];
    if least <= mark {
        return add(scratch, n, s, count, e, n, 0, 0);
    }
    count
}

// Adds every state that the search begins with.
pub fn begin(scratch: &mut [u8], n: usize, s: usize, first: usize, least: u8) -> usize
    requires { BeginNeeds n s scratch.old first 0 }
    ensures { Begun n s (level least (marks_from scratch.old first)) n scratch.old scratch.new result }
{
    let mut count = 0;
    // By number: elements are the numbers below n.
    for e in 0..n {
        count = begin_with(scratch, n, s, first, least, e, count);
    }
    count
}
