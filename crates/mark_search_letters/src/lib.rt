// The letters of an entry of the worklist handed over from the front to the back: a state is added for each value that a letter takes to the
// front.
#![tactic(auto)]

ghost use Rattle.std.specs.Prelude.{◌≡◌, ◌≤◌, ◌<◌};
ghost use Rattle.formats.proofs.Tables.{Table};
ghost use Rattle.formats.specs.Table.{morphism_at};
ghost use Rattle.mark_search_letters.specs.Steps.{before_letter, ExpandNeeds, Taken, Expanded};

use mark_search_list::add;
use rule_table::{image, product};
use scratch::{BACKS_BASE, FIRST_PREIMAGES_BASE, FRONTS_BASE, NEXT_PREIMAGES_BASE};

// The element of a letter and then the value with number y.
pub fn back_with(rule: &[u8], n: usize, k: usize, a: usize, y: usize) -> usize
    requires table { Table rule.now n k }
    requires a_lt_k { (a < k) × (y ≤ n) }
    ensures { result ≡ before_letter (morphism_at rule.now n k) a y }
{
    let h = image(rule, n, a);
    if y < n {
        return product(rule, n, h, y);
    }
    h
}

// Hands the letter a over: adds a state for each value that the letter takes to the front of the entry.
pub fn take_letter(
    rule: &[u8],
    n: usize,
    k: usize,
    scratch: &mut [u8],
    s: usize,
    count: usize,
    from: usize,
    a: usize,
) -> usize
    requires table { Table rule.now n k }
    requires expand_needs { ExpandNeeds (morphism_at rule.now n k) s scratch.old count from }
    requires a_lt_k { a < k }
    ensures { Taken (morphism_at rule.now n k) s scratch.old count from a scratch.new result }
{
    let x = scratch[FRONTS_BASE + from] as usize;
    let y = scratch[BACKS_BASE + from] as usize;
    let back = back_with(rule, n, k, a, y);
    let mut total = count;
    let mut rest = scratch[FIRST_PREIMAGES_BASE + (a * 65 + x)] as usize;
    // The values are followed one to another in scratch, so no range or iterator has them.
    while 0 < rest {
        let c = rest - 1;
        total = add(scratch, n, s, total, c, back, from, a);
        rest = scratch[NEXT_PREIMAGES_BASE + (a * 65 + c)] as usize;
    }
    total
}

// Hands every letter over.
pub fn expand(
    rule: &[u8],
    n: usize,
    k: usize,
    scratch: &mut [u8],
    s: usize,
    count: usize,
    from: usize,
) -> usize
    requires table { Table rule.now n k }
    requires expand_needs { ExpandNeeds (morphism_at rule.now n k) s scratch.old count from }
    ensures { Expanded (morphism_at rule.now n k) s scratch.old count from k scratch.new result }
{
    let mut total = count;
    // By number: letters are the numbers below k.
    for a in 0..k {
        total = take_letter(rule, n, k, scratch, s, total, from, a);
    }
    total
}
