// The search at one start value: it begins with each cycle value that the first marking pairs with the start value, and tries one entry of the
// worklist after the other until one has an empty front.
#![tactic(auto)]

ghost use Rattle.formats.proofs.Tables.{Table};
ghost use Rattle.formats.specs.Table.{morphism_at};
ghost use Rattle.theory.specs.Rules.{level};
ghost use Rattle.scratch.specs.Map.{marks_from};
ghost use Rattle.mark_search_run.specs.Search.{SearchNeeds, RunNeeds, Searching, Searched};

use mark_search_begin::begin;
use mark_search_visit::visit;
use scratch::FRONTS_BASE;

// Goes through the entries from the first on, and those that are added: the entry that ends the search.
fn run(
    rule: &[u8],
    n: usize,
    k: usize,
    scratch: &mut [u8],
    first: usize,
    second: usize,
    least: u8,
    s: usize,
    begun: usize,
) -> Option<usize>
    requires table { Table rule.now n k }
    requires run_needs { RunNeeds (morphism_at rule.now n k) first second s }
    requires searching { Searching (morphism_at rule.now n k) (level least (marks_from scratch.old first)) (level least (marks_from scratch.old second)) s scratch.old scratch.old begun 0 }
    ensures { Searched (morphism_at rule.now n k) least first second s scratch.old scratch.new result }
{
    let mut count = begun;
    let mut at = 0;
    // No range, for `visit` adds entries while they are gone through.
    while at < count {
        let x = scratch[FRONTS_BASE + at] as usize;
        if x == n {
            return Some(at);
        }
        count = visit(rule, n, k, scratch, second, least, s, count, at);
        at += 1;
    }
    None
}

// Searches for a cycle that escapes at the start value s: the entry that ends the search.
pub fn search_from(
    rule: &[u8],
    n: usize,
    k: usize,
    scratch: &mut [u8],
    first: usize,
    second: usize,
    least: u8,
    s: usize,
) -> Option<usize>
    requires table { Table rule.now n k }
    requires search_needs { SearchNeeds (morphism_at rule.now n k) first second s scratch.old }
    ensures { Searched (morphism_at rule.now n k) least first second s scratch.old scratch.new result }
{
    let begun = begin(scratch, n, s, first, least);
    run(rule, n, k, scratch, first, second, least, s, begun)
}
