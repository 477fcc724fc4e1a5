// An entry of the worklist tried: where the second marking has its split nothing is added, else every letter is handed over from the
// front to the back.
#![tactic(auto)]

ghost use Rattle.std.specs.Prelude.{◌≡◌, ◌≤◌, ◌<◌, length};
ghost use Rattle.formats.proofs.Tables.{Table};
ghost use Rattle.formats.specs.Table.{morphism_at};
ghost use Rattle.theory.proofs.Codes.{value_coded};
ghost use Rattle.theory.proofs.Turns.{turned};
ghost use Rattle.theory.specs.Rules.{level};
ghost use Rattle.scratch.specs.Map.{marks_from, second_base};
ghost use Rattle.mark_search_letters.specs.Steps.{ExpandNeeds};
ghost use Rattle.mark_search_visit.specs.Visits.{split_marked, Visited};
ghost use Rattle.formats.specs.RuleChecks.{scratch_size};

use mark_search_letters::expand;
use rule_table::product;
use scratch::{BACKS_BASE, FRONTS_BASE};

// The value with number y and then the element x.
fn turn(rule: &[u8], n: usize, k: usize, x: usize, y: usize) -> usize
    requires table { Table rule.now n k }
    requires x_lt_n { (x < n) × (y ≤ n) }
    ensures { result ≡ turned (morphism_at rule.now n k) (value_coded n y) x }
{
    if y < n {
        return product(rule, n, y, x);
    }
    x
}

// Whether the second marking has the split with x in front and y behind: the pair (s·x, (y·x)²).
fn split_marked(
    rule: &[u8],
    n: usize,
    k: usize,
    scratch: &[u8],
    second: usize,
    least: u8,
    s: usize,
    x: usize,
    y: usize,
) -> bool
    requires table { Table rule.now n k }
    requires s_lt_n { (s < n) × (x < n) × (y ≤ n) }
    requires second_le_second_base { (second ≤ second_base) × (scratch_size ≤ length scratch.now) }
    ensures { result ≡ split_marked (morphism_at rule.now n k) (level least (marks_from scratch.now second)) s x y }
{
    let turned = turn(rule, n, k, x, y);
    let f = product(rule, n, turned, turned);
    let t = product(rule, n, s, x);
    least <= scratch[second + (t * 64 + f)]
}

// Tries an entry that has an element in front.
pub fn visit(
    rule: &[u8],
    n: usize,
    k: usize,
    scratch: &mut [u8],
    second: usize,
    least: u8,
    s: usize,
    count: usize,
    from: usize,
) -> usize
    requires table { Table rule.now n k }
    requires expand_needs { ExpandNeeds (morphism_at rule.now n k) s scratch.old count from }
    requires second_le_second_base { second ≤ second_base }
    ensures { Visited (morphism_at rule.now n k) (level least (marks_from scratch.old second)) s scratch.old count from scratch.new result }
{
    let x = scratch[FRONTS_BASE + from] as usize;
    let y = scratch[BACKS_BASE + from] as usize;
    if split_marked(rule, n, k, scratch, second, least, s, x, y) {
        return count;
    }
    expand(rule, n, k, scratch, s, count, from)
}
