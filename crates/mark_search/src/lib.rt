// The search that compares two markings of one table at a least grade and a start value s (theory/proofs/Escapes): a marking has
// the pairs of that grade or more. A state is the value in front
// of a split of a cycle and the value behind it. The search begins with each cycle value that the first marking pairs with s, and
// hands letters over from the front to the back wherever the second marking does not have the split; it ends with an empty front.
//
// The worklist stands in scratch, as scratch/specs/Map says: fronts from 8192, backs from 16384, letters from 24576, parents
// from 32768 (low byte) and 40960 (high byte), and from 49152 a byte for each state.
#![tactic(auto)]

ghost use Rattle.formats.proofs.Tables.{Table};
ghost use Rattle.formats.specs.Table.{morphism_at};
ghost use Rattle.mark_search.specs.Search.{AllNeeds, EscapeNeeds, Escaped};

use mark_preimages::list_preimages;
use mark_search_run::search_from;
use scratch::{NEXT_PREIMAGES_BASE, STATES_BASE};
use sections::zero_part;

// A start value with a cycle that escapes, and the entry that ended its search.
#[derive(Clone, Copy)]
pub struct Escape {
    pub start: usize,
    pub entry: usize,
}

// Searches at one start value after the other.
fn search_all(
    rule: &[u8],
    n: usize,
    k: usize,
    scratch: &mut [u8],
    first: usize,
    second: usize,
    least: u8,
) -> Option<Escape>
    requires table { Table rule.now n k }
    requires all_needs { AllNeeds (morphism_at rule.now n k) first second scratch.old }
    ensures { Escaped (morphism_at rule.now n k) least first second scratch.old scratch.new result }
{
    // By number: elements are the numbers below n.
    for s in 0..n {
        if let Some(entry) = search_from(rule, n, k, scratch, first, second, least, s) {
            return Some(Escape { start: s, entry });
        }
    }
    None
}

// Compares the marking whose table begins at `first` with the one whose table begins at `second`, both at a least grade: a start value
// with a cycle that the first marking has and the second does not accept after it. It makes blank what it needs blank, and keeps the tables of
// marks and the bytes from 61440 on.
pub fn first_escape(
    rule: &[u8],
    n: usize,
    k: usize,
    scratch: &mut [u8],
    first: usize,
    second: usize,
    least: u8,
) -> Option<Escape>
    requires table { Table rule.now n k }
    requires escape_needs { EscapeNeeds (morphism_at rule.now n k) first second scratch.old }
    ensures { Escaped (morphism_at rule.now n k) least first second scratch.old scratch.new result }
{
    zero_part(scratch, STATES_BASE, NEXT_PREIMAGES_BASE);
    list_preimages(rule, n, k, scratch);
    search_all(rule, n, k, scratch, first, second, least)
}
