// The products with the elements of letters, from the worklist of all elements (crate rule_reach): which of its entries are letters'
// elements, and a column of products for each.
#![tactic(auto)]

ghost use Rattle.formats.proofs.Tables.{Table};
ghost use Rattle.rule_letter_columns.specs.Columns.{AllFound, LetterEntries, LetterColumns};

use rule_table::product;

// How many entries are letters' elements: those that were found from entry 0, which stand first, each once.
pub fn letter_entries(rule: &[u8], n: usize, k: usize, queue: &[u8], count: usize) -> usize
    requires table { Table rule.now n k }
    requires all_found { AllFound rule.now n k queue.now count }
    ensures { LetterEntries queue.now count result }
{
    for i in 0..count {
        if 0 < queue[64 + i] {
            return i;
        }
    }
    count
}

// The products x·h of every x with each letter's element h, in 64 bytes for each h. The tests look them up there, so that their loops
// multiply no numbers.
pub fn letter_columns(
    rule: &[u8],
    n: usize,
    k: usize,
    queue: &[u8],
    count: usize,
    letters: usize,
) -> [u8; 1024]
    requires table { Table rule.now n k }
    requires all_found { AllFound rule.now n k queue.now count }
    requires letter_entries { LetterEntries queue.now count letters }
    ensures { LetterColumns rule.now n queue.now letters result }
{
    let mut columns = [0u8; 1024];
    // By index: the byte of x and of entry j is worked out from both.
    for j in 0..letters {
        let h = queue[j] as usize;
        for x in 0..n {
            let xh = product(rule, n, x, h);
            columns[64 * j + x] = xh as u8;
        }
    }
    columns
}
