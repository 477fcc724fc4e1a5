// The test of associativity along words: whether a product with an element is one with the element that it was found from and then one
// with its letter's.
#![tactic(auto)]

ghost use Rattle.std.specs.Prelude.{◌<◌};
ghost use Rattle.formats.proofs.Tables.{Table};
ghost use Rattle.formats.specs.Table.{morphism_at};
ghost use Rattle.rule_letter_columns.specs.Columns.{AllFound, LetterEntries, LetterColumns};
ghost use Rattle.rule_along_words.specs.Tests.{ColumnInside, AlongAnswer, WordsAnswer};

use rule_table::{image, product};

// Whether (x·p)·h is x·s for every x, with h the element of a column. A loop that ends only with the last x is compiled with half the
// jumps, and its time does not depend on where it comes to lie.
fn along(
    rule: &[u8],
    n: usize,
    k: usize,
    columns: &[u8; 1024],
    j: usize,
    p: usize,
    s: usize,
) -> bool
    requires table { Table rule.now n k }
    requires column_inside { ColumnInside columns.now n j }
    requires p_lt_n { (p < n) × (s < n) }
    ensures { AlongAnswer (morphism_at rule.now n k) columns.now j p s result }
{
    let mut same = true;
    for x in 0..n {
        let xp = product(rule, n, x, p);
        let left = columns[64 * j + xp] as usize;
        let right = product(rule, n, x, s);
        if left != right {
            same = false;
        }
    }
    same
}

// Whether every product with the element of an entry behind the letters' is one with the element that it was found from and then one
// with its letter's.
pub fn words_associate(
    rule: &[u8],
    n: usize,
    k: usize,
    queue: &[u8],
    count: usize,
    letters: usize,
    columns: &[u8; 1024],
) -> bool
    requires table { Table rule.now n k }
    requires all_found { AllFound rule.now n k queue.now count }
    requires letter_entries { LetterEntries queue.now count letters }
    requires letter_columns { LetterColumns rule.now n queue.now letters columns.now }
    ensures { WordsAnswer rule.now n k queue.now letters count result }
{
    // By index: each entry has its bytes in four parts of the queue.
    for i in letters..count {
        let from = queue[64 + i] as usize;
        let p = queue[from - 1] as usize;
        let s = queue[i] as usize;
        let letter = queue[128 + i] as usize;
        let h = image(rule, n, letter);
        let place = queue[192 + h] as usize;
        if !along(rule, n, k, columns, place - 1, p, s) {
            return false;
        }
    }
    true
}
