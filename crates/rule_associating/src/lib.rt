// Whether a table associates, by two tests with letters in place of all triples, from the worklist of all its elements (crate rule_reach).
// Where both hold every triple associates (theory/proofs/Associating); where one fails nothing is said of the triples. The test along words
// is that of crate rule_along_words, the test between letters is here.
#![tactic(auto)]

ghost use Rattle.std.specs.Prelude.{◌<◌};
ghost use Rattle.formats.proofs.Tables.{Table};
ghost use Rattle.formats.specs.Table.{morphism_at};
ghost use Rattle.rule_letter_columns.specs.Columns.{AllFound, LetterEntries, LetterColumns};
ghost use Rattle.rule_along_words.specs.Tests.{ColumnInside};
ghost use Rattle.rule_associating.specs.Tests.{BetweenAnswer, LettersAnswer, AssociatesAnswer};

use rule_along_words::words_associate;
use rule_letter_columns::{letter_columns, letter_entries};
use rule_table::product;

// Whether (g·x)·h is g·(x·h) for every x, with h the element of a column; the loop as in rule_along_words.
fn between(rule: &[u8], n: usize, k: usize, columns: &[u8; 1024], j: usize, g: usize) -> bool
    requires table { Table rule.now n k }
    requires column_inside { ColumnInside columns.now n j }
    requires g_lt_n { g < n }
    ensures { BetweenAnswer (morphism_at rule.now n k) columns.now j g result }
{
    let mut same = true;
    for x in 0..n {
        let gx = product(rule, n, g, x);
        let xh = columns[64 * j + x] as usize;
        let left = columns[64 * j + gx] as usize;
        let right = product(rule, n, g, xh);
        if left != right {
            same = false;
        }
    }
    same
}

// Whether this holds for every two letters' elements.
fn letters_associate(
    rule: &[u8],
    n: usize,
    k: usize,
    queue: &[u8],
    count: usize,
    letters: usize,
    columns: &[u8; 1024],
) -> bool
    requires table { Table rule.now n k }
    requires all_found { AllFound rule.now n k queue.now count }
    requires letter_entries { LetterEntries queue.now count letters }
    requires letter_columns { LetterColumns rule.now n queue.now letters columns.now }
    ensures { LettersAnswer rule.now n k queue.now letters result }
{
    for i in 0..letters {
        let g = queue[i] as usize;
        for j in 0..letters {
            if !between(rule, n, k, columns, j, g) {
                return false;
            }
        }
    }
    true
}

// Both tests: true only where every triple associates. Beside the columns, the first looks up three products for each element and entry
// behind the letters', the second four for each element and two letters; where that is no less than the three for each triple, the triples
// are left to decide.
pub fn associates(rule: &[u8], n: usize, k: usize, queue: &[u8], count: usize) -> bool
    requires table { Table rule.now n k }
    requires all_found { AllFound rule.now n k queue.now count }
    ensures { AssociatesAnswer (morphism_at rule.now n k) result }
{
    let letters = letter_entries(rule, n, k, queue, count);
    if 3 * (n * n) <= 3 * (n - letters) + 4 * (letters * letters) {
        return false;
    }
    let columns = letter_columns(rule, n, k, queue, count, letters);
    if !words_associate(rule, n, k, queue, count, letters, &columns) {
        return false;
    }
    letters_associate(rule, n, k, queue, count, letters, &columns)
}
