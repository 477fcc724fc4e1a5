// The rule of an automaton that was read. Its elements are the matrices of all non-empty words, numbered in the order in which they are
// found.
//
// Scratch holds the bytes of the transitions up to byte 576, the matrices from byte 8192 on, and from byte 12288 on what is recorded
// while they are found, first of all the element of each letter. Behind them the rule is laid out: from byte 16384 on the products, by
// rows as the file has them, and from byte 24576 on the marks, a byte for each pair (s, e) at s * 64 + e.
#![tactic(auto)]

ghost use Rattle.automaton_ready_products.specs.Ready.{ReadyTable, LentTable};
ghost use Rattle.automaton_table.specs.Laying.{StepList, MarkNeeds, RuleLaid};
ghost use Rattle.automaton_translation.specs.Promise.{ReadHere, MadePromise};

use answer::Refusal;
use automaton_marks::lay_marks;
use automaton_matrix_list::list_matrices;
use automaton_table::lay_products;
use promises::Written;
use rule_laid::write_laid;
use scratch::STEPS_BASE;
use sections::zero;

// Lays out the rule whose elements are the listed matrices.
fn lay_rule(kinds: &[u8], n: usize, scratch: &mut [u8], count: usize)
    requires step_list { StepList kinds.now n scratch.old count }
    requires mark_needs { MarkNeeds kinds.now n scratch.old count }
    ensures { RuleLaid kinds.now n count scratch.old scratch.new }
{
    lay_products(scratch, count);
    lay_marks(kinds, n, scratch, count);
}

// The rule of an automaton whose transitions stand in scratch, unless it has too many matrices. The table of products over two states is
// lent, or empty.
pub fn make_rule(
    automaton: &[u8],
    n: usize,
    k: usize,
    out: &mut [u8],
    scratch: &mut [u8],
    table: &[u8],
) -> Written
    requires read_here { ReadHere automaton.now n k out.old scratch.old }
    requires lent_table { LentTable table.now }
    ensures { MadePromise automaton.now out.old out.new scratch.old scratch.new result }
{
    let kinds = &automaton[1..];
    let count = match list_matrices(kinds, n, k, scratch, table) {
        Some(count) => count,
        None => {
            zero(scratch);
            return Written::Refused {
                refusal: Refusal::TooManyMatrices,
                input: 1,
                place: 0,
            };
        }
    };
    lay_rule(kinds, n, scratch, count);
    let length = write_laid(scratch, STEPS_BASE, count, k, out);
    zero(scratch);
    Written::Rule(length)
}

// The same by a table that holds the products of all matrices over two states: what is lent here is that table, and not nothing.
pub fn make_rule_by(
    automaton: &[u8],
    n: usize,
    k: usize,
    out: &mut [u8],
    scratch: &mut [u8],
    table: &[u8],
) -> Written
    requires read_here { ReadHere automaton.now n k out.old scratch.old }
    requires ready_table { ReadyTable table.now }
    ensures { MadePromise automaton.now out.old out.new scratch.old scratch.new result }
{
    make_rule(automaton, n, k, out, scratch, table)
}
